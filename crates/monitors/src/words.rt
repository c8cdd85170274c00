// A state as the eight words of a cell.
ghost use Rattle.std.specs.Prelude.{◌≡◌};
ghost use Rattle.monitors.specs.Words.{words_of, eight_of};

use dta_model::Eight;

pub fn to_words(eight: Eight) -> [u64; 8]
    ensures { result ≡ words_of eight }
{
    let [a, b, c, d] = eight.first;
    [
        eight.steps,
        eight.waiting,
        eight.running,
        eight.arrived,
        a,
        b,
        c,
        d,
    ]
}

pub fn from_words(words: [u64; 8]) -> Eight
    ensures { result ≡ eight_of words }
{
    Eight {
        steps: words[0],
        waiting: words[1],
        running: words[2],
        arrived: words[3],
        first: [words[4], words[5], words[6], words[7]],
    }
}
