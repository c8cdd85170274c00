// Links at which nobody moves.
ghost use Rattle.node_transfer.specs.Rest.{HeadIsLater, IsQuietLink, WaitLater};
ghost use Rattle.node_transfer.specs.declared.rest.TheConstants.{NO_STEP};
ghost use Rattle.std.specs.Prelude.{◌≡◌, ℕ, ◌<◌, All};

use cell_stages::{InLink, OutLink};

/// The answer where nobody is ready in any step.
pub const NO_STEP: u32 = 4_294_967_295;

/// The first step in which the head of an in-link is ready.
pub fn head_step(link: &InLink) -> u32
    ensures before { (step : ℕ) → step < result → HeadIsLater step link.now }
    ensures least { result < NO_STEP → HeadIsLater result link.now → ⊥ }
{
    match link.line.front() {
        None => NO_STEP,
        Some(rider) => match rider.last_entry() {
            None => NO_STEP,
            Some(entry) => entry.saturating_add(link.exit.free),
        },
    }
}

// A link of a cell, at which somebody may move or not.
trait Rests {
    // Nobody moves there in a step.
    ghost IsStill: { ℕ → Self → Type 0 };

    // The first step in which somebody may move there.
    fn first_move(&self) -> u32
        ensures before { (step : ℕ) → step < result → IsStill step self.now }
        ensures least { result < NO_STEP → IsStill result self.now → ⊥ };
}

impl Rests for InLink {
    ghost IsStill = { IsQuietLink };

    // The first step in which its head is ready, or its room may grow since somebody left it in
    // the last steps.
    fn first_move(&self) -> u32 {
        if self.left.total() > 0 {
            0
        } else {
            head_step(self)
        }
    }
}

impl Rests for OutLink {
    ghost IsStill = { WaitLater };

    // The first step in which one who waits for it is due.
    fn first_move(&self) -> u32 {
        if self.waiting.due.len() > 0 {
            return 0;
        }
        match self.waiting.later.front() {
            None => NO_STEP,
            Some(rider) => rider.departure(),
        }
    }
}

// The first step in which somebody may move at one of the links.
fn first_of<T: Rests>(links: &[T]) -> u32
    ensures before { (step : ℕ) → step < result → All (T.IsStill step) links.now }
    ensures least { result < NO_STEP → All (T.IsStill result) links.now → ⊥ }
{
    let mut first = NO_STEP;
    for link in links {
        first = first.min(link.first_move());
    }
    first
}

/// The first step in which a head of the in-links is ready, or a room of theirs may grow, or one
/// who waits for the out-links is due. It looks at each link once.
pub fn first_step(ins: &[InLink], outs: &[OutLink]) -> u32
    ensures links { (step : ℕ) → step < result → All (IsQuietLink step) ins.now }
    ensures waits { (step : ℕ) → step < result → All (WaitLater step) outs.now }
    ensures least { result < NO_STEP → All (IsQuietLink result) ins.now
        → All (WaitLater result) outs.now → ⊥ }
{
    first_of(ins).min(first_of(outs))
}
