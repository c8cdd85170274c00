// Watch lines, of which several workers determine only the last one.
use std::str;

/// Whether each line tells a later iteration or step than the one before it, and the last one is
/// this.
pub(crate) fn rise_to(lines: &[u8], last: &[u8]) -> bool {
    match str::from_utf8(lines) {
        Ok(text) => end_with(lines, last) && do_rise(text),
        Err(_) => false,
    }
}

// Whether the last line is this.
fn end_with(lines: &[u8], last: &[u8]) -> bool {
    match lines.strip_suffix(last) {
        Some(before) => before.is_empty() || before.ends_with(b"\n"),
        None => false,
    }
}

// Whether each line tells a later iteration or step than the one before it.
fn do_rise(lines: &str) -> bool {
    let mut before = (0, 0);
    for line in lines.lines() {
        let Some(place) = place_in(line) else {
            return false;
        };
        if place <= before {
            return false;
        }
        before = place;
    }
    true
}

// The iteration and the steps of a line.
fn place_in(line: &str) -> Option<(u32, u32)> {
    let mut fields = line.split(',');
    let iteration = fields.next()?.parse::<u32>().ok()?;
    let steps = fields.next()?.parse::<u32>().ok()?;
    Some((iteration, steps))
}
