// Capacities in time windows: the column `capacity_by_step`.
ghost use Rattle.std.specs.Prelude.{◌≡◌, ◌≤◌, All, IfOk, IfSome, Ok, true, is_some, position};
ghost use Rattle.std.specs.List.{list_all};
ghost use Rattle.fixed_units.specs.Quantity.{are_digits as are_digits_of, number, within};
ghost use Rattle.fixed_units.specs.Quantity.{is_digit as is_digit_of};
ghost use Rattle.fixed_units.specs.Quantity.{is_quantity as is_quantity_of};
ghost use Rattle.row_reader.specs.Fields.{complain as complain_of};
ghost use Rattle.row_reader.specs.declared.accepted.RowRefusal.TheVariants as refusal;
ghost use Rattle.row_reader.specs.declared.faults.Column.TheVariants as column;
ghost use Rattle.net_core.specs.declared.rates.TheConstants.{MOST_WINDOW_STEP};
ghost use Rattle.row_reader.specs.FirstFault.{TellsRow};
ghost use Rattle.gmns_tables.specs.Windows.{AreWindowsOf, IsKind, IsRateOf, IsWindowOf};
ghost use Rattle.gmns_tables.specs.Windows.{are_in_order as are_in_order_of};
ghost use Rattle.gmns_tables.specs.Windows.{capacity_text, is_capacity as is_capacity_of, is_colon};
ghost use Rattle.gmns_tables.specs.Windows.{in_order, is_part as is_part_of, limit_in, parts_of};
ghost use Rattle.gmns_tables.specs.Windows.{rate_in, rise_after as rise_after_of, step_text, texts};
ghost use Rattle.gmns_tables.specs.Windows.{window_in, windows_by_step, windows_in};
ghost use Rattle.gmns_tables.specs.declared.windows.WindowsOf.{WindowsOf as KindOfWindows};

use fixed_units::{NumberFault, link_rate, milli, turn_rate, whole};
use net_core::{MOST_WINDOW_STEP, MOST_WINDOWS, Window, Windows};
use row_reader::{Code, Column, RowRefusal, complain};
use std::alloc::{AllocError, Global};

// What windows are of: a link with so many lanes, in thousandths, or a turn, which may be without
// limit.
#[derive(Clone, Copy)]
pub(crate) enum WindowsOf {
    Link(u32),
    Turn,
}

// A part, cut at its first colon: its step, and its capacity.
#[derive(Clone, Copy)]
struct Halves<'a> {
    step: &'a [u8],
    capacity: &'a [u8],
}

/// The windows of a field, none where it is empty: E4 where the text isn't parts of the form, E5
/// where it is and there are too many parts, a number is out of range, or the steps don't rise
/// from 0 on.
#[tactic(auto, unfolding(crate::specs::Windows::windows_by_step))]
pub(crate) fn read_windows(
    alloc: Global,
    kind: WindowsOf,
    text: &[u8],
) -> Result<Windows, RowRefusal>
    requires { IsKind kind }
    ensures windows { TellsRow (windows_by_step kind text.now) result }
    ensures sound { IfOk result (AreWindowsOf kind) }
{
    if text.is_empty() {
        return Ok(Windows::of(Vec::new(alloc)));
    }
    match parts(alloc, text) {
        Ok(parts) => {
            if are_parts(kind, &parts) {
                windows(alloc, kind, &parts)
            } else {
                Err(refused(Code::E4))
            }
        }
        Err(_) => Err(RowRefusal::Memory),
    }
}

// A complaint about the column.
fn refused(code: Code) -> RowRefusal
    ensures { result ≡ refusal.Complaint (complain_of code column.CapacityByStep) }
{
    RowRefusal::Complaint(complain(code, Column::CapacityByStep))
}

// The parts of a text, which stand between its semicolons.
fn parts(alloc: Global, text: &[u8]) -> Result<Vec<&[u8]>, AllocError>
    ensures { IfOk result (λ parts. texts parts.items ≡ parts_of text.now) }
{
    text.split(|byte| *byte == b';').collect(alloc)
}

// Whether each of some texts is a part.
fn are_parts(kind: WindowsOf, parts: &[&[u8]]) -> bool
    ensures { result ≡ list_all (is_part_of kind) (texts parts.now) }
{
    parts.iter().all(|part| is_part(kind, *part))
}

// The windows of parts, if they aren't too many, their numbers are in range, and their steps rise
// from 0 on.
fn windows(alloc: Global, kind: WindowsOf, parts: &[&[u8]]) -> Result<Windows, RowRefusal>
    requires kind { IsKind kind }
    requires form { list_all (is_part_of kind) (texts parts.now) ≡ true }
    ensures windows { TellsRow (in_order (windows_in kind (texts parts.now))) result }
    ensures sound { IfOk result (AreWindowsOf kind) }
{
    let mut windows = Vec::new(alloc);
    for part in parts {
        match window(kind, *part) {
            Ok(window) => match windows.push(window) {
                Ok(()) => {}
                Err(_) => return Err(RowRefusal::Memory),
            },
            Err(_) => return Err(refused(Code::E5)),
        }
    }
    ordered(windows)
}

// Windows, if they aren't too many and stand in order.
fn ordered(windows: Vec<Window>) -> Result<Windows, RowRefusal>
    ensures windows { TellsRow (in_order (Ok windows.items)) result }
    ensures sound { (kind : KindOfWindows) → All (IsWindowOf kind) windows.items
        → IfOk result (AreWindowsOf kind) }
{
    if windows.len() <= MOST_WINDOWS && are_in_order(&windows) {
        Ok(Windows::of(windows))
    } else {
        Err(refused(Code::E5))
    }
}

// The place of the first colon of a part.
fn colon_in(part: &[u8]) -> Option<usize>
    ensures { result ≡ position is_colon part.now }
{
    part.iter().position(|byte| *byte == b':')
}

// Cuts a part at its first colon.
fn cut(part: &[u8]) -> Option<Halves<'_>>
    ensures colon { is_some result ≡ is_some (position is_colon part.now) }
    ensures step { IfSome result (λ halves. halves.step.now ≡ step_text part.now) }
    ensures capacity { IfSome result (λ halves. halves.capacity.now ≡ capacity_text part.now) }
{
    match colon_in(part) {
        Some(at) => Some(Halves {
            step: &part[..at],
            capacity: &part[at + 1..],
        }),
        None => None,
    }
}

// Whether a text is a part: digits, a colon and a capacity.
fn is_part(kind: WindowsOf, part: &[u8]) -> bool
    ensures { result ≡ is_part_of kind part.now }
{
    match cut(part) {
        Some(halves) => are_digits(halves.step) && is_capacity(kind, halves.capacity),
        None => false,
    }
}

fn are_digits(text: &[u8]) -> bool
    ensures { result ≡ are_digits_of text.now }
{
    !text.is_empty() && all_digits(text)
}

fn all_digits(text: &[u8]) -> bool
    ensures { result ≡ list_all is_digit_of text.now }
{
    text.iter().all(|byte| byte.is_ascii_digit())
}

// Whether a text is a capacity: a quantity, or for a turn no limit.
fn is_capacity(kind: WindowsOf, text: &[u8]) -> bool
    ensures { result ≡ is_capacity_of kind text.now }
{
    match kind {
        WindowsOf::Link(_) => is_quantity(text),
        WindowsOf::Turn => text == b"none".as_slice() || is_quantity(text),
    }
}

fn is_quantity(text: &[u8]) -> bool
    ensures { result ≡ is_quantity_of text.now }
{
    match milli(text) {
        Err(NumberFault::NotNumber) => false,
        _ => true,
    }
}

// The window of a part, if its numbers are in range.
#[tactic(auto, unfolding(crate::specs::Windows::window_in))]
fn window(kind: WindowsOf, part: &[u8]) -> Result<Window, NumberFault>
    requires kind { IsKind kind }
    requires form { is_part_of kind part.now ≡ true }
    ensures window { result ≡ window_in kind part.now }
    ensures range { IfOk result (IsWindowOf kind) }
{
    match cut(part) {
        Some(halves) => {
            let from = step(halves.step)?;
            let rate = rate(kind, halves.capacity)?;
            Ok(Window { from, rate })
        }
        None => Err(NumberFault::NotNumber),
    }
}

// The step that digits write, if a window may begin there.
fn step(digits: &[u8]) -> Result<u32, NumberFault>
    requires { are_digits_of digits.now ≡ true }
    ensures step { result ≡ within MOST_WINDOW_STEP (number digits.now) }
    ensures most { IfOk result (λ step. step ≤ MOST_WINDOW_STEP) }
{
    match whole(digits) {
        Ok(step) if step <= u64::from(MOST_WINDOW_STEP) => Ok(step as u32),
        _ => Err(NumberFault::OutOfRange),
    }
}

// The rate of a capacity, if it is in range.
fn rate(kind: WindowsOf, text: &[u8]) -> Result<Option<u64>, NumberFault>
    requires { IsKind kind }
    ensures rate { result ≡ rate_in kind text.now }
    ensures range { IfOk result (IsRateOf kind) }
{
    if matches!(kind, WindowsOf::Turn) && text == b"none".as_slice() {
        return Ok(None);
    }
    let capacity = milli(text)?;
    Ok(Some(match kind {
        WindowsOf::Link(lanes) => link_rate(capacity, lanes),
        WindowsOf::Turn => turn_rate(capacity),
    }))
}

// Whether the first window begins with step 0, and each of the others after the one before.
fn are_in_order(windows: &[Window]) -> bool
    ensures { result ≡ are_in_order_of windows.now }
{
    match windows.split_first() {
        Some((first, rest)) => first.from == 0 && rise_after(first.from, rest),
        None => false,
    }
}

// Whether each window begins after the one before, and the first after a step.
fn rise_after(step: u32, windows: &[Window]) -> bool
    ensures { result ≡ rise_after_of step windows.now }
{
    let mut before = step;
    for window in windows {
        if window.from <= before {
            return false;
        }
        before = window.from;
    }
    true
}
