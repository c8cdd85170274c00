// Why a text is no number of its kind.

/// Why a number is refused.
#[derive(Clone, Copy, Debug, PartialEq, Eq)]
pub enum NumberFault {
    /// The text does not have the form of the number.
    NotNumber,
    /// The text has the form, and its value is out of range.
    OutOfRange,
}
