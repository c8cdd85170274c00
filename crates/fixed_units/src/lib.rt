//! Numbers and units: what the number fields of a network's tables mean, exactly.
//!
//! The crate reads identifiers and quantities from text, and turns quantities into the whole
//! numbers that a network is made of: lengths, speeds, free-flow steps, storage, penalties and
//! rates. Its promise is that every number is read exactly. A text is refused exactly where the
//! grammar and the ranges of specs/Quantity.antt refuse it, and each unit follows its formula in
//! specs/Units.antt over exact whole numbers. No call takes memory.
#![tactic(auto)]

mod conversion;
mod decimal;
mod digits;
mod exponent;
mod fault;
mod identifier;
mod leading;
mod link;
mod measure;
mod quantity;
mod sign;
mod turn;
mod units;
mod zone_field;

pub use conversion::{length, speed};
pub use fault::NumberFault;
pub use identifier::{GREATEST_IDENTIFIER, whole};
pub use link::{
    MOST_FREE_STEPS, MOST_JAM, MOST_LANES, MOST_RATE, MOST_STEP, MOST_STORAGE, TooSlow, ff_steps,
    link_rate, storage, wave_steps,
};
pub use measure::{Length, LengthUnit, Speed, SpeedUnit};
pub use quantity::{MOST_BYTES, MOST_THOUSANDTHS, milli, quantities_are_spellings};
pub use turn::{MOST_PENALTY, MOST_PENALTY_STEPS, penalty_steps, turn_rate};
pub use units::Units;
pub use zone_field::zone;
