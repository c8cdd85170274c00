//! Text on its way out: what the calls that put texts write into.
//!
//! A [`Pending`] gathers up to 4,096 bytes and puts them to an output of a desk in one piece. It
//! takes no memory. The contract of each call that adds to it is one word, `Adds`
//! (specs/Sending.antt): some first bytes of what was pending and of what is added went out, and
//! the rest is pending; on Failed a first part of both went out. So a text of any length that is
//! added piece by piece and put out at the end went out whole, or a first part of it
//! (proofs/LineFacts.antt, for texts of a head and lines).
#![tactic(auto)]

mod pending;

pub use pending::{DIGITS, PIECE, Pending, WIDE_DIGITS};
