//! Credits: how many whole vehicles a rate lets through in each step.
//!
//! A rate gives a link or a turn its vehicles in parts. [`Credit::grant`] answers the whole
//! vehicles of a step and carries the parts that are left over to the next one. Its promise is the
//! closed form of the allowance: grant k + 1, asked with the rate of step k, is what the rates
//! allow in step k. Whole vehicles that a step doesn't use aren't kept for later ones.
//! [`Credit::skip`] lets many such steps go by at once, and so a step's allowance needs no step
//! before it: a [`Meter`] is rates, and what is left of the allowance of the step that is open.
//! [`Meter::new`] alone takes memory, where rates change in windows.
#![tactic(auto)]

mod course;
mod credit;
mod meter;
mod outlook;

pub use credit::Credit;
pub use meter::Meter;
