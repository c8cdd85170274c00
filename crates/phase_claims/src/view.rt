// What a floor is for, and what its passes know, as plain data.
use dta_model::{Plan, Stage};
use monitors::Board;
use std::collections::LinkedList;

/// What a floor is for: the plan of its loading, the board that its postings go to, and how many
/// passes there may be. No value of it is made.
pub struct Scope {
    pub plan: Plan,
    pub board: Board,
    pub passes: u64,
}

/// What a pass knows. No value of it is made.
pub struct View {
    /// What its floor is for.
    pub scope: Scope,
    /// What it has of the units.
    pub stage: Stage,
    /// The open unit whose places it has. The open ones before it are worked on, and not finished.
    pub at: u64,
    /// The nodes that it has told that somebody comes, by the unit that it is at.
    pub told: LinkedList<u64>,
    /// How many passes may still be split off from it.
    pub spare: u64,
    /// The units that it has performed and finished.
    pub performed: LinkedList<u64>,
    /// How many passes were joined into it, itself included.
    pub weight: u64,
    /// How many numbers of no unit it drew.
    pub past: u64,
    /// The most finished units that it has seen.
    pub seen: u64,
    /// How often it has looked how many units are finished.
    pub looks: u64,
}
