// The rule of a floor's words, and the steps that keep it.
use crate::part::Part;
use crate::view::View;
use atomic_table::{Join, Play, Seat, Split, Table, TableRule};
use dta_model::Loading;
use monitors::Board;
use std::alloc::Global;

/// What a floor's table is told when it is made.
#[derive(Clone, Copy, Drop)]
pub struct Key<'a> {
    pub loading: Loading<'a>,
    pub board: &'a Board,
    pub passes: u32,
}

/// The rule of a floor's table, between any two steps, whatever the threads do:
/// specs/Running.antt.
pub struct Claiming;

impl<'a> TableRule<Part, View, Key<'a>> for Claiming {
    ghost use Rattle.std.specs.Prelude.{◌-◌};
    ghost use Rattle.phase_claims.specs.Running.{Holds};
    ghost use Rattle.phase_claims.specs.Scopes.{scope_of};
    ghost use Rattle.phase_claims.specs.Views.{beginning};

    ghost holds = { λ key. Holds (scope_of key) };

    ghost first = { λ key. beginning (scope_of key) (key.passes - 1) };
}

// The step that draws numbers, as many as it adds.
pub struct Draw;

impl Play<Part, View> for Draw {
    ghost use Rattle.phase_claims.specs.Plays.{Draws};

    ghost then = { Draws };
}

// The step that reads how many units are finished, for a pass that holds some.
pub struct Look;

impl Play<Part, View> for Look {
    ghost use Rattle.phase_claims.specs.Plays.{Looks};

    ghost then = { Looks };
}

// The step that brings the places of a unit home and takes those of the next open one.
pub struct Turn;

impl Play<Part, View> for Turn {
    ghost use Rattle.phase_claims.specs.Plays.{Turns};

    ghost then = { Turns };
}

// The step that finishes the units that are open.
pub struct Finish;

impl Play<Part, View> for Finish {
    ghost use Rattle.phase_claims.specs.Plays.{Finishes};

    ghost then = { Finishes };
}

// A look at a node's word, for a gather: whether somebody comes.
pub struct See;

impl Play<Part, View> for See {
    ghost use Rattle.phase_claims.specs.Plays.{Sees};

    ghost then = { Sees };
}

// The step that tells a node that somebody comes.
pub struct Tell;

impl Play<Part, View> for Tell {
    ghost use Rattle.phase_claims.specs.Plays.{Tells};

    ghost then = { Tells };
}

// A look that tells that a pass has no more rights than there are passes.
pub struct Bound;

impl Play<Part, View> for Bound {
    ghost use Rattle.phase_claims.specs.Plays.{IsBounded};

    ghost then = { IsBounded };
}

// The step that splits a pass off.
pub struct Cut;

impl Split<View> for Cut {
    ghost use Rattle.phase_claims.specs.Views.{beginning, less_spare};

    ghost left = { less_spare };

    ghost right = { λ view. beginning view.scope 0 };
}

// The step that joins two passes. The second is used up.
pub struct Glue;

impl Join<View> for Glue {
    ghost use Rattle.phase_claims.specs.Views.{joined, nobody};

    ghost both = { joined };

    ghost spent = { nobody };
}

/// The words of a floor, its places and the views of its passes.
pub type SharedTable<'a> = Table<Part, View, Key<'a>, Claiming, Global>;

/// The place of a pass at a floor's table.
pub type PassSeat = Seat<Part, View>;
