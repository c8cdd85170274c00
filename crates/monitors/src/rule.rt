// The rule of a board's cell, and the steps that keep it.
use atomic_table::{Join, Split};
use crossbeam_utils::atomic::seq_cell::{Pass, RuledSeqCell};
use crossbeam_utils::rule::{Outcome, Protocol};
use dta_model::Eight;
use std::collections::LinkedList;

// What a pass of a cell knows. No value of it is made.
pub struct View {
    // Whether it is the writer's.
    pub writes: bool,
    // The posted states that it knows.
    pub seen: LinkedList<Eight>,
    // The posted states that a note or a pass told it, until its next load.
    pub told: LinkedList<Eight>,
}

// The rule: one list of posted states, of which each pass knows a beginning.
pub struct Postings;

impl Protocol<[u64; 8], View> for Postings {
    ghost use Rattle.std.specs.Prelude.{[], true};
    ghost use Rattle.monitors.specs.Rule.{Shows, knowing};

    ghost holds = { Shows };

    ghost first = { knowing true [] };
}

// The writer's step that posts.
pub struct Post;

impl Outcome<[u64; 8], View> for Post {
    ghost use Rattle.monitors.specs.Rule.{Posts};

    ghost then = { Posts };
}

// A monitor's step that reads.
pub struct Read;

impl Outcome<[u64; 8], View> for Read {
    ghost use Rattle.monitors.specs.Rule.{Reads};

    ghost then = { Reads };
}

// The writer's step that reads, after it was told what a monitor knows.
pub struct Settle;

impl Outcome<[u64; 8], View> for Settle {
    ghost use Rattle.monitors.specs.Rule.{Settles};

    ghost then = { Settles };
}

// The step that makes one more pass, which knows what this one knows and doesn't write.
pub struct Part;

impl Split<View> for Part {
    ghost use Rattle.std.specs.Prelude.{false};
    ghost use Rattle.monitors.specs.Rule.{knowing};

    ghost left = { λ pass. pass };

    ghost right = { λ pass. knowing false pass.seen };
}

// The step that tells a pass what another one knows. The other one is used up.
pub struct Tell;

impl Join<View> for Tell {
    ghost use Rattle.monitors.specs.Rule.{telling, nothing};

    ghost both = { λ pass other. telling pass other.seen };

    ghost spent = { nothing };
}

pub type Cell = RuledSeqCell<[u64; 8], View, Postings, 8>;

pub type CellPass = Pass<[u64; 8], View>;
