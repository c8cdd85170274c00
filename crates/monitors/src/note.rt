// What one pass tells another.
use crate::rule::CellPass;
use std::marker::Model;

/// A note of what its maker had posted or seen, for one monitor to learn. To a contract it is its
/// board, and these posted states.
#[derive(Drop)]
pub struct Note {
    pub(crate) pass: CellPass,
}

impl Model for Note {
    ghost use Rattle.std.specs.Prelude.{◌≡◌, []};
    ghost use Rattle.crossbeam_utils.specs.Seq.{cell_view};
    ghost use Rattle.monitors.specs.Posted.{Known};

    ghost Value = { Known };

    ghost view = { λ n. record { board = n.pass.table_id; list = (cell_view n.pass).seen } };

    // It has made no step of its own.
    ghost invariant = { λ n. n.pass.me.1 ≡ [] };
}
