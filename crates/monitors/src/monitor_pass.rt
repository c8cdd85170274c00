// A pass of a monitor.
use crate::rule::CellPass;
use std::marker::Model;

/// A pass that reads a board. To a contract it is its board, and the posted states that it knows.
#[derive(Drop)]
pub struct MonitorPass {
    pub(crate) pass: CellPass,
}

impl Model for MonitorPass {
    ghost use Rattle.std.specs.Prelude.{◌≡◌, false};
    ghost use Rattle.crossbeam_utils.specs.Seq.{cell_view};
    ghost use Rattle.monitors.specs.Posted.{Known};

    ghost Value = { Known };

    ghost view = { λ p. record { board = p.pass.table_id; list = (cell_view p.pass).seen } };

    ghost invariant = { λ p. (cell_view p.pass).writes ≡ false };
}
