// The pass of the writer.
use crate::rule::CellPass;
use std::marker::Model;

/// The one pass of a board that posts. To a contract it is its board, and the states that it
/// posted.
#[derive(Drop)]
pub struct WriterPass {
    pub(crate) pass: CellPass,
}

impl Model for WriterPass {
    ghost use Rattle.std.specs.Prelude.{◌≡◌, true};
    ghost use Rattle.crossbeam_utils.specs.Seq.{cell_view};
    ghost use Rattle.monitors.specs.Posted.{Known};

    ghost Value = { Known };

    ghost view = { λ p. record { board = p.pass.table_id; list = (cell_view p.pass).seen } };

    ghost invariant = { λ p. (cell_view p.pass).writes ≡ true };
}
