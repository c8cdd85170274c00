// Turns of an in-link.
use capacity_credits::Meter;
use net_core::LinkNo;
use std::marker::Model;

/// A turn to a link that has a penalty or a limit.
#[derive(Drop)]
pub struct LimitedTurn {
    pub to: LinkNo,
    pub penalty: u32,
    pub limit: Option<Meter>,
}

/// The turns of an in-link that have a penalty or a limit.
#[derive(Drop)]
pub struct LimitedTurns {
    pub list: Vec<LimitedTurn>,
}

impl Model for LimitedTurns {
    ghost use Rattle.std.specs.Prelude.{List};
    ghost use Rattle.cell_stages.specs.declared.turn.LimitedTurn.{LimitedTurn};

    ghost Value = { List LimitedTurn };

    ghost view = { λ t. t.list.items };
}
