// What the places of a floor hold.
use crate::noted_cell::NotedCell;
use monitors::WriterPass;
use node_transfer::Mail;

/// What a place holds: a cell, a mail, the writer's pass, or nothing while a unit is
/// at work on it.
#[derive(Drop)]
pub enum Part {
    Out,
    Cell(NotedCell),
    Mail(Mail),
    Writer(WriterPass),
}
