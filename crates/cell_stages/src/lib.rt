//! What the cell of a node and the mail of a link hold at each stage of a loading.
//!
//! A cell is the in-links and the out-links of a node, with who is on them and what lets them go.
//! In each step a node first transfers, which makes its moves and leaves batches in the mail of
//! its out-links, and then gathers the batches of its in-links. The definitions stand in specs/:
//! `Stages` has the riders, rooms and batches before and after the transfer of a step, `Contents`
//! the whole cell and the mail. Each function of `laws` does nothing; its contract is something
//! that is true of these contents in every loading.
#![tactic(auto)]

mod exit;
mod in_link;
mod laws;
mod mail;
mod out_link;
mod turn;

pub use exit::Exit;
pub use in_link::InLink;
pub use laws::{
    heads_of_lines, leavings_pass, leavings_stay, lines_gather, moves_count, moves_pass,
    nodes_hold_all, one_pass_is_enough, riders_move, riders_tell, rooms_add_up, rooms_are_told,
    routes_lead_on, steps_have_two_stages, the_first_waits, waiting_lines_stay,
};
pub use mail::Mail;
pub use out_link::{OutLink, Waiting};
pub use turn::{LimitedTurn, LimitedTurns};
