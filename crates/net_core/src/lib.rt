//! A road network as every other crate sees it: nodes, links and turns in the order of their
//! tables.
//!
//! [`Net`] lends the links into and out of a node, numbers the zones, and tells which turns are
//! allowed and what they cost, each in the words of specs/Network.antt over the plain rows. This
//! crate carries the promise that a turn is answered exactly where it is allowed, and a zone's
//! number exactly where some node has the zone. The calls that read take no memory.
#![tactic(auto)]

mod by_node;
mod ids;
mod laws;
mod lists;
mod net;
mod rates;
mod rows;
mod zones;

pub use ids::{Ids, Pairs};
pub use laws::{turns_cost_their_rows, zones_differ};
pub use net::{Memory, Net};
pub use rates::{MOST_WINDOW_STEP, MOST_WINDOWS, Rates, Window, Windows, rate_at};
pub use rows::{
    LinkNo, LinkRow, MOST_LINKS, MOST_NODES, MOST_TURNS, NetRows, NodeNo, NodeRow, Turn, TurnRow,
    ZoneNo,
};
