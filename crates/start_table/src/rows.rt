// The rows of a start table.
ghost use Rattle.std.specs.Prelude.{◌≡◌, ◌++◌, ◌∷◌, [], ◌<◌, length, OnOk, None, is_some};
ghost use Rattle.std.specs.Prelude.{option_copied};
ghost use Rattle.net_core.specs.Ids.{place_of};
ghost use Rattle.start_table.specs.Starts.{AreStartRows, agents_of, row_of};
ghost use Rattle.start_table.specs.declared.rows.TheConstants.{MOST_START_ROWS};

use item_list::List;
use std::alloc::{AllocError, Global};
use std::marker::Model;

/// The most rows of a start table.
pub const MOST_START_ROWS: usize = 2_000_000;

/// Identifiers, in the order in which they were put in.
pub type Ids = List<u64>;

/// What a start table says of an agent: its number, its zones, and the links of its route, all by
/// their identifiers.
#[derive(Drop)]
pub struct StartRow {
    pub agent: u64,
    pub origin: u64,
    pub destination: u64,
    pub links: Ids,
}

/// The rows of a start table, in its order, of different agents.
#[derive(Drop)]
pub struct StartRows {
    items: Vec<StartRow>,
    agents: net_core::Ids,
}

impl Model for StartRows {
    ghost use Rattle.std.specs.Prelude.{◌≡◌, List};
    ghost use Rattle.start_table.specs.Starts.{AreStartRows, agents_of};
    ghost use Rattle.start_table.specs.declared.rows.StartRow.{StartRow};

    ghost Value = { List StartRow };

    ghost view = { λ a. a.items.items };

    ghost invariant = { λ a. (a.agents ≡ agents_of a.items.items) × AreStartRows a.items.items };
}

impl StartRows {
    /// No rows.
    pub fn new(alloc: Global) -> Self
        ensures { result ≡ [] }
    {
        StartRows {
            items: Vec::new(alloc),
            agents: net_core::Ids::new(alloc),
        }
    }

    /// The rows, lent.
    pub fn as_slice(&self) -> &[StartRow]
        ensures rows { result.now ≡ self.now }
        ensures sound { AreStartRows self.now }
    {
        &self.items
    }

    /// The rows, given away.
    pub fn into_vec(self) -> Vec<StartRow>
        ensures rows { result.items ≡ self }
        ensures sound { AreStartRows self }
    {
        self.items
    }

    // The row of an agent, where it has one.
    pub(crate) fn row(&self, agent: u64) -> Option<&StartRow>
        ensures row { option_copied result ≡ row_of self.now agent }
        ensures sound { AreStartRows self.now }
    {
        match self.agents.place(agent) {
            Some(place) => Some(&self.items[place]),
            None => None,
        }
    }

    // Whether an agent has a row.
    pub(crate) fn contains(&self, agent: u64) -> bool
        ensures { result ≡ is_some (place_of (agents_of self.now) agent) }
    {
        self.agents.place(agent).is_some()
    }

    // Adds the row of a new agent, as the last one.
    pub(crate) fn push(&mut self, row: StartRow) -> Result<(), AllocError>
        requires new { place_of (agents_of self.old) row.agent ≡ None }
        requires room { length self.old < MOST_START_ROWS }
        ensures { OnOk result (self.new ≡ self.old ++ row ∷ []) }
    {
        self.items.reserve(1)?;
        self.agents.add(row.agent)?;
        self.items.push(row)?;
        Ok(())
    }
}
