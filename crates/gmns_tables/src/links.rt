// The links of a table that was accepted.
ghost use Rattle.std.specs.Prelude.{◌≡◌, ◌<◌, ◌++◌, ◌∷◌, [], length, OnOk, None, IfSome, is_some};
ghost use Rattle.net_core.specs.Ids.{place_of};
ghost use Rattle.net_core.specs.Rows.{link_ids, link_named};
ghost use Rattle.net_core.specs.declared.rows.TheConstants.{MOST_LINKS};
ghost use Rattle.gmns_tables.specs.RowsWithWindows.{AreLinkRows, IsNextLink, rows_of, windows_of};

use crate::with_windows::{RowParts, WithWindows};
use net_core::{Ids, LinkNo, LinkRow, Windows};
use std::alloc::{AllocError, Global};
use std::marker::Model;

/// The links of a table, in its order, with different identifiers and numbers in range, and the
/// windows of each.
#[derive(Drop)]
pub struct LinkRows {
    rows: Vec<LinkRow>,
    windows: Vec<Windows>,
    ids: Ids,
}

impl Model for LinkRows {
    ghost use Rattle.std.specs.Prelude.{◌≡◌, List, length};
    ghost use Rattle.net_core.specs.Rows.{link_ids};
    ghost use Rattle.net_core.specs.declared.rows.LinkRow.{LinkRow};
    ghost use Rattle.gmns_tables.specs.RowsWithWindows.{AreLinkRows, rows_of, with_windows};
    ghost use Rattle.gmns_tables.specs.declared.with_windows.WithWindows.{WithWindows};

    ghost Value = { List (WithWindows LinkRow) };

    ghost view = { λ a. with_windows a.rows.items a.windows.items };

    ghost invariant = { λ a. (length a.windows.items ≡ length a.rows.items)
        × (a.ids ≡ link_ids (rows_of (with_windows a.rows.items a.windows.items)))
        × AreLinkRows (with_windows a.rows.items a.windows.items) };
}

impl LinkRows {
    // No links yet.
    pub(crate) fn new(alloc: Global) -> Self
        ensures { result ≡ [] }
    {
        LinkRows {
            rows: Vec::new(alloc),
            windows: Vec::new(alloc),
            ids: Ids::new(alloc),
        }
    }

    /// The links, without their windows.
    #[tactic(auto, using(crate::proofs::WindowsFacts::parts))]
    pub fn as_slice(&self) -> &[LinkRow]
        ensures links { result.now ≡ rows_of self.now }
        ensures sound { AreLinkRows self.now }
    {
        &self.rows
    }

    /// The link that has an identifier.
    pub fn place(&self, id: u64) -> Option<LinkNo>
        ensures link { result ≡ link_named (rows_of self.now) id }
        ensures within { IfSome result (λ link. link.0 < length (rows_of self.now)) }
    {
        match self.ids.place(id) {
            Some(place) => Some(LinkNo(place as u32)),
            None => None,
        }
    }

    /// The links, without their windows.
    #[tactic(auto, using(crate::proofs::WindowsFacts::parts))]
    pub fn into_vec(self) -> Vec<LinkRow>
        ensures links { result.items ≡ rows_of self }
        ensures sound { AreLinkRows self }
    {
        self.rows
    }

    // The links and the windows of each.
    #[tactic(auto, using(crate::proofs::WindowsFacts::parts))]
    pub(crate) fn into_parts(self) -> RowParts<LinkRow>
        ensures links { result.rows.items ≡ rows_of self }
        ensures windows { result.windows.items ≡ windows_of self }
        ensures sound { AreLinkRows self }
    {
        RowParts {
            rows: self.rows,
            windows: self.windows,
        }
    }

    // Whether a link has an identifier.
    pub(crate) fn contains(&self, id: u64) -> bool
        ensures { result ≡ is_some (place_of (link_ids (rows_of self.now)) id) }
    {
        self.ids.place(id).is_some()
    }

    // Adds a link with a new identifier and numbers in range, and its windows, as the last one.
    #[tactic(auto, using(crate::proofs::WindowsFacts::parts))]
    pub(crate) fn push(&mut self, link: WithWindows<LinkRow>) -> Result<(), AllocError>
        requires room { length self.old < MOST_LINKS }
        requires next { IsNextLink self.old link }
        ensures { OnOk result (self.new ≡ self.old ++ link ∷ []) }
    {
        self.rows.reserve(1)?;
        self.windows.reserve(1)?;
        self.ids.add(link.row.id)?;
        self.rows.push(link.row)?;
        self.windows.push(link.windows)?;
        Ok(())
    }
}
