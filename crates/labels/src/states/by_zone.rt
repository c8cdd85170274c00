// Numbers listed by zones: links by where they begin, vehicles by where they go.
ghost use Rattle.std.specs.Prelude.{◌≡◌, ◌≢◌, ◌+◌, ◌<◌, ◌++◌, ◌∷◌, ℕ, List, [], length, replicate};
ghost use Rattle.std.specs.Prelude.{set, get_or, IfOk, OnOk};
ghost use Rattle.net_core.specs.AreListed.{AreListed};
ghost use Rattle.net_core.specs.Network.{link_at, IsNet, numbers_below, zones};
ghost use Rattle.labels.specs.States.Onwards.{begin_zone};

use crate::states::zone_numbers::{NO_ZONE, or_none};
use net_core::{LinkNo, Memory, Net, NodeNo};
use std::alloc::Global;
use std::marker::Model;

/// The numbers of links or vehicles that are listed for each zone, in order.
#[derive(Drop)]
pub struct ByZone {
    lists: Vec<Vec<u32>>,
}

impl Model for ByZone {
    ghost use Rattle.std.specs.Prelude.{ℕ, List, map};

    ghost Value = { List (List ℕ) };

    ghost view = { λ f. map (λ list. list.items) f.lists.items };
}

impl ByZone {
    /// So many zones without numbers.
    pub fn new(alloc: Global, count: u32) -> Result<Self, Memory>
        ensures { IfOk result (λ firsts. firsts ≡ replicate count []) }
    {
        let mut lists = Vec::new(alloc);
        for _ in 0..count {
            lists.push(Vec::new(alloc))?;
        }
        Ok(ByZone { lists })
    }

    /// The numbers that are listed for a zone.
    pub fn get(&self, zone: u32) -> &[u32]
        requires { zone < length self.now }
        ensures { get_or self.now zone [] ≡ result.now }
    {
        &self.lists[zone as usize]
    }

    // Adds a number at the end of the list of a zone.
    #[tactic(auto, using(net_core::proofs::ListsFacts::pushed))]
    fn push(&mut self, zone: u32, link: u32) -> Result<(), Memory>
        requires { zone < length self.old }
        ensures { OnOk result (self.new ≡ set self.old zone
            (get_or self.old zone [] ++ link ∷ [])) }
    {
        self.lists[zone as usize].push(link)?;
        Ok(())
    }

    /// Lists a number for a zone, where there is one.
    pub fn note(&mut self, zone: u32, link: u32) -> Result<(), Memory>
        requires zone { zone ≢ NO_ZONE → zone < length self.old }
        requires short { length self.old < NO_ZONE }
        ensures { OnOk result ((number : ℕ → ℕ) (items : List ℕ) → number link ≡ zone
            → AreListed self.old (length self.old) number items
            → AreListed self.new (length self.old) number (items ++ link ∷ [])) }
    {
        if zone == NO_ZONE {
            Ok(())
        } else {
            self.push(zone, link)?;
            Ok(())
        }
    }
}

// The node at which a link begins.
#[tactic(auto, unfolding(net_core::specs::Rows::link_in))]
fn begin_of(net: &Net, link: LinkNo) -> NodeNo
    requires net { IsNet net.now }
    requires link { link.0 < length net.now.links }
    ensures is { result ≡ (link_at net.now link.0).from }
    ensures within { result.0 < length net.now.nodes }
{
    net.link(link).from
}

// The number of the zone in which a link begins, or the one that stands for none.
fn zone_of_begin(net: &Net, link: LinkNo) -> u32
    requires net { IsNet net.now }
    requires link { link.0 < length net.now.links }
    ensures is { result ≡ begin_zone net.now link.0 }
    ensures within { result ≢ NO_ZONE → result < length (zones net.now.nodes) }
{
    or_none(net.zone_of(begin_of(net, link)))
}

/// The links that begin in each zone of a network.
#[tactic(auto, using(crate::proofs::OfStates::ByZoneFacts::listed_more))]
pub(crate) fn links_by_zone(alloc: Global, net: &Net) -> Result<ByZone, Memory>
    ensures { IfOk result (λ firsts. AreListed firsts (length (zones net.now.nodes))
        (begin_zone net.now) (numbers_below (length net.now.links))) }
{
    let links = net.link_count();
    let mut firsts = ByZone::new(alloc, net.zone_count())?;
    for link in 0..links {
        firsts.note(zone_of_begin(net, LinkNo(link)), link)?;
    }
    Ok(firsts)
}
