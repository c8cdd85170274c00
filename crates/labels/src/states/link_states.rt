// The states in which links end.
ghost use Rattle.std.specs.Prelude.{◌≡◌, ◌<◌, ◌≤◌, ◌++◌, ◌∷◌, [], length, replicate, IfOk, OnOk};
ghost use Rattle.net_core.specs.Network.{link_at, IsNet};
ghost use Rattle.labels.specs.States.Onwards.{AreStates};
ghost use Rattle.labels.specs.States.LinkStates.{AreAtNodes, IsLed, Grows};

use net_core::{LinkNo, Memory, Net, NodeNo};
use std::alloc::Global;

/// The state of each link, and for each state the link that leads it. Links that end at a node
/// where no turn is listed share a state.
#[derive(Drop)]
pub(crate) struct States {
    pub(crate) of: Vec<u32>,
    pub(crate) leads: Vec<u32>,
}

// Stands for no state.
const NO_STATE: u32 = 4_294_967_295;

// The links that lead states so far, and the state of each node that has one for all its links.
#[derive(Drop)]
struct Leads {
    links: Vec<u32>,
    at_node: Vec<u32>,
}

impl Leads {
    // No state yet, for so many nodes.
    fn new(alloc: Global, nodes: u32) -> Result<Self, Memory>
        ensures { IfOk result (λ leads. (leads.links.items ≡ [])
            × (leads.at_node.items ≡ replicate nodes NO_STATE)) }
    {
        let at_node = Vec::from_elem(alloc, NO_STATE, nodes as usize)?;
        Ok(Leads {
            links: Vec::new(alloc),
            at_node,
        })
    }

    // One more state.
    fn push(&mut self, link: LinkNo) -> Result<u32, Memory>
        requires { length self.old.links.items < NO_STATE }
        ensures state { IfOk result (λ state. state ≡ length self.old.links.items) }
        ensures grown { OnOk result (self.new.links.items ≡ self.old.links.items ++ link.0 ∷ []) }
        ensures nodes { self.new.at_node ≡ self.old.at_node }
    {
        let state = self.links.len() as u32;
        self.links.push(link.0)?;
        Ok(state)
    }

    // The state in which a link ends, which is a new one where none serves.
    #[tactic(auto, using(crate::proofs::OfStates::StateFacts::one_more_state))]
    fn state_for(&mut self, net: &Net, link: LinkNo) -> Result<u32, Memory>
        requires net { IsNet net.now }
        requires link { link.0 < length net.now.links }
        requires short { link.0 < NO_STATE }
        requires few { length self.old.links.items ≤ link.0 }
        requires nodes { AreAtNodes net.now self.old.links.items self.old.at_node.items }
        ensures led { IfOk result (λ state. IsLed net.now self.new.links.items link.0 state) }
        ensures grown { OnOk result (Grows self.old.links.items link.0 self.new.links.items) }
        ensures nodes { OnOk result (AreAtNodes net.now self.new.links.items
            self.new.at_node.items) }
    {
        let node = end_of(net, link);
        if net.is_named(node) {
            return self.push(link);
        }
        let known = self.at_node[node.0 as usize];
        if known != NO_STATE {
            return Ok(known);
        }
        let state = self.push(link)?;
        self.at_node[node.0 as usize] = state;
        Ok(state)
    }
}

/// The node at which a link ends.
#[tactic(auto, unfolding(net_core::specs::Rows::link_in))]
pub(crate) fn end_of(net: &Net, link: LinkNo) -> NodeNo
    requires net { IsNet net.now }
    requires link { link.0 < length net.now.links }
    ensures is { result ≡ (link_at net.now link.0).to }
    ensures within { result.0 < length net.now.nodes }
{
    net.link(link).to
}

/// A state for each node where no turn is listed, and one for each link that ends at another.
#[tactic(auto, using(crate::proofs::OfStates::StateFacts::link_by_link))]
pub(crate) fn states_of(alloc: Global, net: &Net) -> Result<States, Memory>
    ensures are { IfOk result (λ states. AreStates net.now states.of.items states.leads.items) }
    ensures net { IsNet net.now }
{
    let mut of = Vec::new(alloc);
    let mut leads = Leads::new(alloc, net.node_count())?;
    for link in 0..net.link_count() {
        of.push(leads.state_for(net, LinkNo(link))?)?;
    }
    Ok(States {
        of,
        leads: leads.links,
    })
}
