// Links and turns by their nodes.
ghost use Rattle.std.specs.Prelude.{◌≡◌, ◌<◌, ◌≤◌, length, All, IfOk};
ghost use Rattle.net_core.specs.AreListed.{AreListed};
ghost use Rattle.std.specs.List.{IsDistinct};
ghost use Rattle.net_core.specs.ByNode.{AreNamed, all_links, end_of, start_of, node_of};
ghost use Rattle.net_core.specs.Ids.{pair_eq};
ghost use Rattle.net_core.specs.Rows.{IsBetween, IsTurning, link_in, turn_pairs};

use crate::ids::Pairs;
use crate::lists::ListsByNumber;
use crate::rows::{LinkNo, LinkRow, MOST_LINKS, NodeRow, TurnRow};
use std::alloc::{AllocError, Global};

/// The links into and out of each node, in the order of their table.
#[derive(Drop)]
pub(crate) struct LinkLists {
    pub(crate) ins: ListsByNumber<LinkNo>,
    pub(crate) outs: ListsByNumber<LinkNo>,
}

/// The links by their nodes.
pub(crate) fn link_lists(
    alloc: Global,
    nodes: &[NodeRow],
    links: &[LinkRow],
) -> Result<LinkLists, AllocError>
    requires few { length links.now ≤ MOST_LINKS }
    requires between { All (IsBetween nodes.now) links.now }
    ensures ins { IfOk result (λ lists.
        AreListed lists.ins (length nodes.now) (end_of links.now) (all_links links.now)) }
    ensures outs { IfOk result (λ lists.
        AreListed lists.outs (length nodes.now) (start_of links.now) (all_links links.now)) }
{
    let mut ins = ListsByNumber::new(alloc, nodes.len())?;
    let mut outs = ListsByNumber::new(alloc, nodes.len())?;
    for place in 0..links.len() {
        let link = LinkNo(place as u32);
        let ends = row(links, link);
        ins.push(ends.to.0 as usize, link)?;
        outs.push(ends.from.0 as usize, link)?;
    }
    Ok(LinkLists { ins, outs })
}

/// Whether some turn is listed at each node.
pub(crate) fn named_nodes(
    alloc: Global,
    nodes: &[NodeRow],
    links: &[LinkRow],
    turns: &[TurnRow],
) -> Result<Vec<bool>, AllocError>
    requires between { All (IsBetween nodes.now) links.now }
    requires turning { All (IsTurning links.now) turns.now }
    ensures { IfOk result (λ named.
        AreNamed named.items (length nodes.now) (node_of links.now) turns.now) }
{
    let mut named = vec![in alloc; false; nodes.len()]?;
    for turn in turns {
        named[row(links, turn.a).to.0 as usize] = true;
    }
    Ok(named)
}

/// The links from and to which the listed turns are, in the order of their table.
pub(crate) fn pairs_of(alloc: Global, turns: &[TurnRow]) -> Result<Pairs, AllocError>
    requires { IsDistinct pair_eq (turn_pairs turns.now) }
    ensures { IfOk result (λ pairs. pairs ≡ turn_pairs turns.now) }
{
    let mut pairs = Pairs::new(alloc);
    for turn in turns {
        pairs.add(turn.a.0, turn.b.0)?;
    }
    Ok(pairs)
}

/// The row of a link.
#[tactic(auto, unfolding(crate::specs::Rows::link_in))]
pub(crate) fn row(links: &[LinkRow], link: LinkNo) -> LinkRow
    requires { link.0 < length links.now }
    ensures { result ≡ link_in links.now link.0 }
{
    links[link.0 as usize]
}
