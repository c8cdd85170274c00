// What a network and a loading are made of, as it is written out.
ghost use Rattle.worked_cases.specs.CheckedNet.{is_net};
ghost use Rattle.std.specs.Prelude.{◌≡◌, [], IfOk, map, true};
ghost use Rattle.worked_cases.specs.Written.{way_links};

use dta_model::{Queue, Route, Routes, Trip};
use net_core::{LinkNo, LinkRow, Memory, Net, NodeRow, TurnRow};
use std::alloc::Global;

/// The links that a vehicle takes.
#[derive(Clone, Copy, Drop)]
pub enum Way {
    None,
    Over(u32),
    OverTwo(u32, u32),
}

/// Who travels, over which rows of a network, for how many steps of six seconds, by which kind of
/// queue. Trips and ways are in the order of vehicles.
#[derive(Clone, Copy, Drop)]
pub struct Written<'a> {
    pub nodes: &'a [NodeRow],
    pub links: &'a [LinkRow],
    pub turns: &'a [TurnRow],
    pub queue: Queue,
    pub horizon: u32,
    pub trips: &'a [Trip],
    pub ways: &'a [Way],
}

/// The network of rows that are written out.
pub fn network(
    alloc: Global,
    nodes: &[NodeRow],
    links: &[LinkRow],
    turns: &[TurnRow],
) -> Result<Net, Memory>
    requires { is_net (record {
      nodes = nodes.now;
      links = links.now;
      turns = turns.now;
      link_windows = [];
      turn_windows = [];
    }) ≡ true }
    ensures { IfOk result (λ net. net ≡ record {
      nodes = nodes.now;
      links = links.now;
      turns = turns.now;
      link_windows = [];
      turn_windows = [];
    }) }
{
    let nodes = Vec::from_slice(alloc, nodes)?;
    let links = Vec::from_slice(alloc, links)?;
    let turns = Vec::from_slice(alloc, turns)?;
    Net::of(alloc, nodes, links, turns)
}

/// The routes over these links.
pub(crate) fn routes(alloc: Global, ways: &[Way]) -> Result<Routes, Memory>
    ensures { IfOk result (λ routes. routes ≡ map way_links ways.now) }
{
    let mut routes = Vec::new(alloc);
    for i in 0..ways.len() {
        routes.push(route(alloc, ways[i])?)?;
    }
    Ok(Routes::of(routes))
}

// The route over the links of a way.
fn route(alloc: Global, way: Way) -> Result<Option<Route>, Memory>
    ensures { IfOk result (λ route. route ≡ way_links way) }
{
    match way {
        Way::None => Ok(None),
        Way::Over(link) => Ok(Some(Route::of(vec![in alloc; LinkNo(link)]?))),
        Way::OverTwo(first, second) => {
            Ok(Some(Route::of(vec![in alloc; LinkNo(first), LinkNo(second)]?)))
        }
    }
}
