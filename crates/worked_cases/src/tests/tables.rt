// The tables of the largest demonstration, read back.
use demand::read_demand;
use fixed_units::{LengthUnit, SpeedUnit, Units};
use gmns_tables::read_net;
use grid_maker::{MOST_SIDE, Texts, grid};
use std::alloc::Global;

pub(super) const UNITS: Units = Units {
    delta: 6,
    jam: 125,
    length: LengthUnit::Metre,
    speed: SpeedUnit::Kmh,
};

// Whether the node and the link table tell the network of the grid.
fn have_a_network(alloc: Global, texts: &Texts) -> bool {
    match read_net(
        alloc,
        texts.node.as_slice(),
        texts.link.as_slice(),
        None,
        &UNITS,
    ) {
        Ok(net) => net.node_count() == 3_600 && net.link_count() == 14_160 && net.zone_count() == 4,
        Err(_) => false,
    }
}

// Whether the demand table has the trips between the corners.
fn have_a_demand(alloc: Global, texts: &Texts) -> bool {
    match read_demand(alloc, texts.demand.as_slice(), 600) {
        Ok(cells) => cells.len() == 12 && cells.iter().all(|cell| cell.volume == 1_500_000),
        Err(_) => false,
    }
}

#[test]
fn the_largest_grid_reads_back(rt: HostRuntime) {
    let texts = grid(rt.alloc(), MOST_SIDE).expect(&rt, "texts");
    assert!(rt; have_a_network(rt.alloc(), &texts) && have_a_demand(rt.alloc(), &texts));
}
