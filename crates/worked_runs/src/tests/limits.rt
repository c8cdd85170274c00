// What is at its limits: links and steps, a table's bytes, and a table that ends anywhere.
use crate::tests::{LINKS, desk_of, has_taken, run_over};
use desk_io::Output;
use dta_run::{Status, sizes};
use std::sync::Wait;
use std::test::Fail;
use std::thread::Threads;

#[test]
fn sizes_at_the_limit(rt: HostRuntime) {
    for (links, horizon, fits) in [
        (65_536, 1_024, true),
        (65_537, 1_024, false),
        (65_536, 1_025, false),
        (41_605, 1_613, false),
        (776, 86_400, true),
        (777, 86_400, false),
    ] {
        assert!(rt;
            sizes(links, horizon).is_ok() == fits,
            "{links} links, {horizon} steps"
        );
    }
}

#[test]
fn a_table_too_long(rt: HostRuntime) -> Result<(), Fail> {
    let node = vec![in rt.alloc(); b'1'; 268_435_457]?;
    let mut desk = desk_of(rt.alloc(), node.as_slice(), LINKS, b"")?;
    assert!(rt; run_over(&rt, "freeflow", &mut desk)? == Status::Size);
    assert!(rt; has_taken(&desk, Output::Report, b"size: table node limit 268435456\n"));
    Ok(())
}

const TWO_NODES: &[u8] = b"node_id\n1\n2\n";

// Quoted fields, further columns, empty optional fields, and numbers in several forms.
const LENIENT_LINKS: &[u8] =
    b"name,link_id,from_node_id,to_node_id,length,lanes,free_speed,geometry\n\
\"Mill, North\",7,1,2.0,1000.49,,60,\"LINESTRING (0 0, 1 0)\"\nMill,8.0,2,1,1.0e3,1.0,60.0,\n";

// Whether two runs over a link table end alike, done or refused.
fn ends_twice_alike<R: AllocGlobal + Threads + Wait + Sync>(
    rt: &R,
    link: &[u8],
) -> Result<bool, Fail> {
    let mut first = desk_of(rt.alloc(), TWO_NODES, link, b"")?;
    let mut second = desk_of(rt.alloc(), TWO_NODES, link, b"")?;
    let status = run_over(rt, "freeflow", &mut first)?;
    let again = run_over(rt, "freeflow", &mut second)?;
    Ok(
        (status == Status::Done || status == Status::Table)
            && again == status
            && has_taken(&first, Output::LinkTime, second.taken(Output::LinkTime))
            && has_taken(&first, Output::Report, second.taken(Output::Report)),
    )
}

#[test]
fn a_link_table_cut_short(rt: HostRuntime) -> Result<(), Fail> {
    for count in 0..LENIENT_LINKS.len() {
        assert!(rt;
            ends_twice_alike(&rt, &LENIENT_LINKS[..count])?,
            "cut after {count}"
        );
    }
    Ok(())
}
