// Cases that are written out.
use crate::{Seen, are_seen, journeys};
use std::test::Fail;

#[test]
fn journeys_that_are_written_out(rt: HostRuntime) -> Result<(), Fail> {
    let seen = [Seen(&[5, 15], Some(25)), Seen(&[25], None)];
    let loaded = journeys(rt.alloc(), &seen)?;
    assert!(rt; are_seen(&loaded, &seen));
    Ok(())
}
