// The times of a table once more, bucket by bucket.
ghost use Rattle.std.specs.Prelude.{◌≡◌, ◌+◌, ◌*◌, ◌<◌, length, slice_get, IfOk, OnOk};
ghost use Rattle.link_times.specs.Rows.{times_in, AreRows, AreRowsTo};

use net_core::Memory;
use std::alloc::Global;

/// The times of all links in a bucket after those of the bucket before, where there are several
/// buckets. Who asks for one link after another in the same steps finds them side by side.
#[derive(Drop)]
pub enum Rows {
    NoRows,
    ByBucket(Vec<u32>),
}

impl Rows {
    /// The time at a place, where there is one.
    pub fn get(&self, place: usize) -> Option<u32>
        ensures { result ≡ slice_get (times_in self.now) place }
    {
        match self {
            Rows::NoRows => None,
            Rows::ByBucket(times) => times.get(place).copied(),
        }
    }
}

// Adds the times of all links in a bucket.
fn add_row(
    rows: &mut Vec<u32>,
    links: usize,
    buckets: u32,
    times: &[u32],
    bucket: u32,
) -> Result<(), Memory>
    requires size { length times.now ≡ links * buckets }
    requires bucket { bucket < buckets }
    requires before { AreRowsTo links buckets times.now rows.old.items (bucket * links) }
    ensures { OnOk result
        (AreRowsTo links buckets times.now rows.new.items ((bucket + 1) * links)) }
{
    for link in 0..links {
        rows.push(times[link * buckets as usize + bucket as usize])?;
    }
    Ok(())
}

/// The rows of times that stand link by link.
pub fn rows_of(alloc: Global, links: usize, buckets: u32, times: &[u32]) -> Result<Rows, Memory>
    requires { length times.now ≡ links * buckets }
    ensures { IfOk result (λ rows. AreRows links buckets times.now (times_in rows)) }
{
    if buckets == 1 {
        return Ok(Rows::NoRows);
    }
    let mut rows = Vec::with_capacity(alloc, times.len())?;
    for bucket in 0..buckets {
        add_row(&mut rows, links, buckets, times, bucket)?;
    }
    Ok(Rows::ByBucket(rows))
}
