// What the rows of a times table have to tell of their links and buckets.
ghost use Rattle.std.specs.Prelude.{◌≡◌, ◌≤◌, ◌<◌, ◌*◌, length, slice_get, Some, IfSome, IsTrue};
ghost use Rattle.dta_model.specs.LinkTimes.{buckets_to};
ghost use Rattle.skims.specs.TimesTable.{has_link, row_count, wanted_after, wanted_in};

use net_core::{LinkRow, Net};

/// What a row has to tell: the identifier of its link, the first step of its bucket, the step
/// after the last one, and the link's free-flow steps.
#[derive(Clone, Copy)]
pub(crate) struct Wanted {
    pub link: u64,
    pub from: u64,
    pub to: u64,
    pub free: u64,
}

// How many buckets there are up to a horizon.
fn bucket_count(bucket: u32, horizon: u32) -> u32
    requires bucket { 1 ≤ bucket }
    requires horizon { 1 ≤ horizon }
    ensures is { result ≡ buckets_to bucket horizon }
    ensures some { 1 ≤ result }
{
    horizon.div_ceil(bucket)
}

// What the row of a bucket of a link has to tell.
fn of_bucket(link: LinkRow, number: u32, bucket: u32, horizon: u32) -> Wanted
    ensures { result ≡ wanted_in bucket horizon number link }
{
    let end = (u64::from(number) + 1) * u64::from(bucket);
    Wanted {
        link: link.id,
        from: u64::from(number) * u64::from(bucket),
        to: end.min(u64::from(horizon)),
        free: u64::from(link.free),
    }
}

/// How many rows there are: one for each bucket of each link.
pub(crate) fn rows_wanted(net: &Net, bucket: u32, horizon: u32) -> u64
    requires bucket { 1 ≤ bucket }
    requires horizon { 1 ≤ horizon }
    ensures { result ≡ row_count net.now bucket horizon }
{
    u64::from(net.link_count()) * u64::from(bucket_count(bucket, horizon))
}

/// What the row after so many others has to tell. None past the last bucket of the last link.
pub(crate) fn after_rows(net: &Net, bucket: u32, horizon: u32, rows: usize) -> Option<Wanted>
    requires bucket { 1 ≤ bucket }
    requires horizon { 1 ≤ horizon }
    ensures row { result ≡ wanted_after net.now bucket horizon rows }
    ensures link { IfSome result (λ wanted. IsTrue (has_link net.now.links wanted.link)) }
{
    let buckets = bucket_count(bucket, horizon) as usize;
    match net.links().get(rows / buckets) {
        Some(link) => Some(of_bucket(*link, (rows % buckets) as u32, bucket, horizon)),
        None => None,
    }
}
