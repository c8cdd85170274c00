// The rows of a table of link times against those of a loading.
ghost use Rattle.std.specs.Prelude.{◌≡◌, ◌*◌, ◌/◌, ◌%◌, ◌<◌, ◌^◌, length};
ghost use Rattle.dta_model.specs.LinkTimes.{bucket_count};
ghost use Rattle.audit.specs.Audit.{all_time_checks, time_checks};
ghost use Rattle.audit.specs.Checks.{IsVerdict};

use crate::verdict::Verdict;
use desk_io::Table;
use link_times::LinkTimes;
use net_core::LinkNo;
use row_reader::Column;
use skims::TimeRow;

// The link and the bucket of a row, where each link has so many buckets.
fn link_and_bucket(links: u32, buckets: u32, r: usize) -> (LinkNo, u32)
    requires { r < links * buckets }
    ensures link { result.0.0 ≡ r / buckets }
    ensures bucket { result.1 ≡ r % buckets }
    ensures within { (result.0.0 < links) × (result.1 < buckets) }
{
    let buckets = buckets as usize;
    (LinkNo((r / buckets) as u32), (r % buckets) as u32)
}

// The verdict of a row, where there are so many links.
fn time_verdict(times: &LinkTimes, links: u32, r: usize, row: &TimeRow) -> Verdict
    requires links { links ≡ length times.now.free }
    requires place { r < links * bucket_count times.now }
    requires room { r < 2 ^ 63 }
    ensures { IsVerdict (time_checks times.now (r, row.now)) result }
{
    let line = r as u64 + 2;
    let (link, bucket) = link_and_bucket(links, times.buckets(), r);
    let first = u64::from(bucket) * u64::from(times.bucket_steps());
    Verdict::of(
        row.entered == times.entered(link, bucket),
        Table::Times,
        line,
        Column::Entered,
    )
    .then(Verdict::of(
        row.travel == times.at(link, first),
        Table::Times,
        line,
        Column::TravelSteps,
    ))
}

/// The verdict of the rows of a table of link times against these times of so many links.
#[tactic(auto, unfolding(crate::specs::Audit::all_time_checks))]
pub(crate) fn check_times(times: &LinkTimes, links: u32, rows: &[TimeRow]) -> Verdict
    requires links { links ≡ length times.now.free }
    requires rows { length rows.now ≡ links * bucket_count times.now }
    ensures { IsVerdict (all_time_checks times.now rows.now) result }
{
    for r in 0..rows.len() {
        let verdict = time_verdict(times, links, r, &rows[r]);
        match verdict {
            Verdict::Yes => {}
            Verdict::No { .. } => return verdict,
        }
    }
    Verdict::Yes
}
