// Numbers by link and bucket, one bucket of a link after the other.
ghost use Rattle.std.specs.Prelude.{◌≡◌, slice_index};
ghost use Rattle.dta_model.specs.LinkTimes.{place_in};

use net_core::LinkNo;

/// The number of a bucket of a link, where each link has so many buckets, and 0 past the last.
pub fn number_at(numbers: &[u32], buckets: u32, link: LinkNo, bucket: u32) -> u32
    ensures { result ≡ slice_index numbers.now (place_in buckets link.0 bucket) }
{
    let place = link.0 as usize * buckets as usize + bucket as usize;
    numbers.get(place).copied().unwrap_or(0)
}
