// What a line of a link and a bucket is made from.
ghost use Rattle.std.specs.Prelude.{◌≡◌, ◌<◌, ◌+◌, ◌*◌, length, min};
ghost use Rattle.net_core.specs.Network.{link_at};

use net_core::{LinkNo, LinkRow, Net};

/// The row of a link.
#[tactic(auto, using(crate::proofs::TextsFacts::rows))]
pub(crate) fn link_row(net: &Net, link: LinkNo) -> LinkRow
    requires { link.0 < length net.now.links }
    ensures { result ≡ link_at net.now link.0 }
{
    net.link(link)
}

/// The first step of a bucket.
pub(crate) fn first_step(bucket: u32, bucket_steps: u32) -> u64
    ensures { result ≡ bucket * bucket_steps }
{
    u64::from(bucket) * u64::from(bucket_steps)
}

/// The step after the last one of a bucket, or the horizon if that is earlier.
pub(crate) fn step_after(bucket: u32, bucket_steps: u32, horizon: u32) -> u64
    ensures { result ≡ min ((bucket + 1) * bucket_steps) horizon }
{
    let end = (u64::from(bucket) + 1) * u64::from(bucket_steps);
    end.min(u64::from(horizon))
}
