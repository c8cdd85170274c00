// A first link with its time.
ghost use Rattle.std.specs.Prelude.{◌+◌, ◌<◌, ◌^◌};

/// A first link, and the time over it from a step on.
#[derive(Clone, Copy, Drop)]
pub(crate) struct First {
    pub(crate) link: u32,
    pub(crate) time: u64,
    ghost low: { time < 2 ^ 62 + 2 ^ 40 },
}
