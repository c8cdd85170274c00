// Numbers that stand for no walk.

/// What stands for no walk in 64 bits.
pub(crate) const FAR: u64 = 4_611_686_018_427_387_904;

/// What stands for no walk in 32 bits.
pub const NARROW_FAR: u32 = 2_147_483_648;

/// What stands for no walk in 16 bits.
pub(crate) const SHORT_FAR: u64 = 32_768;
