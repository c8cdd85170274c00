// What a close gives, and its refusal.
ghost use Rattle.std.specs.Prelude.{◌≡◌};

/// The receipt of a loading that was finished. Only a close makes one.
#[derive(Debug, Drop)]
pub struct Receipt {
    pub(crate) units: u64,
    pub(crate) passes: u32,
    pub(crate) vehicles: u32,
}

impl Receipt {
    /// How many units were performed.
    pub fn units(&self) -> u64
        ensures { result ≡ self.now.units }
    {
        self.units
    }

    /// How many passes there were, the first one included.
    pub fn passes(&self) -> u32
        ensures { result ≡ self.now.passes }
    {
        self.passes
    }

    /// How many vehicles the loading has.
    pub fn vehicles(&self) -> u32
        ensures { result ≡ self.now.vehicles }
    {
        self.vehicles
    }
}

/// A close comes too early: so many units are finished.
#[derive(Clone, Copy, Debug, PartialEq, Eq, Drop)]
pub struct Early {
    pub finished: u64,
}
