// What workers pass before each unit of their work, and what takes the receipts of loadings.
ghost use Rattle.std.specs.Prelude.{◌≡◌, Option, ℕ};
ghost use Rattle.loader.specs.Gates.{Numbers, numbers_of, one_more, told_as};

use phase_claims::Receipt;

/// A gate that a caller holds in the way of workers: a test can hold them there. What it took is
/// told or not told.
pub trait Gate {
    /// How many receipts it took. It stands still at the last value of a counter.
    ghost closes: { Self → Option ℕ };

    /// The numbers of the receipt that it took last.
    ghost last: { Self → Option Numbers };

    /// Called by a worker once a unit is open, before its work. It promises nothing and changes
    /// nothing.
    fn at(&self, worker: u32, unit: u64);

    /// Takes the receipt of a loading that was finished.
    fn closed(&mut self, receipt: Receipt)
        ensures closes { closes self.new ≡ one_more (closes self.old) }
        ensures last { last self.new ≡ told_as (numbers_of receipt) (last self.old) };
}

/// The open gate: its calls do nothing, and it tells nothing.
#[derive(Clone, Copy, Debug)]
pub struct NoGate;

impl Gate for NoGate {
    ghost use Rattle.std.specs.Prelude.{None};

    ghost closes = { λ _. None };

    ghost last = { λ _. None };

    fn at(&self, _worker: u32, _unit: u64) {}

    fn closed(&mut self, _receipt: Receipt) {}
}

/// A gate that holds nobody, counts the receipts and keeps the numbers of the last one.
#[derive(Clone, Copy, Debug, PartialEq, Eq)]
pub struct CountGate {
    pub closes: u64,
    pub units: u64,
    pub passes: u32,
    pub vehicles: u32,
}

impl CountGate {
    /// A gate that took no receipt: all its numbers are 0.
    pub fn new() -> Self
        ensures { result ≡ record { closes = 0; units = 0; passes = 0; vehicles = 0 } }
    {
        CountGate {
            closes: 0,
            units: 0,
            passes: 0,
            vehicles: 0,
        }
    }
}

impl Default for CountGate {
    fn default() -> Self {
        CountGate::new()
    }
}

impl Gate for CountGate {
    ghost use Rattle.loader.specs.CountGates.{closes_told, last_told};

    ghost closes = { closes_told };

    ghost last = { last_told };

    fn at(&self, _worker: u32, _unit: u64) {}

    fn closed(&mut self, receipt: Receipt) {
        self.closes = self.closes.saturating_add(1);
        self.units = receipt.units();
        self.passes = receipt.passes();
        self.vehicles = receipt.vehicles();
    }
}
