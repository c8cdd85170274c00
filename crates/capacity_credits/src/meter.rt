// What rates still allow in a step.
ghost use Rattle.std.specs.Prelude.{◌≡◌, ◌≤◌, IfOk};
ghost use Rattle.capacity_credits.specs.Meter.{capped, closed, granted, passed_one, unopened};
ghost use Rattle.net_core.specs.Rates.{AreRates};

use crate::outlook::Outlook;
use fixed_units::MOST_STEP;
use net_core::{Memory, Rates};
use std::alloc::Global;
use std::marker::Model;

/// Rates in steps of some seconds, and what is left of the allowance of the step that is open.
#[derive(Drop)]
pub struct Meter {
    outlook: Outlook,
    delta: u32,
    left: u32,
}

impl Model for Meter {
    ghost use Rattle.capacity_credits.specs.Meter.{MeterState};
    ghost use Rattle.capacity_credits.specs.Outlooks.{IsOutlook, rates_of, unlimited_of};
    ghost use Rattle.fixed_units.specs.declared.link.TheConstants.{MOST_STEP};
    ghost use Rattle.std.specs.Prelude.{◌≤◌};

    ghost Value = { MeterState };

    ghost view = { λ m. record {
      rates = rates_of m.outlook;
      delta = m.delta;
      left = m.left;
      unlimited = unlimited_of m.outlook;
    } };

    ghost invariant = { λ m. (m.delta ≤ MOST_STEP) × IsOutlook m.delta m.outlook };
}

impl Meter {
    /// Rates of which no step is open, in millionths of a vehicle per hour, in steps of `delta`
    /// seconds. It takes memory where there are windows.
    pub fn new(alloc: Global, rates: Rates, delta: u32) -> Result<Self, Memory>
        requires rates { AreRates rates }
        requires step { delta ≤ MOST_STEP }
        ensures { IfOk result (λ meter. meter ≡ unopened delta rates) }
    {
        Ok(Meter {
            outlook: Outlook::of(alloc, rates, delta)?,
            delta,
            left: 0,
        })
    }

    /// The whole vehicles that are left.
    pub fn left(&self) -> u32
        ensures { result ≡ self.now.left }
    {
        self.left
    }

    /// Whether the step has no limit.
    pub fn is_unlimited(&self) -> bool
        ensures { result ≡ self.now.unlimited }
    {
        self.outlook.is_unlimited()
    }

    /// Opens a step: its allowance is granted. Where that has no limit nothing is credited.
    #[inline]
    pub fn open(&mut self, step: u32)
        ensures { self.new ≡ granted step self.old }
    {
        self.left = self.outlook.allowance(self.delta, step);
        self.outlook.open(step);
    }

    /// One vehicle passes.
    pub fn pass(&mut self)
        ensures { self.new ≡ passed_one self.old }
    {
        self.left = self.left.saturating_sub(1);
    }

    /// The step is over.
    pub fn close(&mut self)
        ensures { self.new ≡ closed self.old }
    {
        self.left = 0;
        self.outlook.close();
    }

    /// Allows no more than the room.
    pub fn cap(&mut self, room: u32)
        ensures { self.new ≡ capped room self.old }
    {
        self.left = self.left.min(room);
    }
}
