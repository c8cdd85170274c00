// Rates with windows.
ghost use Rattle.std.specs.Prelude.{◌≡◌, ◌<◌, ◌≤◌, ◌+◌, ℕ, IfOk, IfSome, length, slice_get};
ghost use Rattle.std.specs.Option.{is_none};
ghost use Rattle.capacity_credits.specs.Course.{IsCourse, IsLatest};
ghost use Rattle.capacity_credits.specs.Grants.{IsRateFor, StandsAfter};
ghost use Rattle.dta_model.specs.Allowance.{allowance, credited};
ghost use Rattle.net_core.specs.Rates.{AreRates, rate_in};
ghost use Rattle.net_core.specs.declared.rates.Rates.{Rates};

use crate::Credit;
use fixed_units::{MOST_RATE, MOST_STEP};
use net_core::{Memory, Rates, Window};
use std::alloc::Global;

/// Rates with windows, and the credit with which each window begins.
#[derive(Drop)]
pub(crate) struct Course {
    rates: Rates,
    credits: Vec<Credit>,
}

impl Course {
    /// Rates with windows, in steps of so many seconds.
    pub(crate) fn of(alloc: Global, rates: Rates, delta: u32) -> Result<Self, Memory>
        requires rates { AreRates rates }
        requires some { 0 < length rates.windows }
        requires step { delta ≤ MOST_STEP }
        ensures rates { IfOk result (λ c. c.rates ≡ rates) }
        ensures course { IfOk result (λ c. IsCourse c.rates delta c.credits.items) }
    {
        let mut credits = Vec::new(alloc);
        let mut credit = Credit::new();
        let mut last = Window {
            from: 0,
            rate: None,
        };
        for window in rates.windows.as_slice() {
            credit.skip(credited_of(last.rate), delta, window.from - last.from);
            credits.push(credit)?;
            last = *window;
        }
        Ok(Course { rates, credits })
    }

    /// The allowance of a step. It is told without the steps before its window.
    #[cold]
    pub(crate) fn allowance(&self, delta: u32, step: u32) -> u32
        requires step { delta ≤ MOST_STEP }
        requires course { IsCourse self.now.rates delta self.now.credits.items }
        ensures { result ≡ allowance self.now.rates delta step }
    {
        let windows = self.rates.windows.as_slice();
        let place = latest(windows, step);
        let window = windows[place];
        let rate = credited_of(window.rate);
        grant_after(self.credits[place], rate, delta, step - window.from)
    }

    /// Whether a step has no limit.
    pub(crate) fn is_unlimited(&self, step: u32) -> bool
        requires { (delta : ℕ) × IsCourse self.now.rates delta self.now.credits.items }
        ensures { result ≡ is_none (rate_in self.now.rates step) }
    {
        let windows = self.rates.windows.as_slice();
        windows[latest(windows, step)].rate.is_none()
    }
}

/// The whole vehicles of the step that comes so many steps after those of a credit, all of one
/// rate.
pub(crate) fn grant_after(mut credit: Credit, rate: u64, delta: u32, steps: u32) -> u32
    requires rate { rate ≤ MOST_RATE }
    requires step { delta ≤ MOST_STEP }
    ensures { (rates : Rates) (grants : ℕ) → IsRateFor rates grants (steps + 1) rate
        → StandsAfter grants rates delta credit → result ≡ allowance rates delta (grants + steps) }
{
    credit.skip(rate, delta, steps);
    credit.grant(rate, delta) as u32
}

// What is credited at a rate: nothing where there is no limit.
fn credited_of(rate: Option<u64>) -> u64
    ensures { result ≡ credited rate }
{
    match rate {
        Some(rate) => rate,
        None => 0,
    }
}

// The place of the last window that has begun by a step. The first one begins with step 0.
fn latest(windows: &[Window], step: u32) -> usize
    requires some { 0 < length windows.now }
    requires first { IfSome (slice_get windows.now 0) (λ w. w.from ≡ 0) }
    ensures { IsLatest windows.now step result }
{
    let mut place = 0;
    while place + 1 < windows.len() && windows[place + 1].from <= step {
        place += 1;
    }
    place
}
