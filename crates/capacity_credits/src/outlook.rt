// How a meter keeps rates.
ghost use Rattle.std.specs.Prelude.{◌≡◌, ◌≤◌, ℕ, false, IfOk};
ghost use Rattle.std.specs.Option.{is_none};
ghost use Rattle.capacity_credits.specs.Outlooks.{IsInRange, IsOutlook, rates_of, unlimited_of};
ghost use Rattle.dta_model.specs.Allowance.{allowance};
ghost use Rattle.net_core.specs.Rates.{AreRates, rate_in, steady as always};

use crate::Credit;
use crate::course::{Course, grant_after};
use fixed_units::MOST_STEP;
use net_core::{Memory, Rates};
use std::alloc::Global;

/// Rates: one limit for all steps, or none, or a course. Where a step may have no limit it is
/// noted beside whether the one that is open has none. Only a course takes memory.
#[derive(Drop)]
pub(crate) enum Outlook {
    Limit(u64),
    NoLimit {
        unlimited: bool,
    },
    Course {
        unlimited: bool,
        course: Box<Course>,
    },
}

impl Outlook {
    /// Rates in steps of so many seconds.
    pub(crate) fn of(alloc: Global, rates: Rates, delta: u32) -> Result<Self, Memory>
        requires rates { AreRates rates }
        requires step { delta ≤ MOST_STEP }
        ensures range { IfOk result (λ outlook. IsOutlook delta outlook) }
        ensures rates { IfOk result (λ outlook. rates_of outlook ≡ rates) }
        ensures limited { IfOk result (λ outlook. unlimited_of outlook ≡ false) }
    {
        if rates.windows.as_slice().is_empty() {
            return Ok(steady(rates.usual));
        }
        let course = Course::of(alloc, rates, delta)?;
        Ok(Outlook::Course {
            unlimited: false,
            course: Box::new(alloc, course)?,
        })
    }

    /// Whether the open step has no limit.
    pub(crate) fn is_unlimited(&self) -> bool
        ensures { result ≡ unlimited_of self.now }
    {
        match self {
            Outlook::Limit(_) => false,
            Outlook::NoLimit { unlimited } => *unlimited,
            Outlook::Course { unlimited, .. } => *unlimited,
        }
    }

    /// The allowance of a step, which is told without those of the steps before.
    pub(crate) fn allowance(&self, delta: u32, step: u32) -> u32
        requires range { IsOutlook delta self.now }
        requires delta { delta ≤ MOST_STEP }
        ensures { result ≡ allowance (rates_of self.now) delta step }
    {
        match self {
            Outlook::Limit(rate) => grant_after(Credit::new(), *rate, delta, step),
            Outlook::NoLimit { .. } => 0,
            Outlook::Course { course, .. } => course.allowance(delta, step),
        }
    }

    /// Opens a step, which may have no limit.
    pub(crate) fn open(&mut self, step: u32)
        requires range { (delta : ℕ) × IsOutlook delta self.old }
        ensures rates { rates_of self.new ≡ rates_of self.old }
        ensures kept { (delta : ℕ) → IsOutlook delta self.old → IsOutlook delta self.new }
        ensures unlimited { unlimited_of self.new ≡ is_none (rate_in (rates_of self.old) step) }
    {
        match self {
            Outlook::Limit(_) => {}
            Outlook::NoLimit { unlimited } => *unlimited = true,
            Outlook::Course { unlimited, course } => *unlimited = course.is_unlimited(step),
        }
    }

    /// The step is over.
    pub(crate) fn close(&mut self)
        ensures rates { rates_of self.new ≡ rates_of self.old }
        ensures kept { (delta : ℕ) → IsOutlook delta self.old → IsOutlook delta self.new }
        ensures limited { unlimited_of self.new ≡ false }
    {
        match self {
            Outlook::Limit(_) => {}
            Outlook::NoLimit { unlimited } => *unlimited = false,
            Outlook::Course { unlimited, .. } => *unlimited = false,
        }
    }
}

// One rate for all steps.
fn steady(rate: Option<u64>) -> Outlook
    requires { IsInRange rate }
    ensures range { (delta : ℕ) → IsOutlook delta result }
    ensures rates { rates_of result ≡ always rate }
    ensures limited { unlimited_of result ≡ false }
{
    match rate {
        Some(rate) => Outlook::Limit(rate),
        None => Outlook::NoLimit { unlimited: false },
    }
}
