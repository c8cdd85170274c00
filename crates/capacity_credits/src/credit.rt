// What is carried from step to step.
ghost use Rattle.std.specs.Prelude.{◌≡◌, ◌+◌, ◌*◌, ◌/◌, ◌%◌, ◌≤◌, ◌<◌, ℕ};
ghost use Rattle.capacity_credits.specs.Grants.{IsRateFor, StandsAfter};
ghost use Rattle.dta_model.specs.Allowance.{allowance, credited};
ghost use Rattle.net_core.specs.Rates.{rate_in};
ghost use Rattle.net_core.specs.declared.rates.Rates.{Rates};

use dta_model::PARTS_OF_A_VEHICLE;
use fixed_units::{MOST_RATE, MOST_STEP};
use std::marker::Model;

/// The parts of a vehicle that are carried to the next step, fewer than one vehicle has.
#[derive(Clone, Copy, Drop)]
pub struct Credit {
    carried: u32,
}

impl Model for Credit {
    ghost use Rattle.dta_model.specs.declared.credit.TheConstants.{PARTS_OF_A_VEHICLE};
    ghost use Rattle.std.specs.Prelude.{ℕ, ◌<◌};

    ghost Value = { ℕ };

    ghost view = { λ c. c.carried };

    ghost inverse = { λ carried. record { carried = carried } };

    ghost invariant = { λ c. c.carried < PARTS_OF_A_VEHICLE };
}

impl Credit {
    /// Nothing is granted yet, and nothing is carried.
    #[tactic(auto, unfolding(dta_model::specs::Allowance::parts))]
    pub fn new() -> Self
        ensures empty { result ≡ 0 }
        ensures stands { (rates : Rates) (delta : ℕ) → StandsAfter 0 rates delta result }
    {
        Credit { carried: 0 }
    }

    /// The whole vehicles of the next step, of `delta` seconds, at the rate that holds in it, in
    /// millionths of a vehicle per hour. What is left over is carried.
    pub fn grant(&mut self, rate: u64, delta: u32) -> u64
        requires rate { rate ≤ MOST_RATE }
        requires step { delta ≤ MOST_STEP }
        ensures whole { result ≡ (self.old + rate * delta) / PARTS_OF_A_VEHICLE }
        ensures carried { self.new ≡ (self.old + rate * delta) % PARTS_OF_A_VEHICLE }
        ensures gives { (rates : Rates) (grants : ℕ) → credited (rate_in rates grants) ≡ rate
            → StandsAfter grants rates delta self.old → result ≡ allowance rates delta grants }
        ensures stands { (rates : Rates) (grants : ℕ) → credited (rate_in rates grants) ≡ rate
            → StandsAfter grants rates delta self.old
            → StandsAfter (grants + 1) rates delta self.new }
    {
        let parts = self.carried as u64 + rate * delta as u64;
        self.carried = (parts % PARTS_OF_A_VEHICLE) as u32;
        parts / PARTS_OF_A_VEHICLE
    }

    /// Lets so many steps of one rate go by whose vehicles nobody uses. What is carried is as
    /// after so many grants.
    pub fn skip(&mut self, rate: u64, delta: u32, steps: u32)
        requires rate { rate ≤ MOST_RATE }
        requires step { delta ≤ MOST_STEP }
        ensures carried { self.new ≡ (self.old + steps * (rate * delta)) % PARTS_OF_A_VEHICLE }
        ensures stands { (rates : Rates) (grants : ℕ) → IsRateFor rates grants steps rate
            → StandsAfter grants rates delta self.old
            → StandsAfter (grants + steps) rates delta self.new }
    {
        let parts = rate * delta as u64 % PARTS_OF_A_VEHICLE;
        let all = self.carried as u64 + parts * steps as u64;
        self.carried = (all % PARTS_OF_A_VEHICLE) as u32;
    }
}
