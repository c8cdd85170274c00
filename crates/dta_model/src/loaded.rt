// What a loading gives: the journey of each vehicle.
ghost use Rattle.std.specs.Prelude.{◌≡◌, ◌<◌, length, slice_get, slice_set, Some};

use item_list::List;
use std::marker::Model;

/// Steps, in the order in which they were put in.
pub type Steps = List<u32>;

/// The steps in which a vehicle entered its links, and the step of its arrival, if it arrived.
#[derive(Drop)]
pub struct Journey {
    pub entries: Steps,
    pub arrival: Option<u32>,
}

/// A journey for each vehicle, in the order of vehicles.
#[derive(Drop)]
pub struct Loaded {
    journeys: Vec<Journey>,
}

impl Model for Loaded {
    ghost use Rattle.dta_model.specs.declared.loaded.Journey.{Journey};
    ghost use Rattle.std.specs.Prelude.{List};

    ghost Value = { List Journey };

    ghost view = { λ l. l.journeys.items };
}

impl Loaded {
    /// These journeys.
    pub fn of(journeys: Vec<Journey>) -> Self
        ensures { result ≡ journeys.items }
    {
        Loaded { journeys }
    }

    /// The journeys, lent.
    pub fn as_slice(&self) -> &[Journey]
        ensures { result.now ≡ self.now }
    {
        self.journeys.as_slice()
    }

    /// The journeys, given away.
    pub fn into_vec(self) -> Vec<Journey>
        ensures { result.items ≡ self }
    {
        self.journeys
    }

    /// The journey of a vehicle.
    pub fn get(&self, v: u32) -> &Journey
        requires { v < length self.now }
        ensures { slice_get self.now v ≡ Some result.now }
    {
        &self.journeys[v as usize]
    }

    /// Sets the journey of a vehicle; the others stay.
    pub fn set(&mut self, v: u32, journey: Journey)
        requires { v < length self.old }
        ensures { self.new ≡ slice_set self.old v journey }
    {
        self.journeys[v as usize] = journey;
    }
}
