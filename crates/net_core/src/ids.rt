// Identifiers by their places.
ghost use Rattle.std.specs.Prelude.{◌≡◌, ◌++◌, ◌∷◌, [], ◌<◌, length, OnOk, OnErr, None, IfSome};
ghost use Rattle.std.specs.Prelude.{nat_eq};
ghost use Rattle.std.specs.List.{IsDistinct};
ghost use Rattle.net_core.specs.Ids.{pair_eq, place_of, place_of_pair};

use indexmap::IndexSet;
use std::alloc::{AllocFailed, Global};
use std::marker::Model;

/// Different identifiers, in the order in which they were added.
#[derive(Drop)]
pub struct Ids {
    set: IndexSet<u64>,
}

impl Model for Ids {
    ghost use Rattle.std.specs.Prelude.{List, ℕ, nat_eq};
    ghost use Rattle.std.specs.List.{IsDistinct};

    ghost Value = { List ℕ };

    ghost view = { λ a. a.set.keys };

    ghost invariant = { λ a. IsDistinct nat_eq a.set.keys };
}

impl Ids {
    /// No identifiers.
    pub fn new(alloc: Global) -> Self
        ensures { result ≡ [] }
    {
        Ids {
            set: IndexSet::new(alloc),
        }
    }

    /// The number of identifiers.
    pub fn len(&self) -> usize
        ensures { result ≡ length self.now }
    {
        self.set.len()
    }

    /// The place of an identifier, where it is there.
    pub fn place(&self, id: u64) -> Option<usize>
        ensures place { result ≡ place_of self.now id }
        ensures within { IfSome result (λ place. place < length self.now) }
    {
        self.set.get_index_of(&id)
    }

    /// Adds an identifier that isn't there yet, as the last one.
    pub fn add(&mut self, id: u64) -> Result<(), AllocFailed<u64>>
        requires { place_of self.old id ≡ None }
        ensures ok { OnOk result (self.new ≡ self.old ++ id ∷ []) }
        ensures err { OnErr result (self.new ≡ self.old) }
        ensures distinct { IsDistinct nat_eq self.new }
    {
        self.set.insert(id)?;
        Ok(())
    }
}

/// Different pairs, in the order in which they were added.
#[derive(Drop)]
pub struct Pairs {
    set: IndexSet<(u32, u32)>,
}

impl Model for Pairs {
    ghost use Rattle.std.specs.Prelude.{List, ℕ};
    ghost use Rattle.std.specs.List.{IsDistinct};
    ghost use Rattle.net_core.specs.Ids.{pair_eq};

    ghost Value = { List (ℕ × ℕ) };

    ghost view = { λ a. a.set.keys };

    ghost invariant = { λ a. IsDistinct pair_eq a.set.keys };
}

impl Pairs {
    /// No pairs.
    pub fn new(alloc: Global) -> Self
        ensures { result ≡ [] }
    {
        Pairs {
            set: IndexSet::new(alloc),
        }
    }

    /// The place of a pair, where it is there.
    pub fn place(&self, a: u32, b: u32) -> Option<usize>
        ensures place { result ≡ place_of_pair self.now a b }
        ensures within { IfSome result (λ place. place < length self.now) }
    {
        self.set.get_index_of(&(a, b))
    }

    /// Adds a pair that isn't there yet, as the last one.
    pub fn add(&mut self, a: u32, b: u32) -> Result<(), AllocFailed<(u32, u32)>>
        requires { place_of_pair self.old a b ≡ None }
        ensures ok { OnOk result (self.new ≡ self.old ++ (a, b) ∷ []) }
        ensures err { OnErr result (self.new ≡ self.old) }
        ensures distinct { IsDistinct pair_eq self.new }
    {
        self.set.insert((a, b))?;
        Ok(())
    }
}
