// Lists of items by number.
ghost use Rattle.std.specs.Prelude.{◌≡◌, ◌<◌, ◌++◌, ◌∷◌, [], length, replicate, set, get_or, IfOk};
ghost use Rattle.std.specs.Prelude.{OnOk};

use std::alloc::{AllocError, Global};
use std::marker::Model;

/// A list of items for each number below a bound.
#[derive(Drop)]
pub(crate) struct ListsByNumber<T: Drop> {
    lists: Vec<Vec<T>>,
}

impl<T: Drop> Model for ListsByNumber<T> {
    ghost use Rattle.std.specs.Prelude.{List, map};

    ghost Value = { List (List T) };

    ghost view = { λ b. map (λ list. list.items) b.lists.items };
}

impl<T: Drop> ListsByNumber<T> {
    /// So many lists without items.
    pub(crate) fn new(alloc: Global, count: usize) -> Result<Self, AllocError>
        ensures { IfOk result (λ lists. lists ≡ replicate count []) }
    {
        let mut lists = Vec::new(alloc);
        for _ in 0..count {
            lists.push(Vec::new(alloc))?;
        }
        Ok(ListsByNumber { lists })
    }

    /// The list of a number.
    pub(crate) fn get(&self, number: usize) -> &[T]
        requires { number < length self.now }
        ensures { get_or self.now number [] ≡ result.now }
    {
        &self.lists[number]
    }

    /// Adds an item at the end of the list of a number.
    #[tactic(auto, using(crate::proofs::ListsFacts::pushed))]
    pub(crate) fn push(&mut self, number: usize, item: T) -> Result<(), AllocError>
        requires { number < length self.old }
        ensures { OnOk result
            (self.new ≡ set self.old number (get_or self.old number [] ++ item ∷ [])) }
    {
        self.lists[number].push(item)?;
        Ok(())
    }
}
