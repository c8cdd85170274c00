// How many left a link in each of its last steps.
ghost use Rattle.link_queues.specs.Leavings.{no_leavings, pushed};
ghost use Rattle.std.specs.Prelude.{◌≡◌, IfOk};
ghost use Rattle.std.specs.List.{sum};

use crate::ring::Ring;
use std::alloc::{AllocError, Global};
use std::marker::Model;

/// How many left a link in each of so many last steps. Without steps it holds nothing.
#[derive(Drop)]
pub struct Leavings {
    ring: Option<Box<Ring>>,
}

impl Model for Leavings {
    ghost use Rattle.std.specs.Prelude.{List, ℕ, [], option_map, unwrap_or};

    ghost Value = { List ℕ };

    ghost view = { λ l. unwrap_or (option_map (λ ring. ring.value) l.ring) [] };
}

impl Leavings {
    /// So many steps in which nobody left. It takes memory, unless there are none.
    pub fn new(alloc: Global, count: u32) -> Result<Self, AllocError>
        ensures { IfOk result (λ leavings. leavings ≡ no_leavings count) }
    {
        if count == 0 {
            return Ok(Leavings { ring: None });
        }
        let ring = Box::new(alloc, Ring::new(alloc, count)?)?;
        Ok(Leavings { ring: Some(ring) })
    }

    /// So many left in the next step; the oldest number is dropped.
    pub fn push(&mut self, left: u32)
        ensures { self.new ≡ pushed left self.old }
    {
        if let Some(ring) = &mut self.ring {
            ring.push(left);
        }
    }

    /// How many left in all of these steps. It looks at none of them.
    pub fn total(&self) -> u64
        ensures { result ≡ sum self.now }
    {
        match &self.ring {
            None => 0,
            Some(ring) => ring.total(),
        }
    }
}
