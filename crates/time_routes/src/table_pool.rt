// The memory of tables that are read no more, kept for the next tables.
ghost use Rattle.std.specs.Prelude.{◌≤◌};

use crate::shares::MOST_SHARES;
use labels::Spare;
use std::alloc::Global;
use std::mem;
use std::sync::Mutex;
use std::sync::atomic::{AtomicUsize, Ordering};

/// So many workers with a pool of the memory of label tables: that of the tables which were filled
/// last, one for each of at most four shares. [`tell_by_shares`](crate::tell_by_shares) fills its
/// tables there where they are as large. What is told doesn't depend on it. It counts the groups of
/// destinations that no share took.
#[derive(Drop)]
pub struct TablePool {
    alloc: Global,
    workers: u32,
    places: [Mutex<Spare>; MOST_SHARES as usize],
    pub(crate) left: AtomicUsize,
    ghost some: { 1 ≤ workers },
}

impl TablePool {
    /// A pool of so many workers, without memory yet.
    pub fn new(alloc: Global, workers: u32) -> Self
        requires { 1 ≤ workers }
    {
        TablePool {
            alloc,
            workers,
            places: [
                Mutex::new(Spare::none(alloc)),
                Mutex::new(Spare::none(alloc)),
                Mutex::new(Spare::none(alloc)),
                Mutex::new(Spare::none(alloc)),
            ],
            left: AtomicUsize::new(0),
        }
    }

    /// How many workers there are.
    pub fn workers(&self) -> u32
        ensures { 1 ≤ result }
    {
        self.workers
    }

    /// How many groups of destinations no share took, in all searches so far. They were searched
    /// after the shares, one after another.
    pub fn left_groups(&self) -> usize {
        self.left.load(Ordering::SeqCst)
    }

    /// Puts memory in the place of a share, and takes what was there. Where there is no such place
    /// it comes back.
    pub(crate) fn swap(&self, share: usize, spare: Spare) -> Spare {
        match self.places.get(share) {
            Some(place) => match place.try_lock() {
                Some(mut there) => mem::replace(&mut *there, spare),
                None => spare,
            },
            None => spare,
        }
    }

    /// Takes the memory of a share.
    pub(crate) fn take(&self, share: usize) -> Spare {
        self.swap(share, Spare::none(self.alloc))
    }

    /// Gives the memory back of the shares that come after so many.
    pub(crate) fn shrink(&self, shares: usize) {
        for share in shares..MOST_SHARES as usize {
            drop(self.take(share));
        }
    }
}
