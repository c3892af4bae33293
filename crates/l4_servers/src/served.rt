//! The numbers of the served threads.
ghost use Rattle.std.specs.Prelude.{◌≡◌, IfOk, MatchResult, not, false};
ghost use Rattle.std.specs.Ordering.{nat_cmp};
ghost use Rattle.std.specs.List.Sorted.{IsStrictlySortedBy};
ghost use Rattle.std.specs.FinSet as set;

use l4_ipc::NoMemory;
use std::alloc::Global;
use std::marker::Model;

/// The numbers of the served threads, in rising order. A number is looked up for every line of a script, and the list seldom changes.
#[derive(Drop)]
pub(crate) struct ServedThreads {
    numbers: Vec<u32>,
}

impl Model for ServedThreads {
    ghost use Rattle.std.specs.FinSet as set;
    ghost use Rattle.std.specs.Ordering.{nat_cmp};
    ghost use Rattle.std.specs.Coded.{coded_ℕ};
    ghost use Rattle.std.specs.List.Sorted.{IsStrictlySortedBy};

    ghost Value = { set.FinSet nat_cmp };

    ghost coded = { set.code coded_ℕ };

    ghost view = { λ s. set.from_list s.numbers.items };

    ghost invariant = { λ s. IsStrictlySortedBy nat_cmp s.numbers.items };
}

impl ServedThreads {
    /// Returns an empty list: no thread is served.
    pub(crate) fn new(alloc: Global) -> ServedThreads
        ensures { result ≡ set.empty }
    {
        ServedThreads {
            numbers: Vec::new(alloc),
        }
    }

    /// Returns a copy in memory of its own, or `NoMemory` if an allocation failed.
    pub(crate) fn copy(&self, alloc: Global) -> Result<ServedThreads, NoMemory>
        ensures { IfOk result (λ copy. copy ≡ self.now) }
    {
        let mut numbers = Vec::new(alloc);
        if numbers.extend_from_slice(self.numbers.as_slice()).is_err() {
            return Err(NoMemory);
        }
        Ok(ServedThreads { numbers })
    }

    /// Makes a thread served. Returns whether it was not served before. Returns `NoMemory` if an allocation failed,
    /// which is possible only if it was not served; then nothing changes.
    pub(crate) fn insert(&mut self, number: u32) -> Result<bool, NoMemory>
        ensures { MatchResult result
            (λ begins. (begins ≡ not (set.contains self.old number)) × (self.new ≡ set.insert self.old number) × (begins ≡ false → self.new ≡ self.old))
            (λ _. (set.contains self.old number ≡ false) × (self.new ≡ self.old)) }
    {
        let Err(place) = self.numbers.binary_search(&number) else {
            return Ok(false);
        };
        let Ok(_) = self.numbers.insert(place, number) else {
            return Err(NoMemory);
        };
        Ok(true)
    }

    /// Makes a thread no longer served. Changes nothing if it is not served.
    pub(crate) fn remove(&mut self, number: u32)
        ensures { self.new ≡ set.remove self.old number }
    {
        self.numbers.retain(|other| *other != number);
    }

    /// Returns the numbers, in rising order.
    pub(crate) fn as_slice(&self) -> &[u32]
        ensures is { set.from_list result.now ≡ self.now }
        ensures rising { IsStrictlySortedBy nat_cmp result.now }
    {
        self.numbers.as_slice()
    }
}
