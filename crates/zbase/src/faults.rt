ghost use Rattle.std.specs.Prelude.{◌≡◌, ◌+◌, ⊤, false, true, min, nat_le, IsErr, MatchResult, Ok};
ghost use Rattle.std.specs.List.{list_all};
ghost use Rattle.zbase.specs.Faults.{Counter, Counts, Once, no_arms};
ghost use Rattle.zbase.specs.Limits.{greatest_number};

use std::alloc::{AllocError, AllocFailed, Global};
use std::marker::Model;

/// A call on a handed-in object failed: its count of faults rose in that call.
#[derive(Clone, Copy, Debug, PartialEq, Eq)]
pub struct Failed;

/// Want of memory. It comes in place of any other answer but a fault, and leaves the object as it was.
#[derive(Clone, Copy, Debug, PartialEq, Eq)]
pub struct Memory;

impl From<AllocError> for Memory {
    fn from(_: AllocError) -> Memory {
        Memory
    }
}

impl<T: Drop> From<AllocFailed<T>> for Memory {
    fn from(_: AllocFailed<T>) -> Memory {
        Memory
    }
}

/// A stop or a failure that is armed on a disk in memory.
#[derive(Clone, Copy, Debug, PartialEq, Eq)]
pub struct Arm {
    /// Whether every call fails from then on, and not this one alone.
    pub stops: bool,
    /// Which device call it hits, from 1 on, counted from when the count of the entry begins.
    pub calls: u64,
    /// Which of the states that the call may leave it leaves.
    pub seed: u64,
}

/// Which calls of an object in memory are to fail, and how many have. Calls are numbered from 1 on.
///
/// Contracts see the counts of faults and calls, and whether no failing call is left.
#[derive(Drop)]
pub struct FaultPlan {
    failing: Vec<u64>,
    calls: u64,
    count: u64,
}

impl Model for FaultPlan {
    ghost Value = { Counter };

    ghost view = { λ plan. record { count = plan.count; sound = list_all (λ n. nat_le n plan.calls) plan.failing.items; calls = plan.calls; arms = no_arms } };
}

impl FaultPlan {
    /// No call is to fail.
    pub fn none(alloc: Global) -> FaultPlan
        ensures count { result.count ≡ 0 }
        ensures calls { result.calls ≡ 0 }
        ensures sound { result.sound ≡ true }
    {
        FaultPlan::new(Vec::new(alloc))
    }

    /// The calls with these numbers are to fail.
    pub fn new(failing: Vec<u64>) -> FaultPlan
        ensures count { result.count ≡ 0 }
        ensures calls { result.calls ≡ 0 }
        ensures sound { result.sound ≡ list_all (λ n. nat_le n 0) failing.items }
    {
        FaultPlan {
            failing,
            calls: 0,
            count: 0,
        }
    }

    /// How many calls there were.
    pub fn calls(&self) -> u64
        ensures { result ≡ self.now.calls }
    {
        self.calls
    }

    /// Counts a call, which fails where its number is in the list.
    pub fn call(&mut self) -> Result<(), Failed>
        ensures counts { Counts self.old self.new (IsErr result) }
        ensures call { self.new.calls ≡ min (self.old.calls + 1) greatest_number }
        ensures once { Once self.old self.new }
    {
        let Some(number) = self.calls.checked_add(1) else {
            return Ok(());
        };
        self.calls = number;
        if self.failing.contains(&number) {
            self.count = self.count.saturating_add(1);
            return Err(Failed);
        }
        Ok(())
    }
}

/// How often a real object of the outside has failed, and how many of its calls were counted. It may always fail again.
#[derive(Drop)]
pub struct FaultCount {
    calls: u64,
    count: u64,
}

impl Model for FaultCount {
    ghost Value = { Counter };

    ghost view = { λ faults. record { count = faults.count; sound = false; calls = faults.calls; arms = no_arms } };
}

impl FaultCount {
    /// None so far.
    pub fn new() -> FaultCount
        ensures count { result.count ≡ 0 }
        ensures calls { result.calls ≡ 0 }
    {
        FaultCount { calls: 0, count: 0 }
    }

    /// Counts a call with this answer.
    pub fn call<T: Drop, E: Drop>(&mut self, answer: Result<T, E>) -> Result<T, Failed>
        ensures value { MatchResult answer (λ value. result ≡ Ok value) (λ _. IsErr result) }
        ensures counts { Counts self.old self.new (IsErr result) }
        ensures call { self.new.calls ≡ min (self.old.calls + 1) greatest_number }
        ensures once { Once self.old self.new }
    {
        self.calls = self.calls.saturating_add(1);
        match answer {
            Ok(value) => Ok(value),
            Err(_) => Err(self.fault()),
        }
    }

    /// Counts a fault.
    pub fn fault(&mut self) -> Failed
        ensures counts { Counts self.old self.new ⊤ }
        ensures uncalled { self.new.calls ≡ self.old.calls }
    {
        self.count = self.count.saturating_add(1);
        Failed
    }
}

impl Default for FaultCount {
    fn default() -> FaultCount {
        FaultCount::new()
    }
}
