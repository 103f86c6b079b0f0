ghost use Rattle.std.specs.Prelude.{◌≡◌, ◌<◌, ◌≤◌, All, false, true, drop, length, take, IsErr, OnErr, OnOk, []};
ghost use Rattle.zbase.specs.Faults.{Counts, IsFaultless, IsWaiting, Once, begun, calls_of_first, hit, no_arms};
ghost use Rattle.zbase.specs.Limits.{greatest_number};
ghost use Rattle.zdisk.specs.Arming.{armed, called, called_by, counter_of, disarmed, is_calm, last_seed, met, resumed, taking};
ghost use Rattle.zdisk.specs.Disk.{counted};
ghost use Rattle.zdisk.specs.Meeting.{Answers, IsFault};

use std::alloc::Global;
use std::marker::Model;
use zbase::{Arm, Failed, Memory};

/// What a device call meets.
#[derive(Clone, Copy, Debug, PartialEq, Eq)]
pub enum Met {
    /// Nothing: it succeeds.
    Nothing,
    /// A failure, with the seed of what it leaves.
    Failure(u64),
    /// A stop, with the seed of what it leaves.
    Stop(u64),
    /// The disk is stopped already.
    Stopped,
}

/// What a call answers that meets this.
pub fn answer(meets: Met) -> Result<(), Failed>
    ensures { Answers meets result }
{
    match meets {
        Met::Nothing => Ok(()),
        Met::Failure(_) | Met::Stop(_) | Met::Stopped => Err(Failed),
    }
}

/// The device calls of a disk in memory, and what is armed to stop it or to fail: one queue, of which the first entry
/// alone is counted.
#[derive(Drop)]
pub struct Queue {
    /// What was hit, and behind it what waits.
    arms: Vec<Arm>,
    hits: usize,
    stopped: bool,
    calls: u64,
    /// How many calls are left to the first that waits, 0 where none does.
    left: u64,
    count: u64,
    ghost within: { hits ≤ length arms.items },
    ghost some: { All (λ arm. 1 ≤ arm.calls) arms.items },
    ghost idle: { length arms.items ≤ hits → left ≡ 0 },
    ghost waiting: { hits < length arms.items → 1 ≤ left },
    ghost halted: { stopped ≡ true → left ≡ calls_of_first (drop hits arms.items) },
    ghost running: { stopped ≡ false → count ≡ hits },
    ghost small: { (count ≤ greatest_number) × (calls ≤ greatest_number) },
}

// At how many calls the entry is hit that stands there, 0 where none does.
fn calls_at(arms: &[Arm], at: usize) -> u64
    ensures { result ≡ calls_of_first (drop at arms.now) }
{
    match arms.get(at) {
        Some(arm) => arm.calls,
        None => 0,
    }
}

impl Model for Queue {
    ghost use Rattle.std.specs.Prelude.{drop, take};
    ghost use Rattle.zbase.specs.Faults.{Counter};
    ghost use Rattle.zdisk.specs.Arming.{counter_of};

    ghost Value = { Counter };

    ghost view = { λ q. counter_of q.count q.calls
        (record { queue = drop q.hits q.arms.items; left = q.left; hits = take q.hits q.arms.items; stopped = q.stopped }) };
}

impl Queue {
    /// Nothing is armed, and there was no call. Takes no memory.
    pub fn new(alloc: Global) -> Queue
        ensures { result ≡ counter_of 0 0 no_arms }
    {
        Queue {
            arms: Vec::new(alloc),
            hits: 0,
            stopped: false,
            calls: 0,
            left: 0,
            count: 0,
        }
    }

    /// How many device calls there were.
    pub fn calls(&self) -> u64
        ensures { result ≡ self.now.calls }
    {
        self.calls
    }

    /// Whether a stop was hit, and the disk doesn't go on yet. If not, the first entry that waits is hit by a later
    /// call, and where none waits no call can fail.
    pub fn stopped(&self) -> bool
        ensures value { result ≡ self.now.arms.stopped }
        ensures waits { IsWaiting self.now.arms }
        ensures calm { self.now.arms.queue ≡ [] → self.now.arms.stopped ≡ false → IsFaultless self.now }
    {
        self.stopped
    }

    /// How many entries wait.
    pub fn waiting(&self) -> usize
        ensures { result ≡ length self.now.arms.queue }
    {
        self.arms.len() - self.hits
    }

    /// The seed of the last entry that was hit, 0 where none was.
    pub fn last_seed(&self) -> u64
        ensures { result ≡ last_seed self.now.arms.hits }
    {
        match self.hits.checked_sub(1) {
            Some(last) => self.arms[last].seed,
            None => 0,
        }
    }

    /// Puts an entry behind those that wait. For want of memory nothing is armed.
    pub fn arm(&mut self, arm: Arm) -> Result<(), Memory>
        requires { 1 ≤ arm.calls }
        ensures armed { OnOk result (self.new ≡ armed self.old arm) }
        ensures kept { OnErr result (self.new ≡ self.old) }
    {
        let first = self.hits == self.arms.len();
        self.arms.push(arm)?;
        if first {
            self.left = arm.calls;
        }
        Ok(())
    }

    /// Takes all that waits out of the queue. What was hit stays.
    pub fn disarm(&mut self)
        ensures { self.new ≡ disarmed self.old }
    {
        self.arms.truncate(self.hits);
        self.left = 0;
    }

    /// Takes over what waits on another queue, with the calls that are left to its first, and what was hit there. The calls that
    /// this one counted stay. Takes no memory.
    pub fn take(&mut self, from: Queue)
        requires unarmed { self.old.arms.queue ≡ [] }
        requires unhit { self.old.arms.hits ≡ [] }
        requires running { self.old.arms.stopped ≡ false }
        requires from_running { from.arms.stopped ≡ false }
        ensures { self.new ≡ taking self.old from }
    {
        let Queue {
            arms,
            hits,
            stopped: _,
            calls: _,
            left,
            count,
        } = from;
        self.arms = arms;
        self.hits = hits;
        self.left = left;
        self.count = count;
    }

    /// The disk goes on after a stop. The count of the first that waits begins.
    pub fn resume(&mut self)
        ensures { self.new ≡ resumed self.old }
    {
        self.stopped = false;
        self.count = self.hits as u64;
        self.left = calls_at(self.arms.as_slice(), self.hits);
    }

    /// Counts a call, and tells what it meets.
    pub fn call(&mut self) -> Met
        ensures met { result ≡ met self.old.arms }
        ensures called { self.new ≡ called self.old }
        ensures call { self.new.calls ≡ counted self.old.calls }
        ensures counts { Counts self.old self.new (IsFault result) }
        ensures once { result ≡ Met.Nothing → Once self.old self.new }
    {
        let meets = self.next();
        self.count_call(meets);
        meets
    }

    /// Counts a call, and tells what it answers.
    pub fn answer(&mut self) -> Result<(), Failed>
        ensures answers { Answers (met self.old.arms) result }
        ensures called { self.new ≡ called self.old }
        ensures call { self.new.calls ≡ counted self.old.calls }
        ensures once { OnOk result (Once self.old self.new) }
        ensures counts { Counts self.old self.new (IsErr result) }
    {
        let meets = self.call();
        answer(meets)
    }

    // What the next call meets.
    fn next(&self) -> Met
        ensures met { result ≡ met self.now.arms }
        ensures counted { (self.now.count ≤ greatest_number) × (self.now.calls ≤ greatest_number) }
        ensures sound { self.now.sound ≡ is_calm self.now.arms.queue self.now.arms.stopped }
        ensures waits { IsWaiting self.now.arms }
    {
        if self.stopped {
            return Met::Stopped;
        }
        let Some(arm) = self.arms.get(self.hits) else {
            return Met::Nothing;
        };
        if self.left > 1 {
            Met::Nothing
        } else if arm.stops {
            Met::Stop(arm.seed)
        } else {
            Met::Failure(arm.seed)
        }
    }

    // Counts a call that meets this.
    fn count_call(&mut self, meets: Met)
        requires { meets ≡ met self.old.arms }
        ensures { self.new ≡ called_by meets self.old }
    {
        self.calls = self.calls.saturating_add(1);
        match meets {
            Met::Nothing => self.left = self.left.saturating_sub(1),
            Met::Stopped => self.count = self.count.saturating_add(1),
            Met::Failure(_) | Met::Stop(_) => self.hit(),
        }
    }

    // Hits the first that waits.
    fn hit(&mut self)
        requires running { self.old.arms.stopped ≡ false }
        requires some { 0 < length self.old.arms.queue }
        ensures { self.new ≡ counter_of (counted self.old.count) self.old.calls (hit self.old.arms) }
    {
        self.stopped = self.arms[self.hits].stops;
        self.hits += 1;
        self.count = self.count.saturating_add(1);
        self.left = calls_at(self.arms.as_slice(), self.hits);
    }
}
