ghost use Rattle.std.specs.Prelude.{◌≡◌, ◌+◌, ◌≤◌, [], Some, false, true, length, max, min, take, option_map, IfSome, OnOk, OnErr, IsErr};
ghost use Rattle.std.specs.declared.option.Option.{Option};
ghost use Rattle.zbase.specs.Faults.{Counts, IsFaultless, IsWaiting, Once, no_arms};
ghost use Rattle.zdisk.specs.Arming.{armed, called, counter_of, disarmed, last_seed, met, resumed, taking};
ghost use Rattle.zdisk.specs.Calls.{Cuts, Follows, Syncs, Writes, put};
ghost use Rattle.zdisk.specs.Disk.{GivesLength, GivesRange, HasPlace, HasRange, counted, synced};
ghost use Rattle.zdisk.specs.Effects.{after_change, after_sync, brings, image_left};
ghost use Rattle.zdisk.specs.Keeping.{told_in};
ghost use Rattle.zdisk.specs.Meeting.{Answers};

use crate::Disk;
use crate::queue::{Queue, answer};
use crate::recorded::RecordedFile;
use std::alloc::Global;
use zbase::{Arm, Bytes, Failed, Memory};

/// A file in memory, which stops and fails where it is told to. It tells what it has held at each moment since it was made,
/// by its record of the calls that may have changed it.
///
/// Each call of the disk but `reserve` counts as one, also a call that fails. Stops and failures are armed ahead and stand in
/// one queue; the first that waits is hit by the last of so many calls, counted from when the one before it was hit, or from
/// when it was armed where none waited. On a stopped disk that count begins when the disk goes on.
///
/// What a call leaves that fails, and what a stop leaves, is named by a seed, of an old and a new content: the seed 0 takes
/// the old one and 1 the new one; any other takes the byte at a place, and the length as if it stood at the place 2^64 - 1,
/// of the new one where the top bit of `(seed xor place) * 0x9e3779b97f4a7c15` modulo 2^64 is 1. A byte that the chosen
/// content doesn't have is 0. A write or a cut that fails chooses between the file before and after it, a sync that fails and a
/// stop between what was last synced and what is there with the call's effect.
#[derive(Drop)]
pub struct MemoryDisk {
    file: RecordedFile,
    queue: Queue,
    ghost room: { min file.calls (length queue.arms.queue) ≤ file.faults },
}

impl MemoryDisk {
    /// A synced file of these bytes, on which nothing is armed, with room for no call. Takes no memory.
    pub fn new(alloc: Global, bytes: Bytes) -> MemoryDisk
        ensures told { ⟦<MemoryDisk as Disk>⟧.told result ≡ Some (synced bytes) }
        ensures faultless { IsFaultless (⟦<MemoryDisk as Disk>⟧.counter result) }
        ensures counter { ⟦<MemoryDisk as Disk>⟧.counter result ≡ counter_of 0 0 no_arms }
        ensures calls { (⟦<MemoryDisk as Disk>⟧.counter result).calls ≡ 0 }
        ensures spare { (⟦<MemoryDisk as Disk>⟧.spare_calls result ≡ 0) × (⟦<MemoryDisk as Disk>⟧.spare_bytes result ≡ 0) }
    {
        MemoryDisk {
            file: RecordedFile::new(bytes),
            queue: Queue::new(alloc),
        }
    }

    /// Arms a stop: the last of so many calls fails, and so does each call from then on, until `after_stop`. For want of
    /// memory nothing is armed.
    pub fn arm_stop(&mut self, calls: u64, seed: u64) -> Result<(), Memory>
        requires { 1 ≤ calls }
        ensures armed { OnOk result (⟦<MemoryDisk as Disk>⟧.counter self.new
            ≡ armed (⟦<MemoryDisk as Disk>⟧.counter self.old) (record { stops = true; calls = calls; seed = seed })) }
        ensures kept { OnErr result (⟦<MemoryDisk as Disk>⟧.counter self.new ≡ ⟦<MemoryDisk as Disk>⟧.counter self.old) }
        ensures same { ⟦<MemoryDisk as Disk>⟧.told self.new ≡ ⟦<MemoryDisk as Disk>⟧.told self.old }
        ensures spare { (⟦<MemoryDisk as Disk>⟧.spare_calls self.new ≡ ⟦<MemoryDisk as Disk>⟧.spare_calls self.old)
            × (⟦<MemoryDisk as Disk>⟧.spare_bytes self.new ≡ ⟦<MemoryDisk as Disk>⟧.spare_bytes self.old) }
    {
        self.arm(Arm {
            stops: true,
            calls,
            seed,
        })
    }

    /// Arms a failure: the last of so many calls fails. For want of memory nothing is armed.
    pub fn arm_fail(&mut self, calls: u64, seed: u64) -> Result<(), Memory>
        requires { 1 ≤ calls }
        ensures armed { OnOk result (⟦<MemoryDisk as Disk>⟧.counter self.new
            ≡ armed (⟦<MemoryDisk as Disk>⟧.counter self.old) (record { stops = false; calls = calls; seed = seed })) }
        ensures kept { OnErr result (⟦<MemoryDisk as Disk>⟧.counter self.new ≡ ⟦<MemoryDisk as Disk>⟧.counter self.old) }
        ensures same { ⟦<MemoryDisk as Disk>⟧.told self.new ≡ ⟦<MemoryDisk as Disk>⟧.told self.old }
        ensures spare { (⟦<MemoryDisk as Disk>⟧.spare_calls self.new ≡ ⟦<MemoryDisk as Disk>⟧.spare_calls self.old)
            × (⟦<MemoryDisk as Disk>⟧.spare_bytes self.new ≡ ⟦<MemoryDisk as Disk>⟧.spare_bytes self.old) }
    {
        self.arm(Arm {
            stops: false,
            calls,
            seed,
        })
    }

    // Arms an entry. Of the calls for which there is room, one more has room for what it must keep where it fails.
    fn arm(&mut self, arm: Arm) -> Result<(), Memory>
        requires { 1 ≤ arm.calls }
        ensures armed { OnOk result (⟦<MemoryDisk as Disk>⟧.counter self.new ≡ armed (⟦<MemoryDisk as Disk>⟧.counter self.old) arm) }
        ensures kept { OnErr result (⟦<MemoryDisk as Disk>⟧.counter self.new ≡ ⟦<MemoryDisk as Disk>⟧.counter self.old) }
        ensures same { ⟦<MemoryDisk as Disk>⟧.told self.new ≡ ⟦<MemoryDisk as Disk>⟧.told self.old }
        ensures spare { (⟦<MemoryDisk as Disk>⟧.spare_calls self.new ≡ ⟦<MemoryDisk as Disk>⟧.spare_calls self.old)
            × (⟦<MemoryDisk as Disk>⟧.spare_bytes self.new ≡ ⟦<MemoryDisk as Disk>⟧.spare_bytes self.old) }
    {
        let waiting = self.queue.waiting().checked_add(1).ok_or(Memory)?;
        self.file.reserve_faults(waiting)?;
        self.queue.arm(arm)
    }

    /// Takes all that waits out of the queue. What was hit stays, and so does a stop.
    pub fn disarm(&mut self)
        ensures disarmed { ⟦<MemoryDisk as Disk>⟧.counter self.new ≡ disarmed (⟦<MemoryDisk as Disk>⟧.counter self.old) }
        ensures same { ⟦<MemoryDisk as Disk>⟧.told self.new ≡ ⟦<MemoryDisk as Disk>⟧.told self.old }
        ensures spare { (⟦<MemoryDisk as Disk>⟧.spare_calls self.new ≡ ⟦<MemoryDisk as Disk>⟧.spare_calls self.old)
            × (⟦<MemoryDisk as Disk>⟧.spare_bytes self.new ≡ ⟦<MemoryDisk as Disk>⟧.spare_bytes self.old) }
    {
        self.queue.disarm();
    }

    /// Takes over what waits on another disk, with the calls that are left to its first, and what was hit there. What this disk
    /// has held stays. Takes no memory: the room for changes is given up, but for that which an entry may need that fails one,
    /// and is made by `reserve`.
    pub fn take_queue(&mut self, from: MemoryDisk)
        requires unarmed { (⟦<MemoryDisk as Disk>⟧.counter self.old).arms.queue ≡ [] }
        requires unhit { (⟦<MemoryDisk as Disk>⟧.counter self.old).arms.hits ≡ [] }
        requires running { (⟦<MemoryDisk as Disk>⟧.counter self.old).arms.stopped ≡ false }
        requires from_running { (⟦<MemoryDisk as Disk>⟧.counter from).arms.stopped ≡ false }
        ensures taken { ⟦<MemoryDisk as Disk>⟧.counter self.new
            ≡ taking (⟦<MemoryDisk as Disk>⟧.counter self.old) (⟦<MemoryDisk as Disk>⟧.counter from) }
        ensures same { ⟦<MemoryDisk as Disk>⟧.told self.new ≡ ⟦<MemoryDisk as Disk>⟧.told self.old }
        ensures spare { (⟦<MemoryDisk as Disk>⟧.spare_calls self.new ≤ ⟦<MemoryDisk as Disk>⟧.spare_calls self.old)
            × (⟦<MemoryDisk as Disk>⟧.spare_bytes self.new ≡ ⟦<MemoryDisk as Disk>⟧.spare_bytes self.old) }
    {
        let MemoryDisk { file: _, queue } = from;
        self.file.keep_calls();
        self.queue.take(queue);
    }

    /// Whether a stop was hit, and the disk doesn't go on yet. If not, the first entry that waits is hit by a later call, and
    /// where none waits no call can fail.
    pub fn stopped(&self) -> bool
        ensures value { result ≡ (⟦<MemoryDisk as Disk>⟧.counter self.now).arms.stopped }
        ensures waits { IsWaiting (⟦<MemoryDisk as Disk>⟧.counter self.now).arms }
        ensures calm { (⟦<MemoryDisk as Disk>⟧.counter self.now).arms.queue ≡ [] → (⟦<MemoryDisk as Disk>⟧.counter self.now).arms.stopped ≡ false
            → IsFaultless (⟦<MemoryDisk as Disk>⟧.counter self.now) }
    {
        self.queue.stopped()
    }

    /// How many device calls the disk has had.
    pub fn calls(&self) -> u64
        ensures { result ≡ (⟦<MemoryDisk as Disk>⟧.counter self.now).calls }
    {
        self.queue.calls()
    }

    // The seed of the last entry that was hit.
    fn last_seed(&self) -> u64
        ensures { result ≡ last_seed (⟦<MemoryDisk as Disk>⟧.counter self.now).arms.hits }
    {
        self.queue.last_seed()
    }

    /// The disk goes on after a stop, with a synced file that is the image which the stop's seed names. The entries that wait
    /// stay armed, and the count of the first begins. The record of what the disk has held begins anew, and the room that it
    /// took is spare again where no entry waits. Takes no memory.
    pub fn after_stop(self) -> MemoryDisk
        requires stopped { (⟦<MemoryDisk as Disk>⟧.counter self).arms.stopped ≡ true }
        ensures told { ⟦<MemoryDisk as Disk>⟧.told result
            ≡ option_map (λ told. synced (image_left (last_seed (⟦<MemoryDisk as Disk>⟧.counter self).arms.hits) told)) (⟦<MemoryDisk as Disk>⟧.told self) }
        ensures counter { ⟦<MemoryDisk as Disk>⟧.counter result ≡ resumed (⟦<MemoryDisk as Disk>⟧.counter self) }
        ensures spare { (⟦<MemoryDisk as Disk>⟧.spare_calls self ≤ ⟦<MemoryDisk as Disk>⟧.spare_calls result)
            × (⟦<MemoryDisk as Disk>⟧.spare_bytes result ≡ ⟦<MemoryDisk as Disk>⟧.spare_bytes self) }
        ensures gives_back { (⟦<MemoryDisk as Disk>⟧.counter self).arms.queue ≡ [] → IfSome (⟦<MemoryDisk as Disk>⟧.told self)
            (λ told. ⟦<MemoryDisk as Disk>⟧.spare_calls result ≡ ⟦<MemoryDisk as Disk>⟧.spare_calls self + length told.earlier) }
    {
        let seed = self.last_seed();
        let mut disk = self;
        let waiting = disk.queue.waiting();
        disk.file.settle(seed, waiting);
        disk.queue.resume();
        disk
    }
}

impl Disk for MemoryDisk {
    ghost told = { λ disk. Some (told_in disk.file) };

    ghost counter = { λ disk. disk.queue };

    ghost spare_calls = { λ disk. disk.file.calls };

    ghost spare_bytes = { λ disk. disk.file.spare };

    fn reserve(&mut self, calls: u64, bytes: u64) -> Result<(), Memory>
        ensures room { OnOk result ((calls ≤ ⟦<MemoryDisk as Disk>⟧.spare_calls self.new) × (bytes ≤ ⟦<MemoryDisk as Disk>⟧.spare_bytes self.new)) }
        ensures kept { (⟦<MemoryDisk as Disk>⟧.spare_calls self.old ≤ ⟦<MemoryDisk as Disk>⟧.spare_calls self.new)
            × (⟦<MemoryDisk as Disk>⟧.spare_bytes self.old ≤ ⟦<MemoryDisk as Disk>⟧.spare_bytes self.new) }
        ensures same { ⟦<MemoryDisk as Disk>⟧.told self.new ≡ ⟦<MemoryDisk as Disk>⟧.told self.old }
        ensures uncalled { ⟦<MemoryDisk as Disk>⟧.counter self.new ≡ ⟦<MemoryDisk as Disk>⟧.counter self.old }
        ensures grows { OnOk result ((⟦<MemoryDisk as Disk>⟧.spare_calls self.new ≡ max (⟦<MemoryDisk as Disk>⟧.spare_calls self.old) calls)
            × (⟦<MemoryDisk as Disk>⟧.spare_bytes self.new ≡ max (⟦<MemoryDisk as Disk>⟧.spare_bytes self.old) bytes)) }
        ensures stays { OnErr result ((⟦<MemoryDisk as Disk>⟧.spare_calls self.new ≡ ⟦<MemoryDisk as Disk>⟧.spare_calls self.old)
            × (⟦<MemoryDisk as Disk>⟧.spare_bytes self.new ≡ ⟦<MemoryDisk as Disk>⟧.spare_bytes self.old)) }
    {
        self.file
            .reserve(calls as usize, bytes as usize, self.queue.waiting())
    }

    fn len(&mut self) -> Result<u64, Failed>
        ensures value { GivesLength (⟦<MemoryDisk as Disk>⟧.told self.old) result }
        ensures same { ⟦<MemoryDisk as Disk>⟧.told self.new ≡ ⟦<MemoryDisk as Disk>⟧.told self.old }
        ensures spare { (⟦<MemoryDisk as Disk>⟧.spare_calls self.new ≡ ⟦<MemoryDisk as Disk>⟧.spare_calls self.old)
            × (⟦<MemoryDisk as Disk>⟧.spare_bytes self.new ≡ ⟦<MemoryDisk as Disk>⟧.spare_bytes self.old) }
        ensures call { (⟦<MemoryDisk as Disk>⟧.counter self.new).calls ≡ counted (⟦<MemoryDisk as Disk>⟧.counter self.old).calls }
        ensures once { OnOk result (Once (⟦<MemoryDisk as Disk>⟧.counter self.old) (⟦<MemoryDisk as Disk>⟧.counter self.new)) }
        ensures counts { Counts (⟦<MemoryDisk as Disk>⟧.counter self.old) (⟦<MemoryDisk as Disk>⟧.counter self.new) (IsErr result) }
        ensures answers { Answers (met (⟦<MemoryDisk as Disk>⟧.counter self.old).arms) result }
        ensures called { ⟦<MemoryDisk as Disk>⟧.counter self.new ≡ called (⟦<MemoryDisk as Disk>⟧.counter self.old) }
    {
        self.queue.answer()?;
        Ok(self.file.len() as u64)
    }

    fn read_at(&mut self, at: u64, buf: &mut [u8]) -> Result<(), Failed>
        requires within { HasRange (⟦<MemoryDisk as Disk>⟧.told self.old) at (length buf.old) }
        ensures value { GivesRange (⟦<MemoryDisk as Disk>⟧.told self.old) at result buf.new }
        ensures same { ⟦<MemoryDisk as Disk>⟧.told self.new ≡ ⟦<MemoryDisk as Disk>⟧.told self.old }
        ensures spare { (⟦<MemoryDisk as Disk>⟧.spare_calls self.new ≡ ⟦<MemoryDisk as Disk>⟧.spare_calls self.old)
            × (⟦<MemoryDisk as Disk>⟧.spare_bytes self.new ≡ ⟦<MemoryDisk as Disk>⟧.spare_bytes self.old) }
        ensures call { (⟦<MemoryDisk as Disk>⟧.counter self.new).calls ≡ counted (⟦<MemoryDisk as Disk>⟧.counter self.old).calls }
        ensures once { OnOk result (Once (⟦<MemoryDisk as Disk>⟧.counter self.old) (⟦<MemoryDisk as Disk>⟧.counter self.new)) }
        ensures counts { Counts (⟦<MemoryDisk as Disk>⟧.counter self.old) (⟦<MemoryDisk as Disk>⟧.counter self.new) (IsErr result) }
        ensures answers { Answers (met (⟦<MemoryDisk as Disk>⟧.counter self.old).arms) result }
        ensures called { ⟦<MemoryDisk as Disk>⟧.counter self.new ≡ called (⟦<MemoryDisk as Disk>⟧.counter self.old) }
    {
        self.queue.answer()?;
        self.file.read(at as usize, buf);
        Ok(())
    }

    fn write_at(&mut self, at: u64, bytes: &[u8]) -> Result<(), Failed>
        requires within { HasPlace (⟦<MemoryDisk as Disk>⟧.told self.old) at }
        requires room { 1 ≤ ⟦<MemoryDisk as Disk>⟧.spare_calls self.old }
        requires space { length bytes.now ≤ ⟦<MemoryDisk as Disk>⟧.spare_bytes self.old }
        ensures held { Follows (⟦<MemoryDisk as Disk>⟧.told self.old) (⟦<MemoryDisk as Disk>⟧.told self.new) (Writes at bytes.now result) }
        ensures spare { (⟦<MemoryDisk as Disk>⟧.spare_calls self.old ≤ ⟦<MemoryDisk as Disk>⟧.spare_calls self.new + 1)
            × (⟦<MemoryDisk as Disk>⟧.spare_bytes self.old ≤ ⟦<MemoryDisk as Disk>⟧.spare_bytes self.new + length bytes.now) }
        ensures call { (⟦<MemoryDisk as Disk>⟧.counter self.new).calls ≡ counted (⟦<MemoryDisk as Disk>⟧.counter self.old).calls }
        ensures once { OnOk result (Once (⟦<MemoryDisk as Disk>⟧.counter self.old) (⟦<MemoryDisk as Disk>⟧.counter self.new)) }
        ensures counts { Counts (⟦<MemoryDisk as Disk>⟧.counter self.old) (⟦<MemoryDisk as Disk>⟧.counter self.new) (IsErr result) }
        ensures answers { Answers (met (⟦<MemoryDisk as Disk>⟧.counter self.old).arms) result }
        ensures called { ⟦<MemoryDisk as Disk>⟧.counter self.new ≡ called (⟦<MemoryDisk as Disk>⟧.counter self.old) }
        ensures spends { (⟦<MemoryDisk as Disk>⟧.spare_calls self.new + 1 ≡ ⟦<MemoryDisk as Disk>⟧.spare_calls self.old)
            × (⟦<MemoryDisk as Disk>⟧.spare_bytes self.new + brings (met (⟦<MemoryDisk as Disk>⟧.counter self.old).arms) (length bytes.now)
            ≡ ⟦<MemoryDisk as Disk>⟧.spare_bytes self.old) }
        ensures becomes { ⟦<MemoryDisk as Disk>⟧.told self.new
            ≡ option_map (after_change (put at bytes.now) (met (⟦<MemoryDisk as Disk>⟧.counter self.old).arms)) (⟦<MemoryDisk as Disk>⟧.told self.old) }
    {
        let meets = self.queue.call();
        self.file.write(at as usize, bytes, meets);
        answer(meets)
    }

    fn cut(&mut self, to: u64) -> Result<(), Failed>
        requires within { HasPlace (⟦<MemoryDisk as Disk>⟧.told self.old) to }
        requires room { 1 ≤ ⟦<MemoryDisk as Disk>⟧.spare_calls self.old }
        ensures held { Follows (⟦<MemoryDisk as Disk>⟧.told self.old) (⟦<MemoryDisk as Disk>⟧.told self.new) (Cuts to result) }
        ensures spare { (⟦<MemoryDisk as Disk>⟧.spare_calls self.old ≤ ⟦<MemoryDisk as Disk>⟧.spare_calls self.new + 1)
            × (⟦<MemoryDisk as Disk>⟧.spare_bytes self.old ≤ ⟦<MemoryDisk as Disk>⟧.spare_bytes self.new) }
        ensures call { (⟦<MemoryDisk as Disk>⟧.counter self.new).calls ≡ counted (⟦<MemoryDisk as Disk>⟧.counter self.old).calls }
        ensures once { OnOk result (Once (⟦<MemoryDisk as Disk>⟧.counter self.old) (⟦<MemoryDisk as Disk>⟧.counter self.new)) }
        ensures counts { Counts (⟦<MemoryDisk as Disk>⟧.counter self.old) (⟦<MemoryDisk as Disk>⟧.counter self.new) (IsErr result) }
        ensures answers { Answers (met (⟦<MemoryDisk as Disk>⟧.counter self.old).arms) result }
        ensures called { ⟦<MemoryDisk as Disk>⟧.counter self.new ≡ called (⟦<MemoryDisk as Disk>⟧.counter self.old) }
        ensures spends { (⟦<MemoryDisk as Disk>⟧.spare_calls self.new + 1 ≡ ⟦<MemoryDisk as Disk>⟧.spare_calls self.old)
            × (⟦<MemoryDisk as Disk>⟧.spare_bytes self.new ≡ ⟦<MemoryDisk as Disk>⟧.spare_bytes self.old) }
        ensures becomes { ⟦<MemoryDisk as Disk>⟧.told self.new
            ≡ option_map (after_change (take to) (met (⟦<MemoryDisk as Disk>⟧.counter self.old).arms)) (⟦<MemoryDisk as Disk>⟧.told self.old) }
    {
        let meets = self.queue.call();
        self.file.cut(to as usize, meets);
        answer(meets)
    }

    fn sync(&mut self) -> Result<(), Failed>
        requires room { 1 ≤ ⟦<MemoryDisk as Disk>⟧.spare_calls self.old }
        ensures held { Follows (⟦<MemoryDisk as Disk>⟧.told self.old) (⟦<MemoryDisk as Disk>⟧.told self.new) (Syncs result) }
        ensures spare { (⟦<MemoryDisk as Disk>⟧.spare_calls self.old ≤ ⟦<MemoryDisk as Disk>⟧.spare_calls self.new + 1)
            × (⟦<MemoryDisk as Disk>⟧.spare_bytes self.old ≤ ⟦<MemoryDisk as Disk>⟧.spare_bytes self.new) }
        ensures call { (⟦<MemoryDisk as Disk>⟧.counter self.new).calls ≡ counted (⟦<MemoryDisk as Disk>⟧.counter self.old).calls }
        ensures once { OnOk result (Once (⟦<MemoryDisk as Disk>⟧.counter self.old) (⟦<MemoryDisk as Disk>⟧.counter self.new)) }
        ensures counts { Counts (⟦<MemoryDisk as Disk>⟧.counter self.old) (⟦<MemoryDisk as Disk>⟧.counter self.new) (IsErr result) }
        ensures answers { Answers (met (⟦<MemoryDisk as Disk>⟧.counter self.old).arms) result }
        ensures called { ⟦<MemoryDisk as Disk>⟧.counter self.new ≡ called (⟦<MemoryDisk as Disk>⟧.counter self.old) }
        ensures spends { (⟦<MemoryDisk as Disk>⟧.spare_calls self.new + 1 ≡ ⟦<MemoryDisk as Disk>⟧.spare_calls self.old)
            × (⟦<MemoryDisk as Disk>⟧.spare_bytes self.new ≡ ⟦<MemoryDisk as Disk>⟧.spare_bytes self.old) }
        ensures becomes { ⟦<MemoryDisk as Disk>⟧.told self.new
            ≡ option_map (after_sync (met (⟦<MemoryDisk as Disk>⟧.counter self.old).arms)) (⟦<MemoryDisk as Disk>⟧.told self.old) }
    {
        let meets = self.queue.call();
        self.file.sync(meets);
        answer(meets)
    }
}
