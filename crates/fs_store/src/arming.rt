ghost use Rattle.std.specs.Prelude.{◌≡◌, ◌≤◌, [], None, false, true, OnErr, OnOk};
ghost use Rattle.zbase.specs.Faults.{IsFaultless, IsWaiting};
ghost use Rattle.zdisk.specs.Arming.{taking};
ghost use Rattle.fs_store.specs.Arming.{arming, disarming};
ghost use Rattle.fs_store.specs.Stores.{on_disk};

use crate::Store;
use zbase::Memory;
use zdisk::{Disk, MemoryDisk};

// A store over a disk in memory passes on what is armed; nothing else of it changes.
impl Store<MemoryDisk> {
    /// Arms a stop of the disk: the last of so many device calls fails, and so does each call from then on. For want of
    /// memory nothing is armed.
    pub fn arm_stop(&mut self, calls: u64, seed: u64) -> Result<(), Memory>
        requires { 1 ≤ calls }
        ensures armed { OnOk result (self.new ≡ on_disk self.old (arming self.old.disk (record { stops = true; calls = calls; seed = seed }))) }
        ensures kept { OnErr result (self.new ≡ self.old) }
        ensures same { (self.new ≡ on_disk self.old self.new.disk) × (self.new.disk.told ≡ self.old.disk.told) }
    {
        self.disk.arm_stop(calls, seed)
    }

    /// Arms a failure of the disk: the last of so many device calls fails. For want of memory nothing is armed.
    pub fn arm_fail(&mut self, calls: u64, seed: u64) -> Result<(), Memory>
        requires { 1 ≤ calls }
        ensures armed { OnOk result (self.new ≡ on_disk self.old (arming self.old.disk (record { stops = false; calls = calls; seed = seed }))) }
        ensures kept { OnErr result (self.new ≡ self.old) }
        ensures same { (self.new ≡ on_disk self.old self.new.disk) × (self.new.disk.told ≡ self.old.disk.told) }
    {
        self.disk.arm_fail(calls, seed)
    }

    /// Takes all that waits out of the disk's queue.
    pub fn disarm(&mut self)
        ensures { self.new ≡ on_disk self.old (disarming self.old.disk) }
    {
        self.disk.disarm();
    }

    /// Takes over what waits on another disk, with the calls that are left to its first, and what was hit there, where no vote is
    /// out. Takes no memory; what the store needs of the disk's room is taken by the next vote.
    pub fn take_queue(&mut self, from: MemoryDisk)
        requires idle { self.old.out ≡ None }
        requires unarmed { self.old.disk.counter.arms.queue ≡ [] }
        requires unhit { self.old.disk.counter.arms.hits ≡ [] }
        requires running { self.old.disk.counter.arms.stopped ≡ false }
        requires from_running { (⟦<MemoryDisk as Disk>⟧.counter from).arms.stopped ≡ false }
        ensures same { self.new ≡ on_disk self.old self.new.disk }
        ensures taken { self.new.disk.counter ≡ taking self.old.disk.counter (⟦<MemoryDisk as Disk>⟧.counter from) }
        ensures told { self.new.disk.told ≡ self.old.disk.told }
    {
        self.disk.take_queue(from);
    }

    /// Whether a stop was hit. If not, the first entry that waits is hit by a later call, and where none waits no call
    /// can fail.
    pub fn stopped(&self) -> bool
        ensures value { result ≡ self.now.disk.counter.arms.stopped }
        ensures waits { IsWaiting self.now.disk.counter.arms }
        ensures calm { self.now.disk.counter.arms.queue ≡ [] → self.now.disk.counter.arms.stopped ≡ false → IsFaultless self.now.disk.counter }
    {
        self.disk.stopped()
    }
}
