ghost use Rattle.std.specs.Prelude.{◌≡◌, ◌≤◌, [], None, false, true, OnErr, OnOk};
ghost use Rattle.std.specs.List.{list_any};
ghost use Rattle.zbase.specs.Faults.{IsFaultless, IsWaiting};
ghost use Rattle.zdisk.specs.Arming.{taking};
ghost use Rattle.fs_store.specs.Arming.{arming, disarming};
ghost use Rattle.fs_store.specs.Stores.{on_disk};
ghost use Rattle.txn_core.specs.Cores.{is_taken};

use crate::Core;
use evaluator::Evaluator;
use fs_store::Store;
use std::mem;
use zbase::Memory;
use zdisk::MemoryDisk;

// Workers over a disk in memory pass on what is armed; nothing else of them changes.
impl<E: Evaluator> Core<MemoryDisk, E> {
    /// Arms a stop of the disk: the last of so many device calls fails, and so does each call from then on. For want of
    /// memory nothing is armed.
    pub fn arm_stop(&mut self, calls: u64, seed: u64) -> Result<(), Memory>
        requires { 1 ≤ calls }
        ensures armed { OnOk result (self.new ≡ record
            { store = on_disk self.old.store (arming self.old.store.disk (record { stops = true; calls = calls; seed = seed })); slots = self.old.slots }) }
        ensures kept { OnErr result (self.new ≡ self.old) }
        ensures same { (self.new.store ≡ on_disk self.old.store self.new.store.disk) × (self.new.store.disk.told ≡ self.old.store.disk.told)
            × (self.new.slots ≡ self.old.slots) }
    {
        self.store.arm_stop(calls, seed)
    }

    /// Arms a failure of the disk: the last of so many device calls fails. For want of memory nothing is armed.
    pub fn arm_fail(&mut self, calls: u64, seed: u64) -> Result<(), Memory>
        requires { 1 ≤ calls }
        ensures armed { OnOk result (self.new ≡ record
            { store = on_disk self.old.store (arming self.old.store.disk (record { stops = false; calls = calls; seed = seed })); slots = self.old.slots }) }
        ensures kept { OnErr result (self.new ≡ self.old) }
        ensures same { (self.new.store ≡ on_disk self.old.store self.new.store.disk) × (self.new.store.disk.told ≡ self.old.store.disk.told)
            × (self.new.slots ≡ self.old.slots) }
    {
        self.store.arm_fail(calls, seed)
    }

    /// Takes all that waits out of the disk's queue.
    pub fn disarm(&mut self)
        ensures { self.new ≡ record { store = on_disk self.old.store (disarming self.old.store.disk); slots = self.old.slots } }
    {
        self.store.disarm();
    }

    /// Goes on over another store, in which no vote is out and on whose disk nothing is armed and was hit, where no worker has a
    /// request. Its disk takes over what waits on the old one, with the calls that are left to the first, and what was hit
    /// there. Takes no memory.
    pub fn replace(&mut self, store: Store<MemoryDisk>)
        requires rest { list_any is_taken self.old.slots ≡ false }
        requires running { self.old.store.disk.counter.arms.stopped ≡ false }
        requires idle { store.out ≡ None }
        requires unarmed { store.disk.counter.arms.queue ≡ [] }
        requires unhit { store.disk.counter.arms.hits ≡ [] }
        requires new_running { store.disk.counter.arms.stopped ≡ false }
        ensures store { self.new.store ≡ on_disk store self.new.store.disk }
        ensures told { self.new.store.disk.told ≡ store.disk.told }
        ensures taken { self.new.store.disk.counter ≡ taking store.disk.counter self.old.store.disk.counter }
        ensures slots { self.new.slots ≡ self.old.slots }
    {
        let old = mem::replace(&mut self.store, store);
        self.store.take_queue(old.into_disk());
    }

    /// Whether a stop was hit. If not, the first entry that waits is hit by a later call, and where none waits no call
    /// can fail.
    pub fn stopped(&self) -> bool
        ensures value { result ≡ self.now.store.disk.counter.arms.stopped }
        ensures waits { IsWaiting self.now.store.disk.counter.arms }
        ensures calm { self.now.store.disk.counter.arms.queue ≡ [] → self.now.store.disk.counter.arms.stopped ≡ false
            → IsFaultless self.now.store.disk.counter }
    {
        self.store.stopped()
    }
}
