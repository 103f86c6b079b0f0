ghost use Rattle.std.specs.Prelude.{◌≡◌, ◌+◌, ◌≤◌, ℕ, length, OnOk, IsErr};
ghost use Rattle.std.specs.declared.option.Option.{Option};
ghost use Rattle.zbase.specs.Faults.{Counter, Counts, Once};
ghost use Rattle.zdisk.specs.Disk.{Told, GivesLength, HasRange, GivesRange, HasPlace, counted};
ghost use Rattle.zdisk.specs.Calls.{Follows, Writes, Cuts, Syncs};

use zbase::{Failed, Memory};

/// One file on a device. Every call but `reserve` is one device call, and no call but `reserve` takes memory.
///
/// A disk in memory tells what its file has held, and clauses on content speak of disks that tell. An adapter
/// over a real file tells only its counts: nothing is assumed of what it holds.
///
/// What has been written may be lost, byte by byte, until a sync succeeds: `specs/Images` says what a stop may
/// leave. A call that failed leaves the file in any state between before and after: a write or a cut any mixture
/// of the two, byte by byte, a sync any one of the images. A read that failed changes nothing.
pub trait Disk {
    /// What the file has held, where the disk tells.
    ghost told: { Self → Option Told };

    /// How many device calls the disk has had, how often it has failed, whether it can fail at all, and what is armed.
    ghost counter: { Self → Counter };

    /// For how many calls of `write_at`, `cut` and `sync` there is room.
    ghost spare_calls: { Self → ℕ };

    /// For how many bytes that are written there is room.
    ghost spare_bytes: { Self → ℕ };

    /// Makes room for so many calls of `write_at`, `cut` and `sync`, and for so many bytes that they write. It is
    /// no device call. For want of memory the file stays, and the room that there was.
    fn reserve(&mut self, calls: u64, bytes: u64) -> Result<(), Memory>
        ensures room { OnOk result ((calls ≤ spare_calls self.new) × (bytes ≤ spare_bytes self.new)) }
        ensures kept { (spare_calls self.old ≤ spare_calls self.new) × (spare_bytes self.old ≤ spare_bytes self.new) }
        ensures same { told self.new ≡ told self.old }
        ensures uncalled { counter self.new ≡ counter self.old };

    /// The length of the file in bytes.
    fn len(&mut self) -> Result<u64, Failed>
        ensures value { GivesLength (told self.old) result }
        ensures same { told self.new ≡ told self.old }
        ensures spare { (spare_calls self.new ≡ spare_calls self.old) × (spare_bytes self.new ≡ spare_bytes self.old) }
        ensures call { (counter self.new).calls ≡ counted (counter self.old).calls }
        ensures once { OnOk result (Once (counter self.old) (counter self.new)) }
        ensures counts { Counts (counter self.old) (counter self.new) (IsErr result) };

    /// Fills the buffer with the bytes at a place, counted from the start of the file.
    fn read_at(&mut self, at: u64, buf: &mut [u8]) -> Result<(), Failed>
        requires within { HasRange (told self.old) at (length buf.old) }
        ensures value { GivesRange (told self.old) at result buf.new }
        ensures same { told self.new ≡ told self.old }
        ensures spare { (spare_calls self.new ≡ spare_calls self.old) × (spare_bytes self.new ≡ spare_bytes self.old) }
        ensures call { (counter self.new).calls ≡ counted (counter self.old).calls }
        ensures once { OnOk result (Once (counter self.old) (counter self.new)) }
        ensures counts { Counts (counter self.old) (counter self.new) (IsErr result) };

    /// Puts bytes at a place, over what stands there and past the end of the file.
    fn write_at(&mut self, at: u64, bytes: &[u8]) -> Result<(), Failed>
        requires within { HasPlace (told self.old) at }
        requires room { 1 ≤ spare_calls self.old }
        requires space { length bytes.now ≤ spare_bytes self.old }
        ensures held { Follows (told self.old) (told self.new) (Writes at bytes.now result) }
        ensures spare { (spare_calls self.old ≤ spare_calls self.new + 1) × (spare_bytes self.old ≤ spare_bytes self.new + length bytes.now) }
        ensures call { (counter self.new).calls ≡ counted (counter self.old).calls }
        ensures once { OnOk result (Once (counter self.old) (counter self.new)) }
        ensures counts { Counts (counter self.old) (counter self.new) (IsErr result) };

    /// Makes the file as short as this.
    fn cut(&mut self, to: u64) -> Result<(), Failed>
        requires within { HasPlace (told self.old) to }
        requires room { 1 ≤ spare_calls self.old }
        ensures held { Follows (told self.old) (told self.new) (Cuts to result) }
        ensures spare { (spare_calls self.old ≤ spare_calls self.new + 1) × (spare_bytes self.old ≤ spare_bytes self.new) }
        ensures call { (counter self.new).calls ≡ counted (counter self.old).calls }
        ensures once { OnOk result (Once (counter self.old) (counter self.new)) }
        ensures counts { Counts (counter self.old) (counter self.new) (IsErr result) };

    /// Brings the file's data and its length to the device: from then on what reads give is what a stop leaves.
    fn sync(&mut self) -> Result<(), Failed>
        requires room { 1 ≤ spare_calls self.old }
        ensures held { Follows (told self.old) (told self.new) (Syncs result) }
        ensures spare { (spare_calls self.old ≤ spare_calls self.new + 1) × (spare_bytes self.old ≤ spare_bytes self.new) }
        ensures call { (counter self.new).calls ≡ counted (counter self.old).calls }
        ensures once { OnOk result (Once (counter self.old) (counter self.new)) }
        ensures counts { Counts (counter self.old) (counter self.new) (IsErr result) };
}
