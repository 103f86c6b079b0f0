ghost use Rattle.std.specs.Prelude.{◌≡◌, ◌+◌, ◌≤◌, length, max, min, take, IfOk, OnErr, OnOk};
ghost use Rattle.zdisk.specs.Calls.{put};
ghost use Rattle.zdisk.specs.Disk.{bytes_at, content, synced};
ghost use Rattle.zdisk.specs.Effects.{after_change, after_sync, brings, faults_left, image_left, more, needs};
ghost use Rattle.zdisk.specs.Keeping.{told_in};
ghost use Rattle.zdisk.specs.Room.{room_for};
ghost use Rattle.zdisk.specs.Seeds.{image_of};

use crate::queue::Met;
use crate::record::{Entry, cover, note, push_all};
use crate::recorded::RecordedFile;
use crate::seeds::{fill, length_by, takes_new};
use crate::undoing::{lowest, mix};
use zbase::{Bytes, Memory};

impl RecordedFile {
    /// A synced file of these bytes, with room for no call. Takes no memory.
    pub fn new(bytes: Bytes) -> RecordedFile
        ensures told { told_in result ≡ synced bytes }
        ensures spare { (result.calls ≡ 0) × (result.spare ≡ 0) }
    {
        let alloc = bytes.alloc();
        let bytes = bytes.into_vec();
        RecordedFile {
            len: bytes.len(),
            bytes,
            covered: Vec::new(alloc),
            entries: Vec::new(alloc),
            calls: 0,
            spare: 0,
            faults: 0,
        }
    }

    /// The length of the file.
    pub fn len(&self) -> usize
        ensures { result ≡ length (content (told_in self.now)) }
    {
        self.len
    }

    /// Fills the buffer with the bytes at a place.
    pub fn read(&self, at: usize, buf: &mut [u8])
        requires within { at + length buf.old ≤ length (content (told_in self.now)) }
        ensures { buf.new ≡ bytes_at (told_in self.now) at (length buf.new) }
    {
        buf.copy_from_slice(&self.bytes[at..at + buf.len()]);
    }

    /// Makes room for so many calls that may change the file, and for so many bytes that writes bring, where there was less, while
    /// so many entries wait. For want of memory the room that there was stays.
    pub fn reserve(&mut self, calls: usize, bytes: usize, waiting: usize) -> Result<(), Memory>
        ensures told { told_in self.new ≡ told_in self.old }
        ensures room { OnOk result ((self.new.calls ≡ max self.old.calls calls) × (self.new.spare ≡ max self.old.spare bytes)) }
        ensures kept { OnErr result ((self.new.calls ≡ self.old.calls) × (self.new.spare ≡ self.old.spare)) }
        ensures faults { OnOk result (min self.new.calls waiting ≤ self.new.faults) }
        ensures faults_kept { OnErr result (self.new.faults ≡ self.old.faults) }
    {
        let calls = self.calls.max(calls);
        self.make_room(calls, self.spare.max(bytes), calls.min(waiting))
    }

    /// Gives up the room for calls that may change the file, but for as many as may fail.
    pub fn keep_calls(&mut self)
        ensures told { told_in self.new ≡ told_in self.old }
        ensures spare { (self.new.calls ≡ min self.old.calls self.old.faults) × (self.new.spare ≡ self.old.spare) }
        ensures faults { self.new.faults ≡ self.old.faults }
    {
        self.calls = self.calls.min(self.faults);
    }

    /// Makes room for those of the calls for which there is room to fail, while so many entries wait. For want of memory the room
    /// that there was stays.
    pub fn reserve_faults(&mut self, waiting: usize) -> Result<(), Memory>
        ensures told { told_in self.new ≡ told_in self.old }
        ensures spare { (self.new.calls ≡ self.old.calls) × (self.new.spare ≡ self.old.spare) }
        ensures room { OnOk result (min self.new.calls waiting ≤ self.new.faults) }
        ensures kept { OnErr result (self.new.faults ≡ self.old.faults) }
    {
        self.make_room(self.calls, self.spare, self.calls.min(waiting))
    }

    // Makes room for so many calls that may change the file, for so many bytes that writes bring, and for so many calls that
    // fail.
    fn make_room(&mut self, calls: usize, spare: usize, faults: usize) -> Result<(), Memory>
        ensures told { told_in self.new ≡ told_in self.old }
        ensures room { OnOk result ((self.new.calls ≡ calls) × (self.new.spare ≡ spare) × (self.new.faults ≡ faults)) }
        ensures kept { OnErr result ((self.new.calls ≡ self.old.calls) × (self.new.spare ≡ self.old.spare) × (self.new.faults ≡ self.old.faults)) }
    {
        let room = room_of(self.bytes.len(), spare, faults)?;
        self.bytes.reserve(spare)?;
        self.covered.reserve(room)?;
        self.entries.reserve(calls)?;
        self.calls = calls;
        self.spare = spare;
        self.faults = faults;
        Ok(())
    }

    /// A write, which meets this.
    pub fn write(&mut self, at: usize, piece: &[u8], meets: Met)
        requires within { at ≤ length (content (told_in self.old)) }
        requires room { 1 ≤ self.old.calls }
        requires space { length piece.now ≤ self.old.spare }
        requires faults { needs meets ≤ self.old.faults }
        ensures told { told_in self.new ≡ after_change (put at piece.now) meets (told_in self.old) }
        ensures spare { (self.new.calls + 1 ≡ self.old.calls) × (self.new.spare + brings meets (length piece.now) ≡ self.old.spare) }
        ensures faults { self.new.faults ≡ faults_left meets self.old.faults }
    {
        match meets {
            Met::Nothing | Met::Stop(_) => self.write_whole(at, piece),
            Met::Failure(seed) => self.write_mixed(at, piece, seed),
            Met::Stopped => self.keep(),
        }
    }

    /// A cut, which meets this.
    pub fn cut(&mut self, to: usize, meets: Met)
        requires within { to ≤ length (content (told_in self.old)) }
        requires room { 1 ≤ self.old.calls }
        requires faults { needs meets ≤ self.old.faults }
        ensures told { told_in self.new ≡ after_change (take to) meets (told_in self.old) }
        ensures spare { (self.new.calls + 1 ≡ self.old.calls) × (self.new.spare ≡ self.old.spare) }
        ensures faults { self.new.faults ≡ faults_left meets self.old.faults }
    {
        match meets {
            Met::Nothing | Met::Stop(_) => self.cut_whole(to),
            Met::Failure(seed) => self.cut_mixed(to, seed),
            Met::Stopped => self.keep(),
        }
    }

    /// A sync, which meets this.
    pub fn sync(&mut self, meets: Met)
        requires room { 1 ≤ self.old.calls }
        requires faults { needs meets ≤ self.old.faults }
        ensures told { told_in self.new ≡ after_sync meets (told_in self.old) }
        ensures spare { (self.new.calls + 1 ≡ self.old.calls) × (self.new.spare ≡ self.old.spare) }
        ensures faults { self.new.faults ≡ faults_left meets self.old.faults }
    {
        match meets {
            Met::Nothing => {
                self.calls -= 1;
                note(&mut self.entries, Entry::Sync);
            }
            Met::Failure(seed) => self.sync_mixed(seed),
            Met::Stop(_) | Met::Stopped => self.keep(),
        }
    }

    /// The file becomes the image that a stop with this seed leaves, which is synced and has no record. The room that the record
    /// took is spare again, but where there isn't room for as many calls that fail as wait.
    pub fn settle(&mut self, seed: u64, waiting: usize)
        requires { min self.old.calls waiting ≤ self.old.faults }
        ensures told { told_in self.new ≡ synced (image_left seed (told_in self.old)) }
        ensures spare { (self.old.calls ≤ self.new.calls) × (self.new.spare ≡ self.old.spare) }
        ensures gives_back { waiting ≡ 0 → self.new.calls ≡ self.old.calls + length (told_in self.old).earlier }
        ensures room { min self.new.calls waiting ≤ self.new.faults }
        ensures faults { self.new.faults ≡ self.old.faults }
    {
        self.take_back(seed);
        if self.faults < waiting {
            self.calls = self.calls.min(self.faults);
        }
    }

    // The file becomes the image that a stop with this seed leaves, which is synced and has no record. The room that the record
    // took is spare again.
    fn take_back(&mut self, seed: u64)
        ensures told { told_in self.new ≡ synced (image_left seed (told_in self.old)) }
        ensures spare { (self.new.calls ≡ self.old.calls + length (told_in self.old).earlier) × (self.new.spare ≡ self.old.spare) }
        ensures faults { self.new.faults ≡ self.old.faults }
    {
        self.len = mix(
            &mut self.bytes,
            &self.covered,
            self.len,
            &self.entries,
            seed,
        );
        self.covered.clear();
        self.calls += self.entries.len();
        self.entries.clear();
    }

    // The call leaves the file as it was.
    fn keep(&mut self)
        requires room { 1 ≤ self.old.calls }
        ensures told { told_in self.new ≡ more (content (told_in self.old)) (told_in self.old) }
        ensures spare { (self.new.calls + 1 ≡ self.old.calls) × (self.new.spare ≡ self.old.spare) }
        ensures faults { self.new.faults ≡ self.old.faults }
    {
        self.calls -= 1;
        note(&mut self.entries, Entry::Failed);
    }

    fn write_whole(&mut self, at: usize, piece: &[u8])
        requires within { at ≤ length (content (told_in self.old)) }
        requires room { 1 ≤ self.old.calls }
        requires space { length piece.now ≤ self.old.spare }
        ensures told { told_in self.new ≡ more (put at piece.now (content (told_in self.old))) (told_in self.old) }
        ensures spare { (self.new.calls + 1 ≡ self.old.calls) × (self.new.spare + length piece.now ≡ self.old.spare) }
        ensures faults { self.new.faults ≡ self.old.faults }
    {
        let covered = cover(&mut self.bytes, &mut self.covered, at, piece);
        self.calls -= 1;
        self.spare -= piece.len();
        let entry = Entry::Write {
            at,
            written: piece.len(),
            covered,
            len: self.len,
        };
        note(&mut self.entries, entry);
        self.len = self.len.max(at + piece.len());
    }

    // A write that fails leaves the image that the seed names, of the file before and after.
    fn write_mixed(&mut self, at: usize, piece: &[u8], seed: u64)
        requires within { at ≤ length (content (told_in self.old)) }
        requires room { 1 ≤ self.old.calls }
        requires space { length piece.now ≤ self.old.spare }
        requires faults { 1 ≤ self.old.faults }
        ensures told { told_in self.new ≡ more (image_of seed (content (told_in self.old)) (put at piece.now (content (told_in self.old)))) (told_in self.old) }
        ensures spare { (self.new.calls + 1 ≡ self.old.calls) × (self.new.spare + length piece.now ≡ self.old.spare) }
        ensures faults { self.new.faults + 1 ≡ self.old.faults }
    {
        let from = self.covered.len();
        let covered = cover(&mut self.bytes, &mut self.covered, at, piece);
        self.calls -= 1;
        self.spare -= piece.len();
        self.faults -= 1;
        let end = at + piece.len();
        // Past its end the file had no bytes, but the buffer may have had some that cuts left.
        let old = &self.covered[from..from + covered.min(self.len - at)];
        fill(&mut self.bytes, false, at, end, old, seed);
        let entry = Entry::Write {
            at,
            written: piece.len(),
            covered,
            len: self.len,
        };
        note(&mut self.entries, entry);
        self.len = length_by(seed, self.len, self.len.max(end));
    }

    fn cut_whole(&mut self, to: usize)
        requires within { to ≤ length (content (told_in self.old)) }
        requires room { 1 ≤ self.old.calls }
        ensures told { told_in self.new ≡ more (take to (content (told_in self.old))) (told_in self.old) }
        ensures spare { (self.new.calls + 1 ≡ self.old.calls) × (self.new.spare ≡ self.old.spare) }
        ensures faults { self.new.faults ≡ self.old.faults }
    {
        self.calls -= 1;
        note(&mut self.entries, Entry::Cut { len: self.len });
        self.len = to;
    }

    // A cut that fails leaves the image that the seed names, of the file before and after.
    fn cut_mixed(&mut self, to: usize, seed: u64)
        requires within { to ≤ length (content (told_in self.old)) }
        requires room { 1 ≤ self.old.calls }
        requires faults { 1 ≤ self.old.faults }
        ensures told { told_in self.new ≡ more (image_of seed (content (told_in self.old)) (take to (content (told_in self.old)))) (told_in self.old) }
        ensures spare { (self.new.calls + 1 ≡ self.old.calls) × (self.new.spare ≡ self.old.spare) }
        ensures faults { self.new.faults + 1 ≡ self.old.faults }
    {
        let count = self.len - to;
        push_all(&mut self.covered, &self.bytes[to..self.len]);
        self.calls -= 1;
        self.faults -= 1;
        // Where the seed takes the cut file, there is no byte.
        fill(&mut self.bytes, true, to, self.len, &[], seed);
        let entry = Entry::Write {
            at: to,
            written: count,
            covered: count,
            len: self.len,
        };
        note(&mut self.entries, entry);
        self.len = length_by(seed, self.len, to);
    }

    // A sync that fails leaves the image that the seed names, of what was last synced and the file.
    fn sync_mixed(&mut self, seed: u64)
        requires room { 1 ≤ self.old.calls }
        requires faults { 1 ≤ self.old.faults }
        ensures told { told_in self.new ≡ more (image_left seed (told_in self.old)) (told_in self.old) }
        ensures spare { (self.new.calls + 1 ≡ self.old.calls) × (self.new.spare ≡ self.old.spare) }
        ensures faults { self.new.faults + 1 ≡ self.old.faults }
    {
        let kept = self.covered.len();
        let len = self.len;
        // Below this place the image has what the file has.
        let at = lowest(len, &self.entries);
        let count = self.bytes.len() - at;
        push_all(&mut self.covered, &self.bytes[at..]);
        self.calls -= 1;
        self.faults -= 1;
        self.len = mix(
            &mut self.bytes,
            &self.covered[..kept],
            len,
            &self.entries,
            seed,
        );
        let entry = Entry::Write {
            at,
            written: count,
            covered: count,
            len,
        };
        note(&mut self.entries, entry);
    }
}

// For how many covered bytes there must be room, beside a buffer of so many bytes, where writes may bring so many and so
// many calls may fail.
#[tactic(auto, using(crate::proofs::Covering::room_is))]
fn room_of(bytes: usize, spare: usize, faults: usize) -> Result<usize, Memory>
    ensures { IfOk result (λ room. room ≡ spare + room_for faults (bytes + spare)) }
{
    let Some(most) = bytes.checked_add(spare) else {
        return Err(Memory);
    };
    let Some(kept) = faults.checked_mul(most) else {
        return Err(Memory);
    };
    match spare.checked_add(kept) {
        Some(room) => Ok(room),
        None => Err(Memory),
    }
}
