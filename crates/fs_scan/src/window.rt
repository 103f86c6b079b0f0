ghost use Rattle.std.specs.Prelude.{◌≡◌, ◌+◌, ◌≤◌, [], ℕ, IfOk, IfSome, IsErr, IsErrOf, OnErr, OnOk, length, take};
ghost use Rattle.std.specs.Option.{ForSome};
ghost use Rattle.zdisk.specs.Disk.{HasRange, bytes_at, content};
ghost use Rattle.fs_record.specs.declared.damage.Damage.{Damage as Kind};
ghost use Rattle.fs_scan.specs.OnlyReads.{OnlyReads};

use crate::ScanRefusal;
use std::alloc::Global;
use std::marker::Model;
use zbase::Failed;
use zdisk::Disk;

/// So many bytes at a place of a disk's file.
pub fn read_range<D: Disk>(
    alloc: Global,
    disk: &mut D,
    at: u64,
    size: u64,
) -> Result<Vec<u8>, ScanRefusal>
    requires { HasRange (D.told disk.old) at size }
    ensures bytes { IfOk result (λ bytes. IfSome (D.told disk.old) (λ told. bytes.items ≡ bytes_at told at size)) }
    ensures size { IfOk result (λ bytes. length bytes.items ≡ size) }
    ensures undamaged { (kind : Kind) (place : ℕ) → IsErrOf result (ScanRefusal.Damaged kind place) → ⊥ }
    ensures reads { (D.counter disk.new).calls ≤ (D.counter disk.old).calls + 1 }
    ensures only_reads { OnlyReads D.Disk disk.old disk.new (IsErrOf result ScanRefusal.Disk) }
{
    let mut bytes = vec![in alloc; 0u8; size as usize]?;
    disk.read_at(at, &mut bytes)?;
    Ok(bytes)
}

// Fills the front of a buffer with so many bytes at a place.
fn read_front<D: Disk>(disk: &mut D, at: u64, buffer: &mut [u8], size: usize) -> Result<(), Failed>
    requires range { HasRange (D.told disk.old) at size }
    requires room { size ≤ length buffer.old }
    ensures bytes { OnOk result (IfSome (D.told disk.old) (λ told. take size buffer.new ≡ bytes_at told at size)) }
    ensures long { length buffer.new ≡ length buffer.old }
    ensures reads { (D.counter disk.new).calls ≤ (D.counter disk.old).calls + 1 }
    ensures only_reads { OnlyReads D.Disk disk.old disk.new (IsErr result) }
{
    disk.read_at(at, &mut buffer[..size])
}

/// Bytes of a disk's file, seen as those that were read last. The buffer stays from one reading to the next, so that it is
/// filled only where it grows.
#[derive(Drop)]
pub(crate) struct Window {
    buffer: Vec<u8>,
    /// How many bytes were read last, from the buffer's start on.
    long: usize,
}

impl Model for Window {
    ghost use Rattle.std.specs.Prelude.{◌≤◌, List, ℕ, length, take};

    ghost Value = { List ℕ };

    ghost view = { λ window. take window.long window.buffer.items };

    ghost invariant = { λ window. window.long ≤ length window.buffer.items };
}

impl Window {
    /// No byte. Takes no memory.
    pub(crate) fn new(alloc: Global) -> Window
        ensures { result ≡ [] }
    {
        Window {
            buffer: Vec::new(alloc),
            long: 0,
        }
    }

    /// The bytes that were read last.
    pub(crate) fn as_slice(&self) -> &[u8]
        ensures { result.now ≡ self.now }
    {
        &self.buffer[..self.long]
    }

    /// Reads so many bytes at a place, with one device call; none are shown where it fails.
    pub(crate) fn read<D: Disk>(
        &mut self,
        disk: &mut D,
        at: u64,
        size: u64,
    ) -> Result<(), ScanRefusal>
        requires { HasRange (D.told disk.old) at size }
        ensures bytes { OnOk result (IfSome (D.told disk.old) (λ told. self.new ≡ bytes_at told at size)) }
        ensures size { OnOk result (length self.new ≡ size) }
        ensures none { OnErr result (self.new ≡ []) }
        ensures undamaged { (kind : Kind) (place : ℕ) → IsErrOf result (ScanRefusal.Damaged kind place) → ⊥ }
        ensures reads { (D.counter disk.new).calls ≤ (D.counter disk.old).calls + 1 }
        ensures only_reads { OnlyReads D.Disk disk.old disk.new (IsErrOf result ScanRefusal.Disk) }
    {
        self.long = 0;
        let size = size as usize;
        if self.buffer.len() < size {
            self.buffer.resize(size, 0)?;
        }
        read_front(disk, at, self.buffer.as_mut_slice(), size)?;
        self.long = size;
        Ok(())
    }
}
