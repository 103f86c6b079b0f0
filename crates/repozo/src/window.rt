ghost use Rattle.std.specs.Prelude.{◌≡◌, ◌+◌, ◌*◌, ◌<◌, ◌≤◌, ◌^◌, IfOk, OnOk, IfSome, IsErrOf, is_some, length};
ghost use Rattle.std.specs.Option.{ForSome};
ghost use Rattle.zbase.specs.Faults.{Counts};
ghost use Rattle.zdisk.specs.Disk.{HasRange, bytes_at, content};
ghost use Rattle.repozo.specs.Disks.{Appended, Grows};

use md5::{Digest, Md5};
use std::alloc::{AllocError, Global};
use zdisk::Disk;

/// How many bytes are read and written at once.
pub(crate) const WINDOW: u64 = 65_536;

/// Which of two disks failed while bytes were copied.
#[derive(Clone, Copy, Debug, PartialEq, Eq)]
pub(crate) enum Side {
    /// The one that was read.
    From,
    /// The one that was written.
    To,
}

/// A window, which has room for so many bytes.
pub(crate) fn new_window(alloc: Global) -> Result<Vec<u8>, AllocError>
    ensures { IfOk result (λ window. length window.items ≡ WINDOW) }
{
    vec![in alloc; 0u8; WINDOW as usize]
}

// Reads as many bytes as the window has room for, and puts them behind what the other disk holds.
#[tactic(auto, using(crate::proofs::Windows::follows_tells))]
fn append_window<D: Disk, O: Disk>(
    from: &mut D,
    start: u64,
    to: &mut O,
    at: u64,
    window: &mut [u8],
) -> Result<(), Side>
    requires within { HasRange (D.told from.old) start (length window.old) }
    requires end { ForSome (O.told to.old) (λ told. length (content told) ≡ at) }
    requires room { 1 ≤ O.spare_calls to.old }
    requires space { length window.old ≤ O.spare_bytes to.old }
    ensures read { OnOk result (IfSome (D.told from.old) (λ told. window.new ≡ bytes_at told start (length window.old))) }
    ensures grown { OnOk result (Grows (O.told to.old) (O.told to.new) window.new) }
    ensures spare { OnOk result ((O.spare_calls to.old ≤ O.spare_calls to.new + 1) × (O.spare_bytes to.old ≤ O.spare_bytes to.new + length window.old)) }
    ensures tells { is_some (O.told to.new) ≡ is_some (O.told to.old) }
    ensures same { D.told from.new ≡ D.told from.old }
    ensures from_counts { Counts (D.counter from.old) (D.counter from.new) (IsErrOf result Side.From) }
    ensures to_counts { Counts (O.counter to.old) (O.counter to.new) (IsErrOf result Side.To) }
{
    from.read_at(start, window).map_err(|_| Side::From)?;
    to.write_at(at, window).map_err(|_| Side::To)?;
    Ok(())
}

/// Puts so many bytes of one disk from a place on behind what the other holds, and into the digest.
pub(crate) fn append_part<D: Disk, O: Disk>(
    from: &mut D,
    start: u64,
    size: u64,
    to: &mut O,
    at: u64,
    window: &mut [u8],
    hasher: &mut Md5,
) -> Result<(), Side>
    requires within { HasRange (D.told from.old) start size }
    requires end { ForSome (O.told to.old) (λ told. length (content told) ≡ at) }
    requires reach { start + size < 2 ^ 64 }
    requires behind { at + size < 2 ^ 64 }
    requires window { length window.old ≡ 65536 }
    requires room { size + 65536 ≤ 65536 * O.spare_calls to.old }
    requires space { size ≤ O.spare_bytes to.old }
    ensures appended { OnOk result (Appended (D.told from.old) start size (O.told to.old) (O.told to.new) hasher.old hasher.new) }
    ensures spare { OnOk result ((65536 * O.spare_calls to.old ≤ 65536 * O.spare_calls to.new + size + 65535)
        × (O.spare_bytes to.old ≤ O.spare_bytes to.new + size)) }
    ensures tells { is_some (O.told to.new) ≡ is_some (O.told to.old) }
    ensures same { D.told from.new ≡ D.told from.old }
    ensures from_counts { Counts (D.counter from.old) (D.counter from.new) (IsErrOf result Side.From) }
    ensures to_counts { Counts (O.counter to.old) (O.counter to.new) (IsErrOf result Side.To) }
{
    let mut done = 0;
    'copying: while done < size {
        let count = (size - done).min(WINDOW);
        let next = &mut window[..count as usize];
        append_window(from, start + done, to, at + done, next)?;
        hasher.update(&*next);
        done += count;
    }
    Ok(())
}
