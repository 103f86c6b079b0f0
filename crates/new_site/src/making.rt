ghost use Rattle.std.specs.Prelude.{◌≡◌, ◌⊎◌, ◌+◌, ◌<◌, ◌≤◌, [], length, slice_set, OnOk, IfOk, IsErr, IsErrOf};
ghost use Rattle.std.specs.Option.{ForSome};
ghost use Rattle.zbase.specs.Faults.{Counts};
ghost use Rattle.zdisk.specs.Crashes.{Becomes, IsSynced, IsTorn, LeavesFrom};
ghost use Rattle.zdisk.specs.Disk.{content};
ghost use Rattle.zobject.specs.Rules.{Keeps};
ghost use Rattle.zobject.specs.declared.version.Rule.TheVariants.{UserName};
ghost use Rattle.new_site.specs.declared.making.MakeRefusal.TheVariants as refusals;
ghost use Rattle.new_site.specs.Begun.{IsBegun};
ghost use Rattle.new_site.specs.NewSite.{file_with, site_file};

use crate::objects::first_items;
use fs_record::{MAGIC_LEN, STATUS_AT, STATUS_COUNTED, STATUS_WAITING, TxnTexts, write_txn};
use std::alloc::Global;
use zbase::{Bytes, Failed, Memory, Tid};
use zdisk::{Disk, append_and_sync, one_image, overwrite_and_sync};

/// Why a site wasn't made.
#[derive(Debug, Drop)]
pub enum MakeRefusal {
    /// The disk failed. What it holds is no file, or one without transactions, or the whole site.
    Disk,
    /// Want of memory. The disk is as it was.
    Memory,
}

impl From<Failed> for MakeRefusal {
    ghost from_gives = { λ _ refusal. refusal ≡ refusals.Disk };

    fn from(_failed: Failed) -> MakeRefusal {
        MakeRefusal::Disk
    }
}

impl From<Memory> for MakeRefusal {
    ghost from_gives = { λ _ refusal. refusal ≡ refusals.Memory };

    fn from(_memory: Memory) -> MakeRefusal {
        MakeRefusal::Memory
    }
}

// The file whose one transaction has this status.
#[tactic(auto, using(crate::specs::SiteLaws::site_bodies, crate::specs::SiteLaws::site_fits), unfolding(crate::specs::NewSite::file_with))]
fn file_with(
    alloc: Global,
    status: u8,
    stamp: Tid,
    name: &str,
    password: &str,
) -> Result<Bytes, Memory>
    requires name { Keeps UserName name.now }
    ensures { IfOk result (λ bytes. bytes ≡ file_with status stamp name.now password.now) }
{
    let texts = TxnTexts {
        user: Bytes::new(alloc),
        description: Bytes::from_slice(alloc, b"init")?,
        extension: Bytes::new(alloc),
    };
    let items = first_items(alloc, name, password)?;
    let mut bytes = Bytes::from_slice(alloc, b"FS21")?;
    write_txn(
        &mut bytes,
        MAGIC_LEN as u64,
        stamp,
        status,
        &texts,
        items.as_slice(),
    )?;
    Ok(bytes)
}

// Writes a file whose transaction waits into an empty one, and lets it count. These are four device calls, and none after
// one that failed.
fn put_file<D: Disk>(disk: &mut D, waiting: &[u8]) -> Result<(), Failed>
    requires empty { ForSome (D.told disk.old) (λ told. IsSynced told × (content told ≡ [])) }
    requires room { 4 ≤ D.spare_calls disk.old }
    requires space { length waiting.now + 1 ≤ D.spare_bytes disk.old }
    requires long { MAGIC_LEN + STATUS_AT < length waiting.now }
    ensures put { OnOk result (Becomes (D.told disk.old) (D.told disk.new) (λ _. slice_set waiting.now (MAGIC_LEN + STATUS_AT) STATUS_COUNTED)) }
    ensures any_moment { LeavesFrom (D.told disk.old) (D.told disk.new)
        (λ _ image. IsTorn [] waiting.now image ⊎ (image ≡ slice_set waiting.now (MAGIC_LEN + STATUS_AT) STATUS_COUNTED)) }
    ensures counts { Counts (D.counter disk.old) (D.counter disk.new) (IsErr result) }
{
    append_and_sync(disk, 0, waiting)?;
    overwrite_and_sync(disk, (MAGIC_LEN + STATUS_AT) as u64, STATUS_COUNTED)
}

/// The file of a new site, as `make_site` leaves it.
pub fn site_bytes(alloc: Global, stamp: Tid, name: &str, password: &str) -> Result<Bytes, Memory>
    requires { Keeps UserName name.now }
    ensures { IfOk result (λ bytes. bytes ≡ site_file stamp name.now password.now) }
{
    file_with(alloc, STATUS_COUNTED, stamp, name, password)
}

/// Makes a new site in an empty file: a root folder, a user folder with one manager of this name and password, and a
/// start page, by one transaction of this id.
///
/// These are four device calls, and none after one that failed; all memory is taken before the first. A stop at any
/// moment leaves no file (it lacks `FS21`), a file without transactions, or the whole site. The name keeps the rule of
/// users' names.
pub fn make_site<D: Disk>(
    alloc: Global,
    disk: &mut D,
    stamp: Tid,
    name: &str,
    password: &str,
) -> Result<(), MakeRefusal>
    requires empty { ForSome (D.told disk.old) (λ told. IsSynced told × (content told ≡ [])) }
    requires name { Keeps UserName name.now }
    ensures made { OnOk result (Becomes (D.told disk.old) (D.told disk.new) (λ _. site_file stamp name.now password.now)) }
    ensures any_moment { LeavesFrom (D.told disk.old) (D.told disk.new) (λ _ image. IsBegun stamp name.now password.now image) }
    ensures memory { IsErrOf result MakeRefusal.Memory → D.told disk.new ≡ D.told disk.old }
    ensures counts { Counts (D.counter disk.old) (D.counter disk.new) (IsErrOf result MakeRefusal.Disk) }
{
    one_image();
    let bytes = file_with(alloc, STATUS_WAITING, stamp, name, password)?;
    disk.reserve(4, bytes.len() as u64 + 1)?;
    put_file(disk, bytes.as_slice())?;
    Ok(())
}
