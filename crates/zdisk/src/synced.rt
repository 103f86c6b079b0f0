ghost use Rattle.std.specs.Prelude.{◌≡◌, ◌⊎◌, ◌+◌, ◌<◌, ◌≤◌, ◌++◌, length, take, slice_set, OnOk, IsErr};
ghost use Rattle.std.specs.Option.{ForSome};
ghost use Rattle.zbase.specs.Faults.{Counts, Twice};
ghost use Rattle.zdisk.specs.Disk.{content, counted};
ghost use Rattle.zdisk.specs.Images.{IsMixture};
ghost use Rattle.zdisk.specs.Calls.{put};
ghost use Rattle.zdisk.specs.Crashes.{IsSynced, LeavesFrom, Becomes, IsTorn};

use crate::Disk;
use zbase::Failed;

/// Writes a piece at a place of a synced file, and syncs. These are two device calls, and none after one that
/// failed.
///
/// A stop at any moment leaves a mixture, byte by byte, of the file before and after, also where a call failed.
pub fn write_and_sync<D: Disk>(disk: &mut D, at: u64, piece: &[u8]) -> Result<(), Failed>
    requires synced { ForSome (D.told disk.old) (λ told. IsSynced told × (at ≤ length (content told))) }
    requires room { 2 ≤ D.spare_calls disk.old }
    requires space { length piece.now ≤ D.spare_bytes disk.old }
    ensures any_moment { LeavesFrom (D.told disk.old) (D.told disk.new) (λ file image. IsMixture file (put at piece.now file) image) }
    ensures written { OnOk result (Becomes (D.told disk.old) (D.told disk.new) (put at piece.now)) }
    ensures spare { OnOk result ((D.spare_calls disk.old ≤ D.spare_calls disk.new + 2) × (D.spare_bytes disk.old ≤ D.spare_bytes disk.new + length piece.now)) }
    ensures calls { OnOk result ((D.counter disk.new).calls ≡ counted (counted (D.counter disk.old).calls)) }
    ensures twice { OnOk result (Twice (D.counter disk.old) (D.counter disk.new)) }
    ensures counts { Counts (D.counter disk.old) (D.counter disk.new) (IsErr result) }
{
    disk.write_at(at, piece)?;
    disk.sync()
}

/// Cuts a synced file, and syncs. These are two device calls, and none after one that failed.
///
/// A stop at any moment leaves a mixture, byte by byte, of the file before and after, also where a call failed.
pub fn cut_and_sync<D: Disk>(disk: &mut D, to: u64) -> Result<(), Failed>
    requires synced { ForSome (D.told disk.old) (λ told. IsSynced told × (to ≤ length (content told))) }
    requires room { 2 ≤ D.spare_calls disk.old }
    ensures any_moment { LeavesFrom (D.told disk.old) (D.told disk.new) (λ file image. IsMixture file (take to file) image) }
    ensures cut { OnOk result (Becomes (D.told disk.old) (D.told disk.new) (take to)) }
    ensures spare { OnOk result ((D.spare_calls disk.old ≤ D.spare_calls disk.new + 2) × (D.spare_bytes disk.old ≤ D.spare_bytes disk.new)) }
    ensures calls { OnOk result ((D.counter disk.new).calls ≡ counted (counted (D.counter disk.old).calls)) }
    ensures twice { OnOk result (Twice (D.counter disk.old) (D.counter disk.new)) }
    ensures counts { Counts (D.counter disk.old) (D.counter disk.new) (IsErr result) }
{
    disk.cut(to)?;
    disk.sync()
}

/// Writes a piece behind a synced file, and syncs. These are two device calls, and none after one that failed.
///
/// A stop at any moment leaves the file with nothing behind it or with a torn piece, also where a call failed.
pub fn append_and_sync<D: Disk>(disk: &mut D, end: u64, piece: &[u8]) -> Result<(), Failed>
    requires synced { ForSome (D.told disk.old) (λ told. IsSynced told × (end ≡ length (content told))) }
    requires room { 2 ≤ D.spare_calls disk.old }
    requires space { length piece.now ≤ D.spare_bytes disk.old }
    ensures any_moment { LeavesFrom (D.told disk.old) (D.told disk.new) (λ file image. IsTorn file piece.now image) }
    ensures written { OnOk result (Becomes (D.told disk.old) (D.told disk.new) (λ file. file ++ piece.now)) }
    ensures spare { OnOk result ((D.spare_calls disk.old ≤ D.spare_calls disk.new + 2) × (D.spare_bytes disk.old ≤ D.spare_bytes disk.new + length piece.now)) }
    ensures calls { OnOk result ((D.counter disk.new).calls ≡ counted (counted (D.counter disk.old).calls)) }
    ensures twice { OnOk result (Twice (D.counter disk.old) (D.counter disk.new)) }
    ensures counts { Counts (D.counter disk.old) (D.counter disk.new) (IsErr result) }
{
    write_and_sync(disk, end, piece)
}

/// Writes one byte within a synced file, and syncs. These are two device calls, and none after one that failed.
///
/// A stop at any moment leaves the file before or after, also where a call failed.
pub fn overwrite_and_sync<D: Disk>(disk: &mut D, at: u64, byte: u8) -> Result<(), Failed>
    requires synced { ForSome (D.told disk.old) (λ told. IsSynced told × (at < length (content told))) }
    requires room { 2 ≤ D.spare_calls disk.old }
    requires space { 1 ≤ D.spare_bytes disk.old }
    ensures any_moment { LeavesFrom (D.told disk.old) (D.told disk.new) (λ file image. (image ≡ file) ⊎ (image ≡ slice_set file at byte)) }
    ensures written { OnOk result (Becomes (D.told disk.old) (D.told disk.new) (λ file. slice_set file at byte)) }
    ensures spare { OnOk result ((D.spare_calls disk.old ≤ D.spare_calls disk.new + 2) × (D.spare_bytes disk.old ≤ D.spare_bytes disk.new + 1)) }
    ensures calls { OnOk result ((D.counter disk.new).calls ≡ counted (counted (D.counter disk.old).calls)) }
    ensures twice { OnOk result (Twice (D.counter disk.old) (D.counter disk.new)) }
    ensures counts { Counts (D.counter disk.old) (D.counter disk.new) (IsErr result) }
{
    write_and_sync(disk, at, &[byte])
}
