ghost use Rattle.std.specs.Prelude.{◌≡◌, ◌<◌, ◌^◌, ℕ, Bool, List, length};
ghost use Rattle.fs_record.specs.File.{AreRight, Front, IsFile, front_of};
ghost use Rattle.fs_record.specs.Spelling.{Block};
ghost use Rattle.packing.specs.Packed.{packed};
ghost use Rattle.packing.specs.Sizes.{full_size};
ghost use Rattle.fs_pack.specs.Entries.{entries, packed_entries};
ghost use Rattle.fs_pack.specs.Spelled.{file_of};

/// What a pack leaves of a file's transactions, each value in full, is a file of the packed history, as long as it is
/// counted.
pub fn packs_leave_files()
    ensures file { (blocks : List Block) (keep : ℕ → Bool) (t : ℕ) → AreRight blocks → full_size (packed keep (front_of blocks).history t) < 2 ^ 64 →
        (front : Front) × IsFile (file_of (packed_entries keep t (entries blocks))) front × (front.history ≡ packed keep (front_of blocks).history t) }
    ensures size { (blocks : List Block) (keep : ℕ → Bool) (t : ℕ)
        → length (file_of (packed_entries keep t (entries blocks))) ≡ full_size (packed keep (front_of blocks).history t) }
{}
