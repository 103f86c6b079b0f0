ghost use Rattle.std.specs.Prelude.{◌≡◌, ◌++◌, List, ℕ, drop, false, true};
ghost use Rattle.fs_record.specs.File.{magic};

use fs_record::MAGIC_LEN;

/// Whether the bytes begin with `FS21`, as a file does.
pub fn has_magic(bytes: &[u8]) -> bool
    ensures yes { result ≡ true → bytes.now ≡ magic ++ drop MAGIC_LEN bytes.now }
    ensures no { result ≡ false → (more : List ℕ) → bytes.now ≡ magic ++ more → ⊥ }
{
    bytes.starts_with(b"FS21")
}
