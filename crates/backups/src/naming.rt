ghost use Rattle.std.specs.Prelude.{◌≡◌, ◌<◌, IfOk, string_bytes};
ghost use Rattle.backups.specs.Names.{index_name, numbered};

use std::alloc::Global;
use zbase::Memory;

/// How many numbered names there are.
pub const NAMES: u64 = 10_000;

/// The name of a repository's index.
pub(crate) fn index_name(alloc: Global, repo: &str) -> Result<String, Memory>
    ensures { IfOk result (λ name. string_bytes name ≡ index_name repo.now) }
{
    Ok(format!(in alloc; "{repo}.dat")?)
}

/// A name with a number of four digits.
pub(crate) fn numbered(alloc: Global, base: &str, n: u64) -> Result<String, Memory>
    ensures { IfOk result (λ name. string_bytes name ≡ numbered base.now n) }
{
    let (thousands, hundreds, tens) = (n / 1000, n / 100 % 10, n / 10 % 10);
    Ok(format!(in alloc; "{base}.{thousands}{hundreds}{tens}{}", n % 10)?)
}
