ghost use Rattle.std.specs.Prelude.{◌≡◌, ℕ, List, map, IfOk, IsTrue};
ghost use Rattle.std.specs.List.{IsDistinct};
ghost use Rattle.std.specs.Str.{bytes_eq};
ghost use Rattle.name_keys.specs.Keys.{name_key};

use crate::keys::{keys_differ, name_key};
use std::alloc::Global;
use zbase::Memory;

/// What has a name, by which it is told from others.
pub trait HasName {
    /// The bytes of the name.
    ghost name_of: { Self → List ℕ };

    /// The bytes of the name.
    fn name_bytes(&self) -> &[u8]
        ensures { result.now ≡ name_of self.now };
}

/// The keys of the names.
fn keys_of<T: HasName>(alloc: Global, named: &[T]) -> Result<Vec<u64>, Memory>
    ensures { IfOk result (λ keys. keys.items ≡ map (λ x. name_key (T.name_of x)) named.now) }
{
    let mut keys = Vec::with_capacity(alloc, named.len())?;
    for one in named {
        keys.push(name_key(one.name_bytes()))?;
    }
    Ok(keys)
}

/// Whether the keys of the names differ, so that the names do. Keys are sorted, which takes less than a map of names.
#[tactic(auto, using(crate::specs::KeyLaws::by_keys))]
pub fn names_differ<T: HasName>(alloc: Global, named: &[T]) -> Result<bool, Memory>
    ensures { IfOk result (λ yes. IsTrue yes → IsDistinct (λ x y. bytes_eq (T.name_of x) (T.name_of y)) named.now) }
{
    let mut keys = keys_of(alloc, named)?;
    Ok(keys_differ(keys.as_mut_slice()))
}
