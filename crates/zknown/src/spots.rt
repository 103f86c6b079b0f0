ghost use Rattle.std.specs.Prelude.{◌≡◌, ◌<◌, ◌≤◌, ◌^◌, ℕ, length, IfOk};
ghost use Rattle.zobject.specs.Folders.{child_of};
ghost use Rattle.zknown.specs.Spots.{spot_of, AreSpots};

use name_keys::name_key;
use std::alloc::Global;
use zbase::{Memory, Oid};
use zobject::Child;

// The number of a name, below so many.
#[tactic(auto, unfolding(crate::specs::Spots::spot_of))]
fn spot_of(many: usize, name: &[u8]) -> usize
    requires { 0 < many }
    ensures is { result ≡ spot_of many name.now }
    ensures below { result < many }
{
    (name_key(name) % many as u64) as usize
}

/// Where the children stand by the numbers of their names.
pub(crate) fn spots_of(alloc: Global, children: &[Child]) -> Result<Vec<u32>, Memory>
    requires some { 0 < length children.now }
    requires few { length children.now < 2 ^ 31 }
    ensures { IfOk result (λ spots. AreSpots children.now spots.items) }
{
    let many = children.len();
    let mut spots = vec![in alloc; many as u32; many + many]?;
    let mut at = many;
    while at > 0 {
        at -= 1;
        let spot = spot_of(many, children[at].name.as_bytes());
        spots[many + at] = spots[spot];
        spots[spot] = at as u32;
    }
    Ok(spots)
}

/// The id of the child of that name, by where they stand. Takes no memory.
pub(crate) fn child_by(spots: &[u32], children: &[Child], name: &[u8]) -> Option<Oid>
    requires some { 0 < length children.now }
    requires are { AreSpots children.now spots.now }
    ensures { result ≡ child_of name.now children.now }
{
    let many = children.len();
    let mut at = spots[spot_of(many, name)] as usize;
    while at < many {
        let child = &children[at];
        if child.name.as_bytes() == name {
            return Some(child.oid);
        }
        at = spots[many + at] as usize;
    }
    None
}
