ghost use Rattle.std.specs.Prelude.{◌≡◌, ℕ, List, Option, IfOk};

use zbase::{Memory, Oids};

/// What tells to which objects an object leads.
pub trait Links {
    /// What bytes link to.
    ghost linked: { List ℕ → Option (List ℕ) };

    /// The parent and the children of the object that the bytes spell; none exactly where they spell none.
    fn links(&self, bytes: &[u8]) -> Result<Option<Oids>, Memory>
        ensures { IfOk result (λ found. found ≡ linked bytes.now) };
}
