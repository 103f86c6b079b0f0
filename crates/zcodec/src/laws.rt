ghost use Rattle.std.specs.Prelude.{◌≡◌, ℕ, List};
ghost use Rattle.zobject.specs.declared.object.Object.{Object};
ghost use Rattle.zobject.specs.declared.version.Version.{Version};
ghost use Rattle.zobject.specs.declared.version.Version.TheVariants.{First, Second};
ghost use Rattle.zobject.specs.Rules.{IsObject, IsOlder};
ghost use Rattle.zcodec.specs.Record.{Spells, SpellsIn, record_text};

/// Bytes are the record of at most one object, which keeps the rules. Each object that keeps them has a record of the
/// second version. Exactly those that have nothing that came with it have one of the first too. In either version it is
/// the object's one spelling.
pub fn records_are_exact()
    ensures one { (bytes : List ℕ) (o p : Object) → Spells o bytes → Spells p bytes → o ≡ p }
    ensures lawful { (bytes : List ℕ) (o : Object) → Spells o bytes → IsObject o }
    ensures has { (o : Object) → IsObject o → Spells o (record_text Second o) }
    ensures older { (o : Object) → IsObject o → IsOlder o → SpellsIn First o (record_text First o) }
    ensures newer { (o : Object) (bytes : List ℕ) → SpellsIn First o bytes → IsOlder o }
    ensures same { (version : Version) (o : Object) (a b : List ℕ) → SpellsIn version o a → SpellsIn version o b → a ≡ b }
{}
