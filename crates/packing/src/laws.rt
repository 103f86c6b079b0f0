ghost use Rattle.std.specs.Prelude.{◌≡◌, ◌<◌, ◌≤◌, ℕ, Bool, true, Some};
ghost use Rattle.zbase.specs.History.{History, IsHistory, Transaction};
ghost use Rattle.zbase.specs.Values.{last, newest, revisions, serial, transaction, upto, value};
ghost use Rattle.evaluator.specs.Facts.{parts_of};
ghost use Rattle.packing.specs.Packed.{packed};
ghost use Rattle.packing.specs.Reachable.{IsClosed, IsKeep, Linking};

/// A packed history gives at every time from the pack on the values and serials of the unpacked one, for each object that
/// is kept; and above both floors the same transactions, with the same parts.
pub fn packs_keep_values()
    ensures value { (keep : ℕ → Bool) (h : History) (t at o : ℕ) → IsHistory h → t ≤ at → keep o ≡ true
        → value (upto (packed keep h t) at) o ≡ value (upto h at) o }
    ensures serial { (keep : ℕ → Bool) (h : History) (t at o : ℕ) → IsHistory h → t ≤ at → keep o ≡ true
        → serial (upto (packed keep h t) at) o ≡ serial (upto h at) o }
    ensures transactions { (keep : ℕ → Bool) (h : History) (t u : ℕ) → IsHistory h → (packed keep h t).floor < u
        → transaction (packed keep h t) u ≡ transaction h u }
    ensures parts { (links : Linking) (keep : ℕ → Bool) (h : History) (t u : ℕ) (x : Transaction) → IsHistory h
        → IsClosed links h t keep → (packed keep h t).floor < u → transaction h u ≡ Some x → parts_of (packed keep h t) x ≡ parts_of h x }
{}

/// A packed history is one, and ends where it ended; its floor isn't lower. Objects are kept in one way, and there is one
/// packed history.
pub fn packs_keep_histories()
    ensures history { (keep : ℕ → Bool) (h : History) (t : ℕ) → IsHistory h → IsHistory (packed keep h t) }
    ensures last { (keep : ℕ → Bool) (h : History) (t : ℕ) → IsHistory h → last (packed keep h t) ≡ last h }
    ensures floor { (keep : ℕ → Bool) (h : History) (t : ℕ) → h.floor ≤ (packed keep h t).floor }
    ensures one_keep { (links : Linking) (h : History) (t : ℕ) (keep other : ℕ → Bool) → IsKeep links h t keep → IsKeep links h t other
        → (o : ℕ) → keep o ≡ other o }
    ensures one_pack { (h : History) (t : ℕ) (keep other : ℕ → Bool) → ((o : ℕ) → keep o ≡ other o) → packed keep h t ≡ packed other h t }
{}
