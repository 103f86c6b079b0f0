ghost use Rattle.fs_undo.specs.Undone.{ChangedIsRefused, UndoneIsPutBack};

/// An undo puts back exactly what its transaction changed: each of the transaction's objects still has the value that the
/// transaction gave it, and has the value that it had before once the undo stands; every other object has the value that it
/// has. An undo that is refused names an object of the transaction that has another value now.
pub fn undone_is_put_back()
    ensures back { UndoneIsPutBack }
    ensures refused { ChangedIsRefused }
{}
