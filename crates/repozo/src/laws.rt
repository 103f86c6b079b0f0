ghost use Rattle.std.specs.Prelude.{◌≡◌, ◌-◌, ◌≤◌, ◌++◌, ◌∷◌, [], ℕ, Bool, List, length};
ghost use Rattle.md5.specs.Md5.{md5};
ghost use Rattle.repozo.specs.BadLines.{IsBadAt};
ghost use Rattle.repozo.specs.Index.{AreRows, HasLine, IsIndex};
ghost use Rattle.repozo.specs.Pieces.{part, plan_of};
ghost use Rattle.repozo.specs.Whole.{AreDigests, IsBackup};
ghost use Rattle.repozo.specs.declared.index.PieceRow.{PieceRow};
ghost use Rattle.repozo.specs.declared.planning.BackupPlan.TheVariants as plans;

/// Bytes are one index.
pub fn one_index()
    ensures { (text : List ℕ) (a b : List PieceRow) → IsIndex text a → IsIndex text b → a ≡ b }
{}

/// Bytes have one first bad line, and none where they are an index.
pub fn one_bad_line()
    ensures not_both { (text : List ℕ) (rows : List PieceRow) (n : ℕ) → IsIndex text rows → IsBadAt text n → ⊥ }
    ensures number { (text : List ℕ) (m n : ℕ) → IsBadAt text m → IsBadAt text n → m ≡ n }
{}

/// **A backup is the file.** Where nothing is due, the pieces joined are the file up to where it ends; where more is due, the
/// pieces and one with the rest are, and where all is due, one with all of it. Each piece is right by its row, so joining
/// them never refuses one.
pub fn backups_are_whole()
    ensures nothing { (full : Bool) (rows : List PieceRow) (held : List (List ℕ)) (file : List ℕ) (n : ℕ) → AreRows rows → AreDigests rows held
        → plan_of full rows held file n ≡ plans.Nothing → IsBackup rows held file n }
    ensures more { (full : Bool) (rows : List PieceRow) (held : List (List ℕ)) (file : List ℕ) (n s e : ℕ) (row : PieceRow) → AreRows rows
        → AreDigests rows held → plan_of full rows held file n ≡ plans.More s e → n ≤ length file
        → HasLine row → row.start ≡ s → row.end ≡ e → row.md5 ≡ md5 (part s (e - s) file)
        → IsBackup (rows ++ row ∷ []) (held ++ part s (e - s) file ∷ []) file n }
    ensures full { (full : Bool) (rows : List PieceRow) (held : List (List ℕ)) (file : List ℕ) (n e : ℕ) (row : PieceRow)
        → plan_of full rows held file n ≡ plans.Full e → n ≤ length file
        → HasLine row → row.start ≡ 0 → row.end ≡ e → row.md5 ≡ md5 (part 0 e file) → IsBackup (row ∷ []) (part 0 e file ∷ []) file n }
{}
