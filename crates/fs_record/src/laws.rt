ghost use Rattle.std.specs.Prelude.{◌≡◌, ◌≢◌, ◌⊎◌, ◌↔◌, ◌++◌, ◌<◌, ℕ, List, length, All, Some, None};
ghost use Rattle.zbase.specs.History.{IsHistory};
ghost use Rattle.fs_record.specs.Fits.{FitsBlock};
ghost use Rattle.fs_record.specs.Spelling.{Block, block_spelling};
ghost use Rattle.fs_record.specs.File.{Front, IsFile, IsRight, after, longer};
ghost use Rattle.fs_record.specs.Written.{transaction, IsWritable, GoesBehind, said_by};
ghost use Rattle.fs_record.specs.declared.body.Item.{Item};
ghost use Rattle.fs_record.specs.declared.body.TxnTexts.{TxnTexts};
ghost use Rattle.fs_record.specs.Opening.{NoBlock, Stands, Cut, Damaged};
ghost use Rattle.fs_record.specs.Reading.{block_read, Opens, Broken, opening_of};
ghost use Rattle.zbase.specs.Values.{Revision, newest, revisions, serial};
ghost use Rattle.fs_record.specs.File.{last_place, rows};
ghost use Rattle.fs_record.specs.Walks.{LeadsBack, Passed, newest_upto};
ghost use Rattle.fs_record.specs.Standing.{IsPlace, IsRevision, LastStands};
ghost use Rattle.fs_record.specs.declared.damage.Damage.{Damage as Kind};

/// No transaction's spelling begins another's.
pub fn one_spelling()
    ensures { (a b : Block) (x y : List ℕ) → FitsBlock a → FitsBlock b → block_spelling a ++ x ≡ block_spelling b ++ y → (a ≡ b) × (x ≡ y) }
{}

/// A right block behind a file makes a longer file.
pub fn one_more()
    ensures { (bytes : List ℕ) (front : Front) (b : Block) → IsFile bytes front → IsRight front b → IsFile (bytes ++ block_spelling b) (after front b) }
{}

/// What is written behind a file by the rules makes a file of its history and that one transaction more.
pub fn written_behind()
    ensures file { (bytes : List ℕ) (front : Front) (start tid status : ℕ) (texts : TxnTexts) (items : List Item) → IsFile bytes front
        → start ≡ length bytes → IsWritable start tid status texts items → GoesBehind front tid status items
        → IsFile (bytes ++ block_spelling (transaction start tid status texts items)) (after front (transaction start tid status texts items)) }
    ensures history { (front : Front) (start tid status : ℕ) (texts : TxnTexts) (items : List Item)
        → (after front (transaction start tid status texts items)).history ≡ longer front.history status (said_by front.records tid texts items) }
{}

/// A file says a history, and ends at the place where it is counted to end.
pub fn file_is_history()
    ensures history { (bytes : List ℕ) (front : Front) → IsFile bytes front → IsHistory front.history }
    ensures place { (bytes : List ℕ) (front : Front) → IsFile bytes front → front.place ≡ length bytes }
{}

/// Bytes open in exactly one way: with one front, cut at one place, or with one damage at one place.
pub fn one_opening()
    ensures either { (bytes : List ℕ) → All (λ byte. byte < 256) bytes
        → ((front : Front) × (n : ℕ) × Cut bytes front n) ⊎ ((kind : Kind) × (n : ℕ) × Damaged bytes n kind) }
    ensures cut { (bytes : List ℕ) (f g : Front) (m n : ℕ) → Cut bytes f m → Cut bytes g n → (f ≡ g) × (m ≡ n) }
    ensures not_both { (bytes : List ℕ) (f : Front) (m n : ℕ) (kind : Kind) → Cut bytes f m → Damaged bytes n kind → ⊥ }
    ensures damage { (bytes : List ℕ) (m n : ℕ) (k j : Kind) → Damaged bytes m k → Damaged bytes n j → (m ≡ n) × (k ≡ j) }
{}

/// Reading forward finds what stands at the front, and what bytes open to, and nothing else.
pub fn reading_finds()
    ensures block { (bytes : List ℕ) → All (λ byte. byte < 256) bytes → (b : Block) (more : List ℕ) → block_read bytes ≡ Some (b, more) ↔ Stands b bytes more }
    ensures no_block { (bytes : List ℕ) → All (λ byte. byte < 256) bytes → block_read bytes ≡ None ↔ NoBlock bytes }
    ensures cut { (bytes : List ℕ) → All (λ byte. byte < 256) bytes → (front : Front) (n : ℕ) → opening_of bytes ≡ Opens front n ↔ Cut bytes front n }
    ensures damaged { (bytes : List ℕ) → All (λ byte. byte < 256) bytes → (kind : Kind) (n : ℕ) → opening_of bytes ≡ Broken kind n ↔ Damaged bytes n kind }
{}

/// The data records of a file are the revisions of its history: each stands at its place, and an object's last one
/// is its newest; also where a torn rest stands behind the file.
pub fn records_are_revisions()
    ensures each { (bytes rest : List ℕ) (front : Front) → IsFile bytes front → (oid place : ℕ) → IsPlace front.records oid place
        → (r : Revision) × IsRevision (bytes ++ rest) front.records oid place r }
    ensures last { (bytes rest : List ℕ) (front : Front) → IsFile bytes front → (oid : ℕ)
        → LastStands (bytes ++ rest) front.records oid (last_place oid 0 (rows front.records)) (newest (revisions front.history) oid) }
{}

/// From an object's last data record its previous places lead back through its revisions, each to what the file's
/// history said before; also where other bytes stand behind the file. An object whose last record stands where it stood
/// at an earlier time has its serial from then, and any other a later one.
pub fn records_lead_back()
    ensures whole { (file : List ℕ) (front : Front) → IsFile file front → Passed file front front }
    ensures is_file { (file : List ℕ) (front at : Front) → Passed file front at → IsFile file front }
    ensures grows { (file : List ℕ) (front at : Front) (b : Block) → Passed file front at → IsRight front b
        → Passed (file ++ block_spelling b) (after front b) at }
    ensures none { (file : List ℕ) (front at : Front) (oid : ℕ) → Passed file front at → last_place oid 0 (rows at.records) ≡ 0 → (t : ℕ)
        → newest_upto at.history t oid ≡ None }
    ensures none_at_all { (file : List ℕ) (front at : Front) (oid : ℕ) → Passed file front at → last_place oid 0 (rows at.records) ≡ 0
        → newest (revisions at.history) oid ≡ None }
    ensures leads { (file rest : List ℕ) (front at : Front) (oid : ℕ) → Passed file front at → 0 < last_place oid 0 (rows at.records)
        → LeadsBack (file ++ rest) file front at oid (last_place oid 0 (rows at.records)) }
    ensures same { (file : List ℕ) (front at : Front) (oid : ℕ) → Passed file front at
        → last_place oid 0 (rows at.records) ≡ last_place oid 0 (rows front.records) → serial at.history oid ≡ serial front.history oid }
    ensures other { (file : List ℕ) (front at : Front) (oid : ℕ) → Passed file front at
        → last_place oid 0 (rows at.records) ≢ last_place oid 0 (rows front.records) → serial at.history oid < serial front.history oid }
{}
