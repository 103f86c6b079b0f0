ghost use Rattle.std.specs.Prelude.{◌≡◌, ◌+◌, ◌++◌, ◌==◌, ◌∷◌, ◌<◌, ◌≤◌, [], IfOk, IfErr, IfSome, IsErr, None, OnOk, Some, get_or, if◌then◌else◌, length, nat_lt};
ghost use Rattle.std.specs.List.{All, list_any};
ghost use Rattle.std.specs.Option.{ForSome};
ghost use Rattle.zdisk.specs.Disk.{content};
ghost use Rattle.fs_index.specs.Places.{place_of};
ghost use Rattle.fs_record.specs.File.{is_row};
ghost use Rattle.fs_record.specs.Reading.{u64_read};
ghost use Rattle.fs_scan.specs.Keeping.{IsStart, KeepsMore, NoStart, NoneKept, PlacesRise, Readable, rows_on, starts};
ghost use Rattle.fs_scan.specs.Newest.{or_greater, place_in};
ghost use Rattle.fs_scan.specs.OnlyReads.{OnlyReads};

use fs_index::{Index, Place};
use fs_record::MAX_LENGTH;
use std::alloc::Global;
use std::marker::Model;
use zbase::{Failed, Memory, Oid, Row, u64_at};
use zdisk::Disk;

/// The places of a file's data records, from the oldest to the newest, and each object's newest place.
///
/// Every record's place is kept, and not only that of an object's newest: of two records of an object in one transaction
/// the first is on no chain of previous places, and yet a back pointer may name it. Whose a record is isn't kept: its id is
/// read where it stands. It takes six bytes a record, and what the index takes an object.
#[derive(Drop)]
pub struct Kept {
    starts: Vec<Place>,
    /// Where each object's last record stands.
    newest: Index,
    /// The greatest id of an object with a record.
    greatest: Option<u64>,
}

impl Model for Kept {
    ghost use Rattle.fs_scan.specs.Keeping.{Keeping, PlacesRise};

    ghost Value = { Keeping };

    ghost view = { λ kept. record { places = kept.starts.items; newest = kept.newest; greatest = kept.greatest } };

    ghost invariant = { λ kept. PlacesRise 0 kept.starts.items };
}

impl Kept {
    /// No record. Takes no memory.
    pub fn new(alloc: Global) -> Kept
        ensures { NoneKept result }
    {
        Kept {
            starts: Vec::new(alloc),
            newest: Index::new(alloc),
            greatest: None,
        }
    }

    /// The allocator that the list keeps.
    pub fn alloc(&self) -> Global {
        *self.starts.allocator()
    }

    /// How many records there are.
    pub fn count(&self) -> usize
        ensures count { result ≡ length self.now.places }
        ensures rise { PlacesRise 0 self.now.places }
    {
        self.starts.len()
    }

    /// The place of the record with this number, from 0 on, and none behind the last one.
    pub fn place(&self, number: usize) -> Option<u64>
        ensures { result ≡ (if nat_lt number (length self.now.places) then Some (get_or self.now.places number 0) else None) }
    {
        match self.starts.get(number) {
            Some(place) => Some(place.number()),
            None => None,
        }
    }

    /// The place of the object's last record, 0 where it has none.
    pub fn last_place(&self, oid: Oid) -> u64
        ensures { result ≡ place_in (place_of self.now.newest oid) }
    {
        match self.newest.get(oid) {
            Some(place) => place,
            None => 0,
        }
    }

    // The number of the record at this place.
    fn search(&self, place: u64) -> Result<usize, usize>
        ensures found { IfOk result (IsStart self.now.places place) }
        ensures absent { IfErr result (λ _. NoStart self.now.places place) }
    {
        self.starts
            .binary_search_by_key(&place, |start| start.number())
    }

    /// Whether a record of the object stands at this place: one of the records begins there, and it is the object's. Its id
    /// is read from the disk, by one device call where a record begins there, else by none.
    pub fn has<D: Disk>(&self, disk: &mut D, oid: Oid, place: u64) -> Result<bool, Failed>
        requires { ForSome (D.told disk.old) (λ told. Readable (content told) self.now.places) }
        ensures has { IfOk result (λ yes. IfSome (D.told disk.old) (λ told. yes ≡ list_any (is_row oid place) (rows_on (content told) self.now.places))) }
        ensures reads { (D.counter disk.new).calls ≤ (D.counter disk.old).calls + 1 }
        ensures only_reads { OnlyReads D.Disk disk.old disk.new (IsErr result) }
    {
        match self.search(place) {
            Ok(_) => is_id_at(disk, oid.0, place),
            Err(_) => Ok(false),
        }
    }

    // Adds a record behind all others. For want of memory nothing is said of what is kept; so it is where the place has more
    // than six bytes, as none of a file has that may be opened.
    fn push(&mut self, row: Row) -> Result<(), Memory>
        requires rise { PlacesRise 0 (self.old.places ++ row.place ∷ []) }
        requires placed { 0 < row.place }
        ensures { OnOk result (KeepsMore self.old self.new (row ∷ [])) }
    {
        if row.place > MAX_LENGTH {
            return Err(Memory);
        }
        self.starts.reserve(1)?;
        self.newest.reserve(&[row.oid])?;
        self.newest.put(row.oid, row.place);
        self.greatest = Some(or_greater(row.oid.0, self.greatest));
        match self.starts.push(Place::new(row.place)) {
            Ok(()) => Ok(()),
            Err(_) => unreachable!(),
        }
    }

    /// Adds the records of a transaction behind all others. For want of memory some of them may be added, and nothing is said
    /// of what is kept.
    pub fn add(&mut self, rows: &[Row]) -> Result<(), Memory>
        requires rise { PlacesRise 0 (self.old.places ++ starts rows.now) }
        requires placed { All (λ row. 0 < row.place) rows.now }
        ensures { OnOk result (KeepsMore self.old self.new rows.now) }
    {
        for row in rows {
            self.push(*row)?;
        }
        Ok(())
    }

    /// The greatest id of an object with a record.
    pub fn greatest(&self) -> Option<Oid>
        ensures { result ≡ self.now.greatest }
    {
        self.greatest.map(|oid| Oid(oid))
    }

    /// Where each object's last record stands, without a copy.
    pub fn into_index(self) -> Index
        ensures { result ≡ self.newest }
    {
        let Kept {
            starts: _,
            newest,
            greatest: _,
        } = self;
        newest
    }
}

// Whether this id stands at a place of the disk's file: one device call.
fn is_id_at<D: Disk>(disk: &mut D, id: u64, place: u64) -> Result<bool, Failed>
    requires { ForSome (D.told disk.old) (λ told. place + 8 ≤ length (content told)) }
    ensures is { IfOk result (λ yes. IfSome (D.told disk.old) (λ told. yes ≡ (u64_read place (content told) == id))) }
    ensures reads { (D.counter disk.new).calls ≤ (D.counter disk.old).calls + 1 }
    ensures only_reads { OnlyReads D.Disk disk.old disk.new (IsErr result) }
{
    let mut bytes = [0u8; 8];
    disk.read_at(place, &mut bytes)?;
    Ok(u64_at(&bytes, 0) == id)
}

/// The greater of two ids, of which the second may be missing.
fn or_greater(oid: u64, other: Option<u64>) -> u64
    ensures { result ≡ or_greater oid other }
{
    match other {
        Some(other) => oid.max(other),
        None => oid,
    }
}
