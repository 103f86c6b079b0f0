ghost use Rattle.std.specs.Prelude.{◌≡◌};
ghost use Rattle.fs_record.specs.Damages.{kind_number};

/// What is wrong with a file, in the order in which it is tried.
///
/// Each is tried over a whole transaction, and the place that is given with it is the transaction's start.
#[derive(Clone, Copy, Debug, PartialEq, Eq)]
pub enum Damage {
    /// The first four bytes aren't `FS21`.
    BadMagic,
    /// The head and texts pass the transaction's end, or its data records don't end exactly there.
    BadLength,
    /// Its id isn't greater than the one before, or a data record has another id or start.
    BadTid,
    /// A previous place isn't that of the object's last earlier data record.
    BadPrev,
    /// A back pointer is neither 0 nor the place of an earlier data record of the object.
    BadBack,
    /// The status is none of space, `p`, `u`.
    BadStatus,
    /// The second length differs from the first.
    BadTail,
    /// The two zero bytes of a data record aren't zero.
    BadVersion,
}

impl Damage {
    /// Its number, by which a line names it: from 2 to 9.
    pub fn number(self) -> u8
        ensures { result ≡ kind_number self }
    {
        match self {
            Damage::BadLength => 2,
            Damage::BadTid => 3,
            Damage::BadPrev => 4,
            Damage::BadBack => 5,
            Damage::BadStatus => 6,
            Damage::BadTail => 7,
            Damage::BadVersion => 8,
            Damage::BadMagic => 9,
        }
    }
}
