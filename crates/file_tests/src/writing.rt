//! What is written of a transaction, read by a plain reader of the format.

ghost use Rattle.std.specs.Prelude.{◌≡◌, ◌+◌, ◌*◌, ◌<◌, ◌≤◌, ◌^◌, length, IfOk, All};
ghost use Rattle.fs_record.specs.Sizes.{record_size, records_size};
ghost use Rattle.fs_record.specs.Spelling.{body_spelling};
ghost use Rattle.fs_record.specs.Written.{HasBody, IsBody};

use fs_record::{Body, Item, TxnTexts, write_txn};
use std::alloc::Global;
use std::ops::Range;
use std::test::Fail;
use zbase::{Bytes, Oid, Tid};

const FIRST: u64 = 0x0331_6200_0000_0001;

#[derive(Drop)]
enum Given {
    Data(&'static [u8]),
    Back(u64),
}

/// What is to be written: a status, the lengths of the three texts, and for each record its object, previous place
/// and body.
#[derive(Drop)]
struct Case {
    status: u8,
    texts: [usize; 3],
    records: &'static [(u64, u64, Given)],
}

const CASES: [Case; 8] = [
    Case {
        status: b' ',
        texts: [0, 0, 0],
        records: &[],
    },
    Case {
        status: b'p',
        texts: [3, 1, 2],
        records: &[],
    },
    Case {
        status: b' ',
        texts: [65535, 65535, 65535],
        records: &[(7, 0, Given::Data(b"x"))],
    },
    Case {
        status: b' ',
        texts: [5, 11, 0],
        records: &[
            (0, 0, Given::Data(b"root")),
            (1, 27, Given::Data(b"\0\xff\0")),
        ],
    },
    Case {
        status: b' ',
        texts: [0, 1, 0],
        records: &[(3, 258, Given::Back(66_051))],
    },
    Case {
        status: b' ',
        texts: [0, 0, 1],
        records: &[(3, 258, Given::Back(0)), (4, 0, Given::Data(b"new"))],
    },
    Case {
        status: b' ',
        texts: [1, 0, 0],
        records: &[
            (5, 27, Given::Data(b"first")),
            (5, 27, Given::Data(b"second")),
        ],
    },
    Case {
        status: b'p',
        texts: [1, 2, 3],
        records: &[(
            0x0102_0304_0506_0708,
            0xf1f2_f3f4_f5f6_f7f8,
            Given::Back(0xe1e2_e3e4_e5e6_e7e8),
        )],
    },
];

fn text_of(alloc: Global, byte: u8, len: usize) -> Result<Bytes, Fail>
    requires { len < 2 ^ 16 }
    ensures { IfOk result (λ text. length text < 2 ^ 16) }
{
    Ok(Bytes::from_vec(vec![in alloc; byte; len]?))
}

fn body_of(alloc: Global, given: &Given) -> Result<Body, Fail>
    ensures body { IfOk result IsBody }
    ensures size { IfOk result (λ body. length (body_spelling body) ≤ 50) }
{
    match given {
        Given::Data(data) => {
            if data.is_empty() || data.len() > 50 {
                return Err("has 1 to 50 bytes".into());
            }
            Ok(Body::Full(Bytes::from_slice(alloc, data)?))
        }
        Given::Back(place) => Ok(Body::Back(*place)),
    }
}

fn item_of(alloc: Global, given: &(u64, u64, Given)) -> Result<Item, Fail>
    ensures body { IfOk result HasBody }
    ensures size { IfOk result (λ item. record_size item ≤ 100) }
{
    Ok(Item {
        oid: Oid(given.0),
        prev: given.1,
        body: body_of(alloc, &given.2)?,
    })
}

fn items_of(alloc: Global, given: &[(u64, u64, Given)]) -> Result<Vec<Item>, Fail>
    requires { length given.now < 100 }
    ensures bodies { IfOk result (λ items. All HasBody items.items) }
    ensures size { IfOk result (λ items. records_size items.items < 10000) }
{
    let mut items = Vec::new(alloc);
    for each in given {
        let item = item_of(alloc, each)?;
        items.push(item)?;
    }
    Ok(items)
}

fn texts_of(alloc: Global, case: &Case) -> Result<TxnTexts, Fail>
    ensures user { IfOk result (λ texts. length texts.user < 2 ^ 16) }
    ensures description { IfOk result (λ texts. length texts.description < 2 ^ 16) }
    ensures extension { IfOk result (λ texts. length texts.extension < 2 ^ 16) }
{
    let [user, description, extension] = case.texts;
    if user.max(description).max(extension) > 65535 {
        return Err("has short texts".into());
    }
    Ok(TxnTexts {
        user: text_of(alloc, b'u', user)?,
        description: text_of(alloc, b'd', description)?,
        extension: text_of(alloc, b'e', extension)?,
    })
}

// The transaction behind what the buffer holds; its texts are as many `u`, `d` and `e`.
fn write(alloc: Global, out: &mut Bytes, start: u64, case: &Case) -> Result<(), Fail> {
    if case.records.len() > 9 || start > 999 {
        return Err("is short and begins early".into());
    }
    let texts = texts_of(alloc, case)?;
    let items = items_of(alloc, case.records)?;
    let items = items.as_slice();
    write_txn(out, start, Tid(FIRST), case.status, &texts, items)?;
    Ok(())
}

/// Reads bytes by the format's rules alone, from the front on; none where they break one or say something else.
#[derive(Drop)]
struct Walk<'a> {
    rest: &'a [u8],
}

impl<'a> Walk<'a> {
    fn bytes(&mut self, len: u64) -> Option<&'a [u8]> {
        if len > self.rest.len() as u64 {
            return None;
        }
        let (front, back) = self.rest.split_at(len as usize);
        self.rest = back;
        Some(front)
    }

    // A number of so many bytes, high byte first.
    fn number(&mut self, len: u64) -> Option<u64> {
        let mut number = 0u64;
        for byte in self.bytes(len)? {
            number = number.checked_mul(256)?.checked_add(u64::from(*byte))?;
        }
        Some(number)
    }

    fn says(&mut self, len: u64, number: u64) -> Option<()> {
        (self.number(len)? == number).then_some(())
    }

    // A text of as many bytes as its length in the head says and as it was given, all the same.
    fn text(&mut self, len: u64, byte: u8, given: usize) -> Option<()> {
        let text = self.bytes(len)?;
        (text.len() == given && text.iter().all(|b| *b == byte)).then_some(())
    }

    fn record(&mut self, start: u64, given: &(u64, u64, Given)) -> Option<()> {
        self.says(8, given.0)?;
        self.says(8, FIRST)?;
        self.says(8, given.1)?;
        self.says(8, start)?;
        self.says(2, 0)?;
        let len = self.number(8)?;
        match &given.2 {
            Given::Data(data) => (len > 0 && self.bytes(len)? == *data).then_some(()),
            Given::Back(place) => {
                if len > 0 {
                    return None;
                }
                self.says(8, *place)
            }
        }
    }

    // The first length is the size less 8 and stands again behind the records, which end there.
    fn transaction(&mut self, start: u64, case: &Case) -> Option<()> {
        let size = self.rest.len() as u64;
        self.says(8, FIRST)?;
        self.says(8, size.checked_sub(8)?)?;
        self.says(1, u64::from(case.status))?;
        let user = self.number(2)?;
        let description = self.number(2)?;
        let extension = self.number(2)?;
        self.text(user, b'u', case.texts[0])?;
        self.text(description, b'd', case.texts[1])?;
        self.text(extension, b'e', case.texts[2])?;
        for given in case.records {
            self.record(start, given)?;
        }
        self.says(8, size.checked_sub(8)?)?;
        self.rest.is_empty().then_some(())
    }
}

fn is_transaction(bytes: &[u8], start: u64, case: &Case) -> bool {
    Walk { rest: bytes }.transaction(start, case).is_some()
}

// The first place outside the texts where another byte is taken too.
fn first_loose_place(
    bytes: &mut [u8],
    texts: &Range<usize>,
    start: u64,
    case: &Case,
) -> Option<usize> {
    for place in 0..bytes.len() {
        if texts.contains(&place) {
            continue;
        }
        bytes[place] ^= 1;
        let is_taken = is_transaction(bytes, start, case);
        bytes[place] ^= 1;
        if is_taken {
            return Some(place);
        }
    }
    None
}

// How many bytes the texts and the records of the case have at least.
fn least_sizes(case: &Case) -> (usize, usize) {
    let mut texts = 0usize;
    for len in &case.texts {
        texts = texts.saturating_add(*len);
    }
    (texts, case.records.len().saturating_mul(43))
}

// Whether the transaction is written behind what the buffer holds, and no byte outside its texts may be another.
fn is_written(alloc: Global, case: &Case) -> Result<bool, Fail> {
    let mut out = Bytes::from_slice(alloc, b"FS21")?;
    write(alloc, &mut out, 515, case)?;
    let all = out.as_slice();
    let mut bytes = Vec::from_slice(alloc, all.get(4..).unwrap_or(&[]))?;
    let (texts, records) = least_sizes(case);
    let texts = 23..texts.saturating_add(23);
    let least = texts.end.saturating_add(records).saturating_add(8);
    Ok(
        all.starts_with(b"FS21")
            && bytes.len() >= least
            && is_transaction(bytes.as_slice(), 515, case)
            && first_loose_place(bytes.as_mut_slice(), &texts, 515, case).is_none(),
    )
}

#[test]
fn a_plain_reader_takes_what_is_written_and_no_other_byte(rt: HostRuntime) -> Result<(), Fail> {
    for (row, case) in CASES.iter().enumerate() {
        assert!(rt; is_written(rt.alloc(), case)?, "row {row}");
    }
    Ok(())
}
