use crate::items::{item_of, put_items};
use crate::lines::line_of;
use crate::replies::put_reply;
use cases::{Case, CasesRefusal, Part, Runner, add_bytes, add_line, add_number};
use schedule::{Item2, ScheduleRefusal, read_schedule, write_item, write_line};
use std::alloc::Global;
use zbase::Bytes;

/// Texts of schedules, of reports and of replies.
///
/// `schedule` is read: `items` come of it, one a line, and `again` with `same` where the text that is written from
/// them is the one that was read, or `bad N` with the number of the bad line. What is written of all other parts, one
/// behind another, comes as `output`:
///
/// - `item KIND NUMBERS` is a line of a schedule, `line KIND NUMBERS` one of a report. The kinds are their words, with
///   the word that tells two of a kind apart behind a hyphen (`fetch-log`, `spent-tids`, `reply-none`, `record-none`);
///   the numbers are those of the line, where sixteen characters are an id and a permission has its number. Messages,
///   replies, values and roles are the part's bytes, and the texts of a transaction those of the parts `user`,
///   `description` and `extension`.
/// - `reply STATUS FORM SENT MARK` is a reply whose body is the part's bytes. FORM is `html` or `plain`, SENT is `whole`
///   or `head`, MARK is `read ID`, `commit ID` or `none`.
#[derive(Drop)]
pub struct TextCases;

// The parts that come of the items of a schedule.
fn put_read(
    alloc: Global,
    items: &[Item2],
    text: &Bytes,
    parts: &mut Vec<Part>,
) -> Result<(), CasesRefusal> {
    let mut shown = Bytes::new(alloc);
    let mut again = Bytes::from_slice(alloc, b"zope schedule 1\n")?;
    put_items(alloc, items, &mut shown, &mut again)?;
    let said = if again.same(text) {
        "again same"
    } else {
        "again other"
    };
    add_bytes(alloc, parts, "items", shown)?;
    add_line(alloc, parts, said)
}

// The parts that come of reading a schedule.
fn put_schedule(alloc: Global, text: &Bytes, parts: &mut Vec<Part>) -> Result<(), CasesRefusal> {
    match read_schedule(alloc, text.as_slice()) {
        Ok(items) => put_read(alloc, items.as_slice(), text, parts),
        Err(ScheduleRefusal::BadLine(line)) => add_number(alloc, parts, "bad", line),
        Err(ScheduleRefusal::Memory) => Err(CasesRefusal::Memory),
    }
}

// Writes what a part says.
fn put_part(alloc: Global, case: &Case, part: &Part, out: &mut Bytes) -> Result<(), CasesRefusal> {
    match part.key() {
        "item" => Ok(write_item(&item_of(alloc, part)?, out)?),
        "line" => Ok(write_line(&line_of(alloc, case, part)?, out)?),
        "reply" => put_reply(alloc, part, out),
        _ => Ok(()),
    }
}

impl Runner for TextCases {
    fn knows(&self, key: &str) -> bool {
        [
            "schedule",
            "item",
            "line",
            "reply",
            "user",
            "description",
            "extension",
        ]
        .contains(&key)
    }

    fn run(&self, alloc: Global, case: &Case) -> Result<Vec<Part>, CasesRefusal> {
        let mut parts = Vec::new(alloc);
        if let Some(part) = case.part("schedule") {
            put_schedule(alloc, &part.bytes, &mut parts)?;
        }
        let mut out = Bytes::new(alloc);
        for part in &case.parts {
            put_part(alloc, case, part, &mut out)?;
        }
        if !out.is_empty() {
            add_bytes(alloc, &mut parts, "output", out)?;
        }
        Ok(parts)
    }
}
