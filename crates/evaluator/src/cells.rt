ghost use Rattle.std.specs.Prelude.{◌≡◌, ◌++◌, IfOk, OnOk, decimal, length};
ghost use Rattle.std.specs.Option.{option_copied};
ghost use Rattle.zbase.specs.Hex.{hex_byte, hex_bytes};
ghost use Rattle.zbase.specs.Query.{run};
ghost use Rattle.evaluator.specs.declared.outcome.Outcome.TheVariants.{Answer};
ghost use Rattle.evaluator.specs.declared.cells.CellRequest.{CellRequest};
ghost use Rattle.evaluator.specs.Cells.{copied, eval_cell, line_reply, parts_in, rows_in, shown_parts, shown_value, takes_cell, value_in, with_plus, written};
ghost use Rattle.evaluator.specs.CellLaws.{cell_changes, cell_replies, cells_ask_few, cells_lawful};
ghost use Rattle.evaluator.specs.Facts.{look};
ghost use Rattle.evaluator.specs.Questions.{outcome};

use crate::cell_texts::read_request;
use crate::{
    Ask, Draft, Entries, Entry, Evaluator, Fact, Facts, Holes, Name, Outcome, Reply, look,
};
use std::alloc::Global;
use zbase::{Bytes, Memory, Oid, Text, Tid, hex_digits};

/// A request of the smallest site: cells of bytes that are read, copied and made.
///
/// It has every way in which an evaluation may ask, answer and change, and nothing else.
#[derive(Clone, Copy, Debug, PartialEq, Eq)]
pub enum CellRequest {
    /// `read A`: the bytes of the cell.
    Read(Oid),
    /// `copy A B`: the bytes of A and a `+` become the value of B.
    Copy(Oid, Oid),
    /// `new A`: the same in a new cell.
    New(Oid),
    /// `log`: the number of transactions.
    Log,
    /// `part T`: the number of cells that a transaction wrote.
    Part(Tid),
}

/// The evaluator of cells. It keeps nothing between two evaluations.
#[derive(Debug, Drop)]
pub struct Cells {
    alloc: Global,
}

// Adds the two digits of a byte.
fn push_hex(text: &mut Text, byte: u8) -> Result<(), Memory>
    ensures { OnOk result (text.new ≡ text.old ++ hex_byte byte) }
{
    match str::from_utf8(hex_digits(byte).as_slice()) {
        Ok(digits) => text.push_str(digits),
        Err(_) => unreachable!(),
    }
}

fn hex_text(alloc: Global, bytes: &[u8]) -> Result<Text, Memory>
    ensures { IfOk result (λ text. text ≡ hex_bytes bytes.now) }
{
    let mut text = Text::new(alloc);
    for byte in bytes {
        push_hex(&mut text, *byte)?;
    }
    Ok(text)
}

fn decimal_text(alloc: Global, n: usize) -> Result<Text, Memory>
    ensures { IfOk result (λ text. text ≡ decimal n) }
{
    let digits = n.to_string(alloc)?;
    Text::from_str(alloc, digits.as_str())
}

// The bytes that a fact tells of its object.
fn value_in(fact: &Fact) -> Option<&Bytes>
    ensures { option_copied result ≡ value_in fact.now }
{
    match fact {
        Fact::Object { value, .. } => value.as_ref(),
        Fact::Transaction { .. } | Fact::Log(_) => None,
    }
}

fn shown_value(alloc: Global, fact: &Fact) -> Result<Text, Memory>
    ensures { IfOk result (λ text. text ≡ shown_value (value_in fact.now)) }
{
    match value_in(fact) {
        None => Text::from_str(alloc, "none"),
        Some(bytes) => hex_text(alloc, bytes.as_slice()),
    }
}

fn with_plus(alloc: Global, fact: &Fact) -> Result<Bytes, Memory>
    ensures { IfOk result (λ bytes. bytes ≡ with_plus (value_in fact.now)) }
{
    match value_in(fact) {
        None => Bytes::from_slice(alloc, b"+"),
        Some(bytes) => {
            let mut copy = bytes.copy()?;
            copy.push(b'+')?;
            Ok(copy)
        }
    }
}

fn shown_parts(alloc: Global, fact: &Fact) -> Result<Text, Memory>
    ensures { IfOk result (λ text. text ≡ shown_parts (parts_in fact.now)) }
{
    match fact {
        Fact::Transaction {
            parts: Some(parts),
            ..
        } => decimal_text(alloc, parts.len()),
        Fact::Transaction { parts: None, .. } | Fact::Object { .. } | Fact::Log(_) => {
            Text::from_str(alloc, "none")
        }
    }
}

fn count_of_rows(fact: &Fact) -> usize
    ensures { result ≡ length (rows_in fact.now) }
{
    match fact {
        Fact::Log(rows) => rows.len(),
        Fact::Object { .. } | Fact::Transaction { .. } => 0,
    }
}

// A change that writes these bytes, and nothing else.
fn written(alloc: Global, name: Name, bytes: Bytes) -> Result<Draft, Memory>
    ensures { IfOk result (λ draft. draft ≡ written name bytes) }
{
    let mut entries = Entries::new(alloc);
    entries.push(Entry::Write {
        name,
        bytes,
        holes: Holes::new(alloc),
    })?;
    Ok(Draft {
        user: Text::new(alloc),
        description: Text::new(alloc),
        entries,
    })
}

impl Cells {
    /// An evaluator of cells. Takes no memory.
    pub fn new(alloc: Global) -> Cells {
        Cells { alloc }
    }

    fn answer(&self, text: Text) -> Result<Outcome, Memory>
        ensures { IfOk result (λ it. it ≡ Answer (line_reply text)) }
    {
        Ok(Outcome::Answer(Reply::one_line(self.alloc, 200, text)?))
    }

    fn read(&self, known: &Facts, oid: Oid) -> Result<Outcome, Memory>
        ensures { IfOk result (λ it. it ≡ eval_cell (look known.now) (CellRequest.Read oid)) }
    {
        match look(known, Ask::Object(oid)) {
            None => Ok(Outcome::Need(Ask::Object(oid))),
            Some(fact) => self.answer(shown_value(self.alloc, fact)?),
        }
    }

    fn copy(&self, known: &Facts, from: Oid, to: Name) -> Result<Outcome, Memory>
        ensures { IfOk result (λ it. it ≡ outcome (run (look known.now) (copied from to))) }
    {
        match look(known, Ask::Object(from)) {
            None => Ok(Outcome::Need(Ask::Object(from))),
            Some(fact) => {
                let done = Reply::one_line(self.alloc, 200, Text::from_str(self.alloc, "done")?)?;
                let draft = written(self.alloc, to, with_plus(self.alloc, fact)?)?;
                Ok(Outcome::Change(done, draft))
            }
        }
    }

    fn log(&self, known: &Facts) -> Result<Outcome, Memory>
        ensures { IfOk result (λ it. it ≡ eval_cell (look known.now) CellRequest.Log) }
    {
        match look(known, Ask::Log) {
            None => Ok(Outcome::Need(Ask::Log)),
            Some(fact) => self.answer(decimal_text(self.alloc, count_of_rows(fact))?),
        }
    }

    fn part(&self, known: &Facts, tid: Tid) -> Result<Outcome, Memory>
        ensures { IfOk result (λ it. it ≡ eval_cell (look known.now) (CellRequest.Part tid)) }
    {
        match look(known, Ask::Transaction(tid)) {
            None => Ok(Outcome::Need(Ask::Transaction(tid))),
            Some(fact) => self.answer(shown_parts(self.alloc, fact)?),
        }
    }
}

impl Evaluator for Cells {
    type Request = CellRequest;

    type State = ();

    ghost takes = { takes_cell };

    ghost meaning = { eval_cell };

    ghost fits = { λ _ _ _. Unit {0} };

    fn take(&self, bytes: &[u8]) -> Result<Option<CellRequest>, Memory> {
        Ok(read_request(bytes))
    }

    fn fresh(&self) {}

    fn eval(
        &mut self,
        _state: &mut (),
        known: &Facts,
        request: &CellRequest,
    ) -> Result<Outcome, Memory> {
        match request {
            CellRequest::Read(oid) => self.read(known, *oid),
            CellRequest::Copy(from, to) => self.copy(known, *from, Name::Old(*to)),
            CellRequest::New(from) => self.copy(known, *from, Name::New(0)),
            CellRequest::Log => self.log(known),
            CellRequest::Part(tid) => self.part(known, *tid),
        }
    }

    ghost lawful = { cells_lawful };

    ghost few_asks = { cells_ask_few };

    ghost changes = { λ facts request reply draft _. cell_changes (look facts) request reply draft };

    ghost replies = { cell_replies };
}
