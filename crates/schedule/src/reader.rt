ghost use Rattle.std.specs.Prelude.{◌≡◌, ◌≢◌, ◌++◌, ◌∷◌, ◌<◌, ◌≤◌, ◌^◌, ℕ, List, Err, codes, decimal, IfOk, IfSome, MatchOption};
ghost use Rattle.std.specs.Char.{digit_value};
ghost use Rattle.zbase.specs.Hex.{hex16_text};
ghost use Rattle.schedule.specs.Rows.{Lacks};
ghost use Rattle.schedule.specs.Items.{HasLine, IsSchedule, item_text, workers};
ghost use Rattle.schedule.specs.BadLines.{BeginsItem, IsBadAt};
ghost use Rattle.schedule.specs.declared.reader.Unread.TheVariants.{Bad, Memory};
ghost use Rattle.schedule.specs.declared.reader.ScheduleRefusal.TheVariants.{BadLine};

use crate::{Item2, Schedule, WORKERS};
use itoa::Buffer;
use std::alloc::{AllocError, Global};
use zbase::{Bytes, Memory as NoMemory, Tid, read_hex16};

/// Why bytes are no schedule.
#[derive(Clone, Copy, Debug, PartialEq, Eq)]
pub enum ScheduleRefusal {
    /// The line with this number is bad. The first line is 1, and a `request` line with its bytes is one line.
    /// Input that ends early is bad at the line in which it ends, or at the next number where a whole line came
    /// last; bytes behind `end` are bad at the next number.
    BadLine(u64),
    /// Want of memory.
    Memory,
}

// Why an item was not read.
#[derive(Clone, Copy, Debug, PartialEq, Eq)]
enum Unread {
    Bad,
    Memory,
}

impl From<AllocError> for Unread {
    ghost from_gives = { λ _ e. e ≡ Memory };

    fn from(_: AllocError) -> Unread {
        Unread::Memory
    }
}

impl From<NoMemory> for Unread {
    ghost from_gives = { λ _ e. e ≡ Memory };

    fn from(_: NoMemory) -> Unread {
        Unread::Memory
    }
}

// What is before the first such byte, and what is behind it.
fn split_byte(bytes: &[u8], byte: u8) -> Option<(&[u8], &[u8])>
    ensures parts { MatchOption result (Lacks byte bytes.now) (λ parts. bytes.now ≡ parts.0.now ++ byte ∷ parts.1.now) }
    ensures first { IfSome result (λ parts. Lacks byte parts.0.now) }
{
    let at = bytes.iter().position(|b| *b == byte)?;
    Some((&bytes[..at], &bytes[at + 1..]))
}

// What is behind a front.
fn after<'a>(bytes: &'a [u8], front: &[u8]) -> Option<&'a [u8]>
    ensures { MatchOption result ((rest : List ℕ) → bytes.now ≢ front.now ++ rest) (λ rest. bytes.now ≡ front.now ++ rest.now) }
{
    bytes.strip_prefix(front)
}

// The number whose decimal form the text is. It is read, printed again and compared, so that leading zeros,
// signs and spaces are refused.
fn read_decimal(text: &[u8]) -> Result<u64, Unread>
    ensures number { IfOk result (λ n. text.now ≡ decimal n) }
    ensures bad { result ≡ Err Bad → (n : ℕ) → n < 2 ^ 64 → text.now ≢ decimal n }
{
    let digits = std::str::from_utf8(text).ok().ok_or(Unread::Bad)?;
    let n: u64 = digits.parse().ok().ok_or(Unread::Bad)?;
    let mut again = Buffer::new();
    if again.format(n).as_bytes() != text {
        return Err(Unread::Bad);
    }
    Ok(n)
}

// The number at the front and the byte that ends it, and what is behind them.
fn number_at(bytes: &[u8], end: u8) -> Result<(u64, &[u8]), Unread>
    requires no_digit { 10 ≤ digit_value end }
    ensures number { IfOk result (λ read. bytes.now ≡ decimal read.0 ++ end ∷ read.1.now) }
    ensures bad { result ≡ Err Bad → (n : ℕ) (rest : List ℕ) → n < 2 ^ 64 → bytes.now ≢ decimal n ++ end ∷ rest }
{
    let (number, rest) = split_byte(bytes, end).ok_or(Unread::Bad)?;
    Ok((read_decimal(number)?, rest))
}

// A worker's number and the byte that ends it, and what is behind them.
fn worker_at(bytes: &[u8], end: u8) -> Result<(u32, &[u8]), Unread>
    requires no_digit { 10 ≤ digit_value end }
    ensures number { IfOk result (λ read. bytes.now ≡ decimal read.0 ++ end ∷ read.1.now) }
    ensures worker { IfOk result (λ read. read.0 < workers) }
    ensures bad { result ≡ Err Bad → (w : ℕ) (rest : List ℕ) → w < workers → bytes.now ≢ decimal w ++ end ∷ rest }
{
    let (number, rest) = number_at(bytes, end)?;
    if number >= WORKERS as u64 {
        return Err(Unread::Bad);
    }
    Ok((number as u32, rest))
}

// The request whose line goes on here behind its word, and what is behind it.
fn request_at(alloc: Global, fields: &[u8]) -> Result<(Item2, &[u8]), Unread>
    ensures text { IfOk result (λ read. codes "request " ++ fields.now ≡ item_text read.0 ++ read.1.now) }
    ensures line { IfOk result (λ read. HasLine read.0) }
    ensures bad { result ≡ Err Bad → BeginsItem (codes "request " ++ fields.now) → ⊥ }
{
    let (worker, rest) = worker_at(fields, b' ')?;
    let (len, rest) = number_at(rest, b'\n')?;
    let len = len as usize;
    if rest.len() < len {
        return Err(Unread::Bad);
    }
    let (bytes, rest) = rest.split_at(len);
    let rest = after(rest, b"\n").ok_or(Unread::Bad)?;
    Ok((
        Item2::Request(worker, Bytes::from_slice(alloc, bytes)?),
        rest,
    ))
}

// The step whose line goes on here behind its word, and what is behind it.
fn step_at(fields: &[u8]) -> Result<(Item2, &[u8]), Unread>
    ensures text { IfOk result (λ read. codes "step " ++ fields.now ≡ item_text read.0 ++ read.1.now) }
    ensures line { IfOk result (λ read. HasLine read.0) }
    ensures bad { result ≡ Err Bad → BeginsItem (codes "step " ++ fields.now) → ⊥ }
{
    let (worker, rest) = worker_at(fields, b'\n')?;
    Ok((Item2::Step(worker), rest))
}

// The id that ends its line, and what is behind it.
fn id_at(fields: &[u8]) -> Result<(u64, &[u8]), Unread>
    ensures id { IfOk result (λ read. fields.now ≡ hex16_text read.0 ++ 10 ∷ read.1.now) }
    ensures small { IfOk result (λ read. read.0 < 2 ^ 64) }
    ensures bad { result ≡ Err Bad → (t : ℕ) (rest : List ℕ) → t < 2 ^ 64 → fields.now ≢ hex16_text t ++ 10 ∷ rest }
{
    let (digits, rest) = split_byte(fields, b'\n').ok_or(Unread::Bad)?;
    let id = read_hex16(digits).ok_or(Unread::Bad)?;
    Ok((id, rest))
}

// The clock whose line goes on here behind its word, and what is behind it.
fn clock_at(fields: &[u8]) -> Result<(Item2, &[u8]), Unread>
    ensures text { IfOk result (λ read. codes "clock " ++ fields.now ≡ item_text read.0 ++ read.1.now) }
    ensures line { IfOk result (λ read. HasLine read.0) }
    ensures bad { result ≡ Err Bad → BeginsItem (codes "clock " ++ fields.now) → ⊥ }
{
    let (stamp, rest) = id_at(fields)?;
    Ok((Item2::Clock(Tid(stamp)), rest))
}

// The pack whose line goes on here behind its word, and what is behind it.
fn pack_at(fields: &[u8]) -> Result<(Item2, &[u8]), Unread>
    ensures text { IfOk result (λ read. codes "pack " ++ fields.now ≡ item_text read.0 ++ read.1.now) }
    ensures line { IfOk result (λ read. HasLine read.0) }
    ensures bad { result ≡ Err Bad → BeginsItem (codes "pack " ++ fields.now) → ⊥ }
{
    let (before, rest) = id_at(fields)?;
    Ok((Item2::Pack(Tid(before)), rest))
}

// The count of device calls and the seed of an armed fault, and what is behind their line.
fn calls_at(fields: &[u8]) -> Result<(u64, u64, &[u8]), Unread>
    ensures numbers { IfOk result (λ read. fields.now ≡ decimal read.0 ++ 32 ∷ (decimal read.1 ++ 10 ∷ read.2.now)) }
    ensures some { IfOk result (λ read. 0 < read.0) }
    ensures bad { result ≡ Err Bad → (n seed : ℕ) (rest : List ℕ) → 0 < n → n < 2 ^ 64 → seed < 2 ^ 64
        → fields.now ≢ decimal n ++ 32 ∷ (decimal seed ++ 10 ∷ rest) }
{
    let (calls, rest) = number_at(fields, b' ')?;
    if calls == 0 {
        return Err(Unread::Bad);
    }
    let (seed, rest) = number_at(rest, b'\n')?;
    Ok((calls, seed, rest))
}

// The stop whose line goes on here behind its word, and what is behind it.
fn stop_at(fields: &[u8]) -> Result<(Item2, &[u8]), Unread>
    ensures text { IfOk result (λ read. codes "stop " ++ fields.now ≡ item_text read.0 ++ read.1.now) }
    ensures line { IfOk result (λ read. HasLine read.0) }
    ensures bad { result ≡ Err Bad → BeginsItem (codes "stop " ++ fields.now) → ⊥ }
{
    let (calls, seed, rest) = calls_at(fields)?;
    Ok((Item2::Stop(calls, seed), rest))
}

// The failure whose line goes on here behind its word, and what is behind it.
fn fail_at(fields: &[u8]) -> Result<(Item2, &[u8]), Unread>
    ensures text { IfOk result (λ read. codes "fail " ++ fields.now ≡ item_text read.0 ++ read.1.now) }
    ensures line { IfOk result (λ read. HasLine read.0) }
    ensures bad { result ≡ Err Bad → BeginsItem (codes "fail " ++ fields.now) → ⊥ }
{
    let (calls, seed, rest) = calls_at(fields)?;
    Ok((Item2::Fail(calls, seed), rest))
}

// The item at the front, and what is behind it.
fn item_at(alloc: Global, bytes: &[u8]) -> Result<(Item2, &[u8]), Unread>
    ensures text { IfOk result (λ read. bytes.now ≡ item_text read.0 ++ read.1.now) }
    ensures line { IfOk result (λ read. HasLine read.0) }
    ensures bad { result ≡ Err Bad → BeginsItem bytes.now → ⊥ }
{
    if let Some(fields) = after(bytes, b"request ") {
        return request_at(alloc, fields);
    }
    if let Some(fields) = after(bytes, b"step ") {
        return step_at(fields);
    }
    if let Some(fields) = after(bytes, b"clock ") {
        return clock_at(fields);
    }
    if let Some(fields) = after(bytes, b"stop ") {
        return stop_at(fields);
    }
    if let Some(fields) = after(bytes, b"fail ") {
        return fail_at(fields);
    }
    let fields = after(bytes, b"pack ").ok_or(Unread::Bad)?;
    pack_at(fields)
}

/// The schedule that the bytes spell, all of them.
pub fn read_schedule(alloc: Global, bytes: &[u8]) -> Result<Schedule, ScheduleRefusal>
    ensures schedule { IfOk result (λ items. IsSchedule bytes.now items) }
    ensures bad_line { (n : ℕ) → result ≡ Err (BadLine n) → IsBadAt bytes.now n }
{
    let mut items = Schedule::new(alloc);
    let Some(mut rest) = after(bytes, b"zope schedule 1\n") else {
        return Err(ScheduleRefusal::BadLine(1));
    };
    let mut line: u64 = 2;
    'reading: loop {
        if let Some(behind) = after(rest, b"end\n") {
            if behind.is_empty() {
                return Ok(items);
            }
            return Err(ScheduleRefusal::BadLine(line + 1));
        }
        let (item, others) = match item_at(alloc, rest) {
            Ok(read) => read,
            Err(Unread::Bad) => return Err(ScheduleRefusal::BadLine(line)),
            Err(Unread::Memory) => return Err(ScheduleRefusal::Memory),
        };
        if items.push(item).is_err() {
            return Err(ScheduleRefusal::Memory);
        }
        rest = others;
        line += 1;
    }
}
