ghost use Rattle.std.specs.Prelude.{◌≡◌, IfOk, IsErrOf, MatchResult, OnOk, string_bytes};
ghost use Rattle.std.specs.Io.KnownBytes.{append_known};
ghost use Rattle.zbase.specs.Faults.{Counts};
ghost use Rattle.zio.specs.Sinks.{AppendsFront};
ghost use Rattle.zope.specs.Causes.{last_line, unreadable_line};

use crate::inputs::MAX_INPUT;
use crate::refusal::Refusal;
use std::alloc::Global;
use zbase::{Memory, Oid, Text};
use zio::{OutsideRefusal, Sink};

// The line that names an object whose bytes are no object's.
fn unreadable_line(alloc: Global, oid: Oid) -> Result<String, Memory>
    ensures { IfOk result (λ line. string_bytes line ≡ unreadable_line oid) }
{
    let mut digits = Text::new(alloc);
    digits.push_hex16(oid.0)?;
    Ok(format!(in alloc; "unreadable {}\n", digits.as_str())?)
}

/// Writes the last line of a command over the file or repository of that name, which says why it did not end well. The sink's own fault has
/// none.
pub fn put_last_line<K: Sink>(
    alloc: Global,
    refusal: Refusal,
    name: &str,
    out: &mut K,
) -> Result<(), OutsideRefusal>
    ensures ok { OnOk result (K.written out.new ≡ append_known (K.written out.old) (last_line name.now refusal)) }
    ensures counts { Counts (K.counter out.old) (K.counter out.new) (IsErrOf result OutsideRefusal.Failed) }
{
    match refusal {
        Refusal::Usage => out.write_all(b"usage\n"),
        Refusal::NotLegible => out.write_all(b"not legible\n"),
        Refusal::Damaged(kind, place) => {
            let number = kind.number();
            put_text(format!(in alloc; "damaged {number} at {place}\n"), out)
        }
        Refusal::BadLine(line) => put_text(format!(in alloc; "bad line {line}\n"), out),
        Refusal::Disk => out.write_all(b"disk fault\n"),
        Refusal::Input => out.write_all(b"input fault\n"),
        Refusal::Output => Ok(()),
        Refusal::Memory => out.write_all(b"out of memory\n"),
        Refusal::Missing => put_text(format!(in alloc; "missing {name}\n"), out),
        Refusal::Exists => put_text(format!(in alloc; "exists {name}\n"), out),
        Refusal::InputTooLarge => put_text(format!(in alloc; "too large {MAX_INPUT}\n"), out),
        Refusal::FileTooLarge(size) => put_text(format!(in alloc; "too large {size}\n"), out),
        Refusal::TooLong(size) => put_text(format!(in alloc; "too long {size}\n"), out),
        Refusal::Unreadable(oid) => put_text(unreadable_line(alloc, oid), out),
        Refusal::PackExists => put_text(format!(in alloc; "exists {name}.pack\n"), out),
        Refusal::Full { need, limit } => {
            put_text(format!(in alloc; "full {need} {limit}\n"), out)
        }
        Refusal::MissingIndex => put_text(format!(in alloc; "missing {name}.dat\n"), out),
        Refusal::BadIndex(line) => put_text(format!(in alloc; "bad index {line}\n"), out),
        Refusal::BadPiece(piece) => {
            put_text(format!(in alloc; "bad piece {}\n", piece.as_str()), out)
        }
        Refusal::NamesSpent => out.write_all(b"names spent\n"),
    }
}

/// Writes a text that was made, for which there may be no memory.
pub fn put_text<E: Drop, K: Sink>(
    text: Result<String, E>,
    out: &mut K,
) -> Result<(), OutsideRefusal>
    ensures ok { OnOk result (MatchResult text (λ line. K.written out.new ≡ append_known (K.written out.old) (string_bytes line)) (λ _. ⊥)) }
    ensures failed { IsErrOf result OutsideRefusal.Failed
        → MatchResult text (λ line. AppendsFront (K.written out.old) (K.written out.new) (string_bytes line)) (λ _. ⊥) }
    ensures memory { IsErrOf result OutsideRefusal.Memory → K.written out.new ≡ K.written out.old }
    ensures counts { Counts (K.counter out.old) (K.counter out.new) (IsErrOf result OutsideRefusal.Failed) }
{
    match text {
        Ok(text) => out.write_all(text.as_bytes()),
        Err(_) => Err(OutsideRefusal::Memory),
    }
}
