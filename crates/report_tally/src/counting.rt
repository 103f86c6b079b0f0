ghost use Rattle.std.specs.Prelude.{◌≡◌, List, MatchOption};
ghost use Rattle.zbase.specs.Hex.{hex16_text};
ghost use Rattle.schedule.specs.declared.line.Line.{Line};
ghost use Rattle.schedule.specs.Lines.{report_text};
ghost use Rattle.report_tally.specs.Lasts.{last_tid};
ghost use Rattle.report_tally.specs.Tallies.{counted, tally_of};
ghost use Rattle.report_tally.specs.Tidy.{AreTidy};

use crate::rows::{behind, bytes_behind, cut, kind_of, size, tid_in};
use crate::{Kind, Tally};

// One more line of that kind.
fn count(tally: Tally, kind: Kind) -> Tally
    ensures { result ≡ counted tally kind }
{
    let mut tally = tally;
    match kind {
        Kind::Read => tally.reads = tally.reads.saturating_add(1),
        Kind::Commit => tally.commits = tally.commits.saturating_add(1),
        Kind::Conflict => tally.conflicts = tally.conflicts.saturating_add(1),
        Kind::GivenUp => tally.given_up = tally.given_up.saturating_add(1),
        Kind::Other => {}
    }
    tally
}

/// The lines of a report by their kind, where each line is told by its text.
pub fn tally(report: &[u8]) -> Tally
    ensures { (lines : List Line) → AreTidy lines → report.now ≡ report_text lines → result ≡ tally_of lines }
{
    let mut tally = Tally {
        reads: 0,
        commits: 0,
        conflicts: 0,
        given_up: 0,
    };
    let mut rest = report;
    'counting: while size(rest) > 0 {
        let (row, more) = cut(rest, b'\n');
        tally = count(tally, kind_of(row));
        rest = behind(more, bytes_behind(row));
    }
    tally
}

// The digits that were found, or else those before.
fn later<'a>(last: &'a [u8], found: Option<&'a [u8]>) -> &'a [u8]
    ensures { MatchOption found.entry (result.now ≡ last.now) (λ digits. result.now ≡ digits.now) }
{
    match found {
        Some(digits) => digits,
        None => last,
    }
}

/// The digits of the last transaction of a report, 0 where it has none.
pub fn last_digits(report: &[u8]) -> &[u8]
    ensures { (lines : List Line) → AreTidy lines → report.now ≡ report_text lines → result.now ≡ hex16_text (last_tid lines) }
{
    let mut last: &[u8] = b"0000000000000000";
    let mut rest = report;
    'looking: while size(rest) > 0 {
        let (row, more) = cut(rest, b'\n');
        last = later(last, tid_in(row));
        rest = behind(more, bytes_behind(row));
    }
    last
}
