ghost use Rattle.std.specs.Prelude.{◌≡◌, ◌+◌, ◌∷◌, List, [], IfErr, IfOk, IsErrOf, OnOk, string_bytes};
ghost use Rattle.std.specs.Io.KnownBytes.{append_known};
ghost use Rattle.zbase.specs.Faults.{Counts, Rose};
ghost use Rattle.schedule.specs.declared.line.Line.{Line};
ghost use Rattle.drawn_runs.specs.Rounds.{drawn_run};
ghost use Rattle.zbase.specs.Hex.{hex16_text};
ghost use Rattle.schedule.specs.Lines.{report_text};
ghost use Rattle.report_tally.specs.Lasts.{last_tid};
ghost use Rattle.report_tally.specs.Tallies.{capped, tally_of};
ghost use Rattle.report_tally.specs.Tidy.{AreTidy};
ghost use Rattle.zope.specs.CheckCauses.{PrintCause};
ghost use Rattle.zope.specs.Drawn.{Drawn, DrawnCause, IsReportOf, RunCause, counted_lines, requests_in, six_lines};

use crate::refusal::Refusal;
use drawn_runs::drawn_run;
use fs_record::{MAX_LENGTH, one_opening};
use new_site::{new_sites_open, site_bytes};
use publisher::Site;
use replay::{RunRefusal, replay};
use report_tally::{Tally, explained_reports_are_tidy, last_digits, tally};
use schedule::{Item2, Schedule};
use site_links::SiteLinks;
use std::alloc::Global;
use zbase::{Bytes, FaultPlan, Memory, Tid};
use zio::{MemorySink, OutsideRefusal, Sink};

/// The id of the transaction that makes the site of a drawn run.
const FIRST_STAMP: u64 = 0x0331_6200_0000_0000;

// One more, where the item is a request.
fn one_more(count: u64, item: &Item2) -> u64
    ensures { result ≡ capped (count + requests_in (item.now ∷ [])) }
{
    match item {
        Item2::Request(_, _) => count.saturating_add(1),
        Item2::Step(_) => count,
        Item2::Clock(_) => count,
        Item2::Stop(_, _) => count,
        Item2::Fail(_, _) => count,
        Item2::Pack(_) => count,
        Item2::End => count,
    }
}

// How many requests a schedule has.
#[tactic(auto, using(crate::proofs::Drawing::one_item))]
fn requests_in(items: &[Item2]) -> u64
    ensures { result ≡ capped (requests_in items.now) }
{
    let mut count: u64 = 0;
    for item in items {
        count = one_more(count, item);
    }
    count
}

// Five lines, each with a count.
fn counts_of(alloc: Global, requests: u64, tally: Tally) -> Result<String, Memory>
    ensures { IfOk result (λ lines. string_bytes lines ≡ counted_lines requests tally) }
{
    Ok(format!(in alloc;
        "requests {}\nreads {}\ncommits {}\nconflicts {}\ngivenup {}\n",
        requests, tally.reads, tally.commits, tally.conflicts, tally.given_up
    )?)
}

// All six lines.
fn lines_of(alloc: Global, requests: u64, tally: Tally, last: &[u8]) -> Result<Bytes, Memory>
    ensures { IfOk result (λ lines. lines ≡ six_lines requests tally last.now) }
{
    let counts = counts_of(alloc, requests, tally)?;
    let mut lines = Bytes::from_slice(alloc, counts.as_bytes())?;
    lines.append(b"last ")?;
    lines.append(last)?;
    lines.append(b"\n")?;
    Ok(lines)
}

// The report of the schedule, run over the site.
fn report_of(alloc: Global, number: u64, schedule: &Schedule) -> Result<MemorySink, Refusal>
    requires drawn { schedule.now ≡ drawn_run number }
    ensures report { IfOk result (λ sink. IsReportOf number (⟦<MemorySink as Sink>⟧.written sink)) }
    ensures cause { IfErr result (RunCause number) }
{
    new_sites_open();
    one_opening();
    let bytes = site_bytes(alloc, Tid(FIRST_STAMP), "admin", "secret")?;
    let mut report = MemorySink::new(alloc, FaultPlan::none(alloc));
    let links = SiteLinks::new(alloc);
    match replay(
        alloc,
        bytes,
        MAX_LENGTH,
        schedule,
        Site::new(alloc),
        &links,
        &mut report,
    ) {
        Ok(_disk) => Ok(report),
        Err(RunRefusal::BadLine(line)) => Err(Refusal::BadLine(line)),
        Err(RunRefusal::Memory) => Err(Refusal::Memory),
        // A new site opens.
        Err(RunRefusal::Damaged(_, _)) => unreachable!(),
        // No write is to fail.
        Err(RunRefusal::Output) => unreachable!(),
    }
}

// What is told of the report that is held.
fn summary_of(alloc: Global, requests: u64, report: &[u8]) -> Result<Bytes, Memory>
    ensures { (lines : List Line) → AreTidy lines → report.now ≡ report_text lines
        → IfOk result (λ text. text ≡ six_lines requests (tally_of lines) (hex16_text (last_tid lines))) }
{
    lines_of(alloc, requests, tally(report), last_digits(report))
}

// Writes the six lines.
fn put_summary<K: Sink>(lines: &Bytes, out: &mut K) -> Result<(), Refusal>
    ensures ok { OnOk result (K.written out.new ≡ append_known (K.written out.old) lines.now) }
    ensures cause { IfErr result (PrintCause (Rose (K.counter out.old) (K.counter out.new)) lines.now (K.written out.old) (K.written out.new)) }
    ensures counts { Counts (K.counter out.old) (K.counter out.new) (IsErrOf result Refusal.Output) }
{
    match out.write_all(lines.as_slice()) {
        Ok(()) => Ok(()),
        Err(OutsideRefusal::Failed) => Err(Refusal::Output),
        Err(OutsideRefusal::Memory) => Err(Refusal::Memory),
    }
}

/// Replays the schedule that a number draws over a new site, and prints how many requests it has, how many reading replies, commits,
/// conflicts and given-up requests its report has, and the last transaction.
pub fn generate<K: Sink>(alloc: Global, number: u64, out: &mut K) -> Result<(), Refusal>
    ensures ok { OnOk result (Drawn number (K.written out.old) (K.written out.new)) }
    ensures cause { IfErr result (DrawnCause number (Rose (K.counter out.old) (K.counter out.new)) (K.written out.old) (K.written out.new)) }
    ensures counts { Counts (K.counter out.old) (K.counter out.new) (IsErrOf result Refusal.Output) }
{
    explained_reports_are_tidy::<Site>();
    let schedule = drawn_run(alloc, number)?;
    let requests = requests_in(schedule.as_slice());
    let report = report_of(alloc, number, &schedule)?;
    let lines = summary_of(alloc, requests, report.bytes())?;
    put_summary(&lines, out)
}
