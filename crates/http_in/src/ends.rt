ghost use Rattle.std.specs.Prelude.{◌≡◌, ◌≤◌, [], ◌∷◌, length, take, drop, MatchOption};
ghost use Rattle.http_in.specs.Inside.{IsPassed, IsSearched, IsStep, searched_by, stepped_by};

use memchr::memchr;

/// What a search for the end of a head came to.
#[derive(Clone, Copy, Debug)]
pub(crate) enum Sought {
    /// The head has this length.
    Ends(usize),
    /// No end begins among the first so many bytes, whatever follows them.
    Goes(usize),
}

/// What the front of some bytes says of the end of a head.
#[derive(Clone, Copy, Debug)]
enum Step {
    /// The head ends here.
    Ends(usize),
    /// What follows the bytes decides.
    Waits,
    /// No end begins among the first so many bytes, whatever follows them.
    Passes(usize),
}

/// The first byte and what follows it.
fn parted(bytes: &[u8]) -> Option<(u8, &[u8])>
    ensures { MatchOption result (bytes.now ≡ []) (λ x. bytes.now ≡ x.0 ∷ x.1.now) }
{
    let (first, rest) = bytes.split_first()?;
    Some((*first, rest))
}

/// What the bytes behind an LF say.
fn step_behind(bytes: &[u8]) -> Step
    ensures { IsStep (10 ∷ bytes.now) (stepped_by result) }
{
    let Some((second, rest)) = parted(bytes) else {
        return Step::Waits;
    };
    if second == b'\n' {
        return Step::Ends(2);
    }
    if second != b'\r' {
        return Step::Passes(2);
    }
    let Some((third, _behind)) = parted(rest) else {
        return Step::Waits;
    };
    if third == b'\n' {
        Step::Ends(3)
    } else {
        Step::Passes(3)
    }
}

fn step_at(bytes: &[u8]) -> Step
    ensures { IsStep bytes.now (stepped_by result) }
{
    let Some((first, rest)) = parted(bytes) else {
        return Step::Waits;
    };
    if first == b'\n' {
        step_behind(rest)
    } else {
        Step::Passes(1)
    }
}

/// How many bytes stand before the first LF, or all where there is none.
fn line_len(bytes: &[u8]) -> usize
    ensures within { result ≤ length bytes.now }
    ensures passed { IsPassed (take result bytes.now) }
{
    match memchr(b'\n', bytes) {
        Some(at) => at,
        None => bytes.len(),
    }
}

/// Looks for the end of a head.
pub(crate) fn search(bytes: &[u8]) -> Sought
    ensures { IsSearched bytes.now (searched_by result) }
{
    let mut at = 0;
    'lines: loop {
        at += line_len(bytes.split_at(at).1);
        match step_at(bytes.split_at(at).1) {
            Step::Ends(end) => return Sought::Ends(at + end),
            Step::Waits => return Sought::Goes(at),
            Step::Passes(count) => at += count,
        }
    }
}
