//! The stamp of a moment: the id of a transaction that is begun at it.
//!
//! ZODB's `TimeStamp`: in the high 4 bytes the minutes since 1900, on a calendar whose months have 31 days; in the low 4
//! the time within the minute, of which a minute has 2^32 parts. The calendar is `jiff`'s.
#![tactic(auto)]

ghost use Rattle.std.specs.Prelude.{ℕ, ℤ, ◌≡◌, ◌<◌, ◌-ℤ◌, ◌≤ℤ◌, pos, unsigned_abs, IfOk, IfErr, IfSome, IfNone};
ghost use Rattle.jiff.specs.Words.{IsTimestampNanos};
ghost use Rattle.stamp.specs.Stamps.{IsMoment, IsOutOfRange, IsStamp, high, low, nanos_of};

use jiff::Timestamp;
use jiff::civil::DateTime;
use jiff::tz::Offset;
use zbase::Tid;

/// Why a moment has no stamp.
#[derive(Debug, Drop)]
pub enum StampRefusal {
    /// It is no instant of the calendar's, before 1900, or its minutes pass 4 bytes.
    OutOfRange,
}

// Nanoseconds of a second.
const SECOND: i128 = 1_000_000_000;

// The date and time of a moment, in UTC.
fn moment_of(unix_seconds: i64, nanos: u32) -> Option<DateTime>
    requires { nanos < 1_000_000_000 }
    ensures some { IfSome result (IsMoment unix_seconds nanos) }
    ensures instant { IfSome result (λ _. IsTimestampNanos (nanos_of unix_seconds nanos)) }
    ensures none { IfNone result (¬ (IsTimestampNanos (nanos_of unix_seconds nanos))) }
{
    match Timestamp::from_nanosecond(unix_seconds as i128 * SECOND + nanos as i128) {
        Ok(moment) => Some(Offset::UTC.to_datetime(moment)),
        Err(_) => None,
    }
}

fn count(x: i8) -> u64
    ensures { result ≡ unsigned_abs x }
{
    x.unsigned_abs() as u64
}

fn years_since_1900(year: i16) -> u64
    requires { pos 1900 ≤ℤ year }
    ensures { result ≡ unsigned_abs (year -ℤ pos 1900) }
{
    (year - 1900).unsigned_abs() as u64
}

// The minutes since 1900.
fn high_of(civil: DateTime) -> u64
    requires { pos 1900 ≤ℤ civil.date.year }
    ensures { result ≡ high civil }
{
    let months = years_since_1900(civil.year()) * 12 + (count(civil.month()) - 1);
    let days = months * 31 + (count(civil.day()) - 1);
    (days * 24 + count(civil.hour())) * 60 + count(civil.minute())
}

// The time within the minute.
fn low_of(civil: DateTime) -> u64
    ensures is { result ≡ low civil }
    ensures bound { result < 4_294_967_296 }
{
    let nanos = civil.subsec_nanosecond().unsigned_abs() as u64;
    let within = count(civil.second()) * 1_000_000_000 + nanos;
    (within as u128 * 4_294_967_296 / 60_000_000_000) as u64
}

/// A moment has one stamp, or none.
pub fn one_stamp()
    ensures one { (seconds : ℤ) (nanos a b : ℕ) → IsStamp seconds nanos a → IsStamp seconds nanos b → a ≡ b }
    ensures or_none { (seconds : ℤ) (nanos a : ℕ) → IsStamp seconds nanos a → IsOutOfRange seconds nanos → ⊥ }
{}

/// The stamp of a moment in whole seconds since 1970-01-01 in UTC, and nanoseconds. Takes no memory.
pub fn stamp(unix_seconds: i64, nanos: u32) -> Result<Tid, StampRefusal>
    requires { nanos < 1_000_000_000 }
    ensures ok { IfOk result (λ tid. IsStamp unix_seconds nanos tid) }
    ensures err { IfErr result (λ _. IsOutOfRange unix_seconds nanos) }
{
    let Some(civil) = moment_of(unix_seconds, nanos) else {
        return Err(StampRefusal::OutOfRange);
    };
    if civil.year() < 1900 {
        return Err(StampRefusal::OutOfRange);
    }
    let high = high_of(civil);
    if high > u32::MAX as u64 {
        return Err(StampRefusal::OutOfRange);
    }
    Ok(Tid(high * 4_294_967_296 + low_of(civil)))
}
