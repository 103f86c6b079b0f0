ghost use Rattle.std.specs.Prelude.{◌<◌};
ghost use Rattle.zserve.specs.Stamped.{IsStampAt, Stamps};

use stamp::stamp;
use zbase::Tid;
use zio::Clock;

// The stamp of a moment; 0 where it has none.
fn stamp_or_zero(seconds: i64, nanos: u32) -> Tid
    requires { nanos < 1_000_000_000 }
    ensures { IsStampAt (seconds, nanos) result }
{
    match stamp(seconds, nanos) {
        Ok(stamp) => stamp,
        Err(_) => Tid(0),
    }
}

/// The stamp of the moment that a clock answers; 0 where it fails, or its moment has none.
pub(crate) fn stamp_of<C: Clock>(clock: &mut C) -> Tid
    ensures { Stamps (C.ticks clock.old) (C.counter clock.old) result (C.ticks clock.new) (C.counter clock.new) }
{
    match clock.now() {
        Ok((seconds, nanos)) => stamp_or_zero(seconds, nanos),
        Err(_) => Tid(0),
    }
}
