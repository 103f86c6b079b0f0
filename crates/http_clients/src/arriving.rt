ghost use Rattle.std.specs.Prelude.{◌≡◌, ◌≤◌, ◌<◌, ℕ, List, [], false, true, Ok, IfOk, IfSome, IsErr, IsErrOf, length};
ghost use Rattle.zbase.specs.Faults.{Counts};
ghost use Rattle.http_clients.specs.Arriving.{Admits, AreMessages, Arrived, ArrivedBut, Leaves, Tells, bytes_of};
ghost use Rattle.http_clients.specs.Ending.{WereOpen};

use crate::Asked;
use crate::hearing::hear;
use std::alloc::Global;
use zio::{Hub, OutsideRefusal};

// Accepts the next connection, and reads its message. False where none came.
fn admit<H: Hub>(
    alloc: Global,
    hub: &mut H,
    numbers: &mut Vec<u32>,
    asked: &mut Vec<Asked>,
) -> Result<bool, OutsideRefusal>
    ensures none { result ≡ Ok false → (numbers.new.items ≡ numbers.old.items) × (asked.new.items ≡ asked.old.items) × (H.peers hub.new ≡ H.peers hub.old)
        × IfSome (H.peers hub.old) (λ p. p.coming ≡ []) }
    ensures some { result ≡ Ok true → Admits numbers.old.items numbers.new.items asked.old.items asked.new.items (H.peers hub.old) (H.peers hub.new) }
    ensures err { IsErr result → (numbers.new.items ≡ numbers.old.items) × (asked.new.items ≡ asked.old.items)
        × Tells (H.peers hub.old) (H.peers hub.new) Leaves }
    ensures listening { Counts (H.listening hub.old) (H.listening hub.new) (IsErrOf result OutsideRefusal.Failed) }
{
    if numbers.reserve(1).is_err() || asked.reserve(1).is_err() {
        return Err(OutsideRefusal::Memory);
    }
    let Some(number) = hub.accept()? else {
        return Ok(false);
    };
    if let Some((message, bytes)) = hear(alloc, hub, number)? {
        numbers.push_reserved(number);
        asked.push_reserved(Asked { message, bytes });
    }
    Ok(true)
}

// Whether a round that has so many connections takes a further one: the first in any case, each other one only where it waits.
fn takes_next<H: Hub>(hub: &mut H, count: u32) -> bool
    ensures peers { H.peers hub.new ≡ H.peers hub.old }
    ensures none { result ≡ false → IfSome (H.peers hub.old) (λ p. p.coming ≡ []) }
    ensures listening { H.listening hub.new ≡ H.listening hub.old }
{
    count == 0 || hub.has_waiting()
}

/// Accepts connections, so many at most: the first in any case, and each further one only where it waits. Of each one message is
/// read before the next is accepted. Those that sent one are open, and their numbers and messages are kept in order; the others
/// are closed. How many were accepted.
///
/// Refused where the hub fails to accept, or for want of memory; the connections whose numbers are kept are open then too.
pub fn arrive<H: Hub>(
    alloc: Global,
    hub: &mut H,
    most: u32,
    numbers: &mut Vec<u32>,
    asked: &mut Vec<Asked>,
) -> Result<u32, OutsideRefusal>
    requires empty { (numbers.old.items ≡ []) × (asked.old.items ≡ []) }
    ensures arrived { IfOk result (λ count. Tells (H.peers hub.old) (H.peers hub.new) (λ p q. Arrived p q numbers.new.items (bytes_of asked.new.items) count)) }
    ensures most { IfOk result (λ count. (length numbers.new.items ≤ count) × (count ≤ most)) }
    ensures fewer { IfOk result (λ count. count < most → IfSome (H.peers hub.new) (λ q. q.coming ≡ [])) }
    ensures refused { IsErr result → Tells (H.peers hub.old) (H.peers hub.new) (ArrivedBut numbers.new.items (bytes_of asked.new.items)) }
    ensures messages { AreMessages asked.new.items }
    ensures as_many { length numbers.new.items ≡ length asked.new.items }
    ensures open { WereOpen numbers.new.items (H.peers hub.new) }
    ensures listening { Counts (H.listening hub.old) (H.listening hub.new) (IsErrOf result OutsideRefusal.Failed) }
{
    for count in 0..most {
        if !takes_next(hub, count) {
            return Ok(count);
        }
        if !admit(alloc, hub, numbers, asked)? {
            return Ok(count);
        }
    }
    Ok(most)
}
