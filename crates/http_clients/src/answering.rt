ghost use Rattle.std.specs.Prelude.{◌≡◌, ◌<◌, ℕ, ⊤, List, Some, Err, false, length, slice_get};
ghost use Rattle.zio.specs.HubCalls.{WasOpen};
ghost use Rattle.http_clients.specs.Ending.{Ends, EndsAll, Sends, SendsReply, WereOpen};

use zbase::Bytes;
use zio::{Hub, OutsideRefusal};

// Whether memory was wanting for a write.
fn lacks_memory(wrote: &Result<(), OutsideRefusal>) -> bool
    ensures { result ≡ false → wrote.now ≡ Err OutsideRefusal.Memory → ⊥ }
{
    match wrote {
        Ok(()) => false,
        Err(OutsideRefusal::Failed) => false,
        Err(OutsideRefusal::Memory) => true,
    }
}

// Writes a reply and closes the connection, also where the write fails. Whether memory was wanting for that.
fn answer_one<H: Hub>(hub: &mut H, conn: u32, reply: &[u8]) -> bool
    requires open { WasOpen conn (H.peers hub.old) }
    ensures ended { Ends conn (λ end. result ≡ false → Sends reply.now end) (H.peers hub.old) (H.peers hub.new) }
    ensures listening { H.listening hub.new ≡ H.listening hub.old }
{
    let wrote = hub.write_all(conn, reply);
    hub.close(conn);
    lacks_memory(&wrote)
}

/// Writes each worker's reply on its connection, and closes all of them. Whether memory was wanting for one of them.
pub fn answer<H: Hub>(hub: &mut H, numbers: &[u32], replies: &[Option<Bytes>]) -> bool
    requires open { WereOpen numbers.now (H.peers hub.old) }
    requires replies { (w : ℕ) → w < length numbers.now → (reply : List ℕ) × (slice_get replies.now w ≡ Some (Some reply)) }
    ensures ended { EndsAll (λ w end. result ≡ false → SendsReply replies.now w end) numbers.now (H.peers hub.old) (H.peers hub.new) }
    ensures listening { H.listening hub.new ≡ H.listening hub.old }
{
    let mut short = false;
    for (worker, conn) in numbers.iter().enumerate() {
        let Some(reply) = &replies[worker] else {
            // Each worker has its reply.
            unreachable!();
        };
        let lacks = answer_one(hub, *conn, reply.as_slice());
        short = short || lacks;
    }
    short
}

/// Closes all of these connections.
pub fn close_all<H: Hub>(hub: &mut H, numbers: &[u32])
    requires open { WereOpen numbers.now (H.peers hub.old) }
    ensures ended { EndsAll (λ w end. ⊤) numbers.now (H.peers hub.old) (H.peers hub.new) }
    ensures listening { H.listening hub.new ≡ H.listening hub.old }
{
    for conn in numbers {
        hub.close(*conn);
    }
}
