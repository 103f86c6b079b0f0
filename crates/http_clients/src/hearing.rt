ghost use Rattle.std.specs.Prelude.{◌≡◌, ◌⊎◌, ◌++◌, ◌<◌, ℕ, List, [], None, Some, IfOk, IfSome, IsErr, Ok, false, true, length, take};
ghost use Rattle.zio.specs.HubCalls.{WasOpen};
ghost use Rattle.http_in.specs.Messages.{asked, one_message};
ghost use Rattle.http_clients.specs.Hearing.{AsksFor, Comes, HearsAll, HearsOn, Passes, PassesUnheard, Stops, TellsStill};

use http_in::{Message, Reader, one_connection, one_message_alone};
use std::alloc::Global;
use zbase::{Bytes, Memory};
use zio::{Hub, OutsideRefusal};

/// How many bytes are asked of a connection at once.
const PIECE: usize = 4096;

// Reads a piece of a connection into the reader. False where the connection ends, or the read fails.
fn read_piece<H: Hub>(
    hub: &mut H,
    conn: u32,
    reader: &mut Reader,
    piece: &mut [u8],
) -> Result<bool, Memory>
    requires open { WasOpen conn (H.peers hub.old) }
    requires some { 0 < length piece.old }
    ensures more { result ≡ Ok true → (given : List ℕ) × (0 < length given) × (reader.new.rest ≡ reader.old.rest ++ given)
        × TellsStill (H.peers hub.old) (H.peers hub.new) (Comes conn given) }
    ensures stops { result ≡ Ok false → (reader.new.rest ≡ reader.old.rest) × TellsStill (H.peers hub.old) (H.peers hub.new) (Stops conn) }
    ensures err { IsErr result → (given : List ℕ) × TellsStill (H.peers hub.old) (H.peers hub.new) (λ p q. (q ≡ p) ⊎ Comes conn given p q) }
    ensures long { length piece.new ≡ length piece.old }
    ensures listening { H.listening hub.new ≡ H.listening hub.old }
{
    match hub.read(conn, piece) {
        Ok(0) => Ok(false),
        Ok(count) => {
            reader.feed(&piece[..count])?;
            Ok(true)
        }
        Err(OutsideRefusal::Failed) => Ok(false),
        Err(OutsideRefusal::Memory) => Err(Memory),
    }
}

// Reads from a connection until its bytes hold a message: that, with its bytes. None where the connection ends before, or a read
// of it fails.
fn read_message<H: Hub>(
    alloc: Global,
    hub: &mut H,
    conn: u32,
) -> Result<Option<(Message, Bytes)>, Memory>
    requires open { WasOpen conn (H.peers hub.old) }
    ensures some { IfOk result (λ heard. IfSome heard (λ x. (given : List ℕ) × (asked given ≡ Some (x.0, length x.1)) × (x.1 ≡ take (length x.1) given)
        × TellsStill (H.peers hub.old) (H.peers hub.new) (HearsOn conn given))) }
    ensures none { result ≡ Ok None → (given : List ℕ) × (asked given ≡ None) × TellsStill (H.peers hub.old) (H.peers hub.new) (HearsAll conn given) }
    ensures err { IsErr result → (given : List ℕ) × TellsStill (H.peers hub.old) (H.peers hub.new) (HearsOn conn given) }
    ensures listening { H.listening hub.new ≡ H.listening hub.old }
{
    one_message_alone();
    let mut piece = [0; PIECE];
    let mut reader = Reader::new(alloc);
    'reading: loop {
        if let Some(message) = reader.next()? {
            let bytes = Bytes::from_slice(alloc, reader.taken())?;
            return Ok(Some((message, bytes)));
        }
        if !read_piece(hub, conn, &mut reader, &mut piece)? {
            return Ok(None);
        }
    }
}

/// The message of a connection that was accepted, with its bytes. A connection without one is closed.
pub fn hear<H: Hub>(
    alloc: Global,
    hub: &mut H,
    conn: u32,
) -> Result<Option<(Message, Bytes)>, Memory>
    requires open { WasOpen conn (H.peers hub.old) }
    ensures one { IfOk result (λ heard. IfSome heard (λ x. one_message x.1 ≡ Some x.0)) }
    ensures some { IfOk result (λ heard. IfSome heard (λ x. TellsStill (H.peers hub.old) (H.peers hub.new) (AsksFor conn x.1))) }
    ensures none { result ≡ Ok None → TellsStill (H.peers hub.old) (H.peers hub.new) (PassesUnheard conn) }
    ensures err { IsErr result → TellsStill (H.peers hub.old) (H.peers hub.new) (Passes conn) }
    ensures listening { H.listening hub.new ≡ H.listening hub.old }
{
    one_message_alone();
    one_connection();
    match read_message(alloc, hub, conn) {
        Ok(Some((message, bytes))) => Ok(Some((message, bytes))),
        Ok(None) => {
            hub.close(conn);
            Ok(None)
        }
        Err(memory) => {
            hub.close(conn);
            Err(memory)
        }
    }
}
