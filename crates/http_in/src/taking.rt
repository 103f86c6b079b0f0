ghost use Rattle.std.specs.Prelude.{◌≡◌, IfOk};
ghost use Rattle.http_in.specs.Messages.{one_message};

use crate::{Message, Reader};
use std::alloc::Global;
use zbase::Memory;

/// The message that the bytes are, with nothing behind it; none where they aren't one message.
pub fn take_message(alloc: Global, bytes: &[u8]) -> Result<Option<Message>, Memory>
    ensures { IfOk result (λ message. message ≡ one_message bytes.now) }
{
    let mut reader = Reader::new(alloc);
    reader.feed(bytes)?;
    let Some(message) = reader.next()? else {
        return Ok(None);
    };
    if reader.taken().len() == bytes.len() {
        Ok(Some(message))
    } else {
        Ok(None)
    }
}
