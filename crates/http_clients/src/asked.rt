use http_in::Message;
use zbase::Bytes;

/// What a connection asked for.
#[derive(Debug, Drop)]
pub struct Asked {
    /// Its message, whole or refused.
    pub message: Message,
    /// The bytes of that message.
    pub bytes: Bytes,
}
