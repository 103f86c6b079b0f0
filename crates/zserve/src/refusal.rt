ghost use Rattle.std.specs.Prelude.{◌≡◌};
ghost use Rattle.zserve.specs.Refusals.{of_hub as hub_refusal, of_tape as tape_refusal};

use zio::OutsideRefusal;

/// Why a server ended before its plan was done.
#[derive(Clone, Copy, Debug, PartialEq, Eq)]
pub enum ServeRefusal {
    /// The hub failed to listen, or to accept a connection.
    Hub,
    /// The tape failed.
    Tape,
    /// Want of memory outside a step.
    Memory,
}

/// What a server is refused for where its hub refuses a call.
pub(crate) fn of_hub(refusal: OutsideRefusal) -> ServeRefusal
    ensures { result ≡ hub_refusal refusal }
{
    match refusal {
        OutsideRefusal::Failed => ServeRefusal::Hub,
        OutsideRefusal::Memory => ServeRefusal::Memory,
    }
}

/// What a server is refused for where its tape does.
pub(crate) fn of_tape(refusal: OutsideRefusal) -> ServeRefusal
    ensures { result ≡ tape_refusal refusal }
{
    match refusal {
        OutsideRefusal::Failed => ServeRefusal::Tape,
        OutsideRefusal::Memory => ServeRefusal::Memory,
    }
}
