ghost use Rattle.std.specs.Prelude.{◌≡◌, IsErrOf};
ghost use Rattle.zbase.specs.Faults.{Counts};
ghost use Rattle.zio.specs.declared.refusal.OutsideRefusal.TheVariants.{Failed};

use zbase::FaultCount;
use zio::OutsideRefusal;

/// How often a hub has failed, and its listener, and its connections.
#[derive(Drop)]
pub(crate) struct Faults {
    pub(crate) all: FaultCount,
    pub(crate) listening: FaultCount,
    pub(crate) streaming: FaultCount,
}

impl Faults {
    /// None so far.
    pub(crate) fn new() -> Faults
        ensures all { result.all.count ≡ 0 }
        ensures listening { result.listening.count ≡ 0 }
        ensures streaming { result.streaming.count ≡ 0 }
    {
        Faults {
            all: FaultCount::new(),
            listening: FaultCount::new(),
            streaming: FaultCount::new(),
        }
    }

    /// Counts an answer of the listener.
    pub(crate) fn of_listening<T: Drop>(
        &mut self,
        answer: Result<T, OutsideRefusal>,
    ) -> Result<T, OutsideRefusal>
        ensures same { result ≡ answer }
        ensures all { Counts self.old.all self.new.all (IsErrOf answer Failed) }
        ensures listening { Counts self.old.listening self.new.listening (IsErrOf answer Failed) }
        ensures streaming { self.new.streaming ≡ self.old.streaming }
    {
        if let Err(OutsideRefusal::Failed) = &answer {
            self.all.fault();
            self.listening.fault();
        }
        answer
    }

    /// Counts an answer of a connection.
    pub(crate) fn of_streaming<T: Drop>(
        &mut self,
        answer: Result<T, OutsideRefusal>,
    ) -> Result<T, OutsideRefusal>
        ensures same { result ≡ answer }
        ensures all { Counts self.old.all self.new.all (IsErrOf answer Failed) }
        ensures listening { self.new.listening ≡ self.old.listening }
        ensures streaming { Counts self.old.streaming self.new.streaming (IsErrOf answer Failed) }
    {
        if let Err(OutsideRefusal::Failed) = &answer {
            self.all.fault();
            self.streaming.fault();
        }
        answer
    }
}
