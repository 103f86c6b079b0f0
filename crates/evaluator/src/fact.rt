ghost use Rattle.std.specs.Prelude.{◌≡◌};
ghost use Rattle.std.specs.Option.{option_copied};
ghost use Rattle.evaluator.specs.Facts.{ask_of, same_ask, look};

use crate::Ask;
use zbase::{Bytes, Items, Oid, Tid, Value};

/// What one transaction did to one object.
#[derive(Debug, Drop)]
pub struct Part {
    pub oid: Oid,
    /// The value that the transaction wrote.
    pub after: Value,
    /// The value before the transaction.
    pub before: Value,
    /// The serial before the transaction, 0 where the object had no record.
    pub before_serial: Tid,
}

/// The parts of a transaction, in the order of its data records.
pub type Parts = Items<Part>;

/// One transaction in the log.
#[derive(Debug, Drop)]
pub struct LogRow {
    pub tid: Tid,
    pub user: Bytes,
    pub description: Bytes,
}

/// The rows of a log, from the oldest.
pub type LogRows = Items<LogRow>;

/// What a history answers to an ask.
#[derive(Debug, Drop)]
pub enum Fact {
    Object {
        oid: Oid,
        value: Value,
        serial: Tid,
    },
    Transaction {
        tid: Tid,
        /// None exactly where the history has no transaction with this id above its floor.
        parts: Option<Parts>,
    },
    Log(LogRows),
}

/// The facts that an evaluation knows, in the order in which they were asked for.
pub type Facts = Items<Fact>;

fn answers(fact: &Fact, ask: Ask) -> bool
    ensures { result ≡ same_ask (ask_of fact.now) ask }
{
    match (fact, ask) {
        (Fact::Object { oid, .. }, Ask::Object(wanted)) => oid.0 == wanted.0,
        (Fact::Transaction { tid, .. }, Ask::Transaction(wanted)) => tid.0 == wanted.0,
        (Fact::Log(_), Ask::Log) => true,
        _ => false,
    }
}

/// The fact for an ask, none where it isn't known. Takes no memory.
pub fn look(known: &Facts, ask: Ask) -> Option<&Fact>
    ensures { option_copied result ≡ look known.now ask }
{
    known.as_slice().iter().find(|fact| answers(fact, ask))
}
