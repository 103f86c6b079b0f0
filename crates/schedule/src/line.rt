use evaluator::Ask;
use zbase::{Bytes, Clash, Oid, Text, Tid, Value};

/// One line of a report, with the bytes that follow it. The parts are those of the line, in order; a reply has
/// its bytes in the place of their number.
#[derive(Debug, Drop)]
pub enum Line {
    /// `zope report 1`.
    Head,
    /// `open TID N`: the file's last transaction and the number of its transactions.
    Opened(Tid, u64),
    /// `begin W TID`: an attempt began at this snapshot.
    Begin(u32, Tid),
    /// `fetch W ..`: a fact was fetched.
    Fetch(u32, Ask),
    /// `computed W`: a change is ready.
    Computed(u32),
    /// `busy W HOLDER`: the vote was refused, since the holder stands between vote and finish.
    Busy(u32, u32),
    /// `vote W TID`: voted.
    Vote(u32, Tid),
    /// `conflict W OID SEEN FOUND`: the vote met a later serial.
    Conflict(u32, Clash),
    /// `givenup W` and the four conflicts of a request.
    GivenUp(u32, [Clash; 4]),
    /// `idle W`: a step without a request.
    Idle(u32),
    /// `spent W tids`: no transaction id is left.
    SpentTids(u32),
    /// `spent W oids GREATEST N`: N new objects behind the greatest id would take the last id of all, or pass it.
    SpentOids(u32, Oid, u32),
    /// `spent W full NEED LIMIT`: the file would become longer than the limit.
    SpentFull(u32, u64, u64),
    /// `diskfault W`: a device call failed in the step.
    DiskFault(u32),
    /// `memory W`: want of memory in the step.
    Memory(u32),
    /// `unknown W TID`: a device call failed in a finish, so that it isn't known whether the transaction stands.
    Unknown(u32, Tid),
    /// `reply W read TID LEN`, with the reply's bytes.
    ReplyRead(u32, Tid, Bytes),
    /// `reply W commit TID LEN`, with the reply's bytes.
    ReplyCommit(u32, Tid, Bytes),
    /// `reply W none LEN`, with the reply's bytes.
    ReplyNone(u32, Bytes),
    /// `shown W OID ROLE`: an object that the page shows, and the role that let it.
    Shown(u32, Oid, Text),
    /// `denied W OID PERMISSION`: the object and the permission that a 401 names.
    Denied(u32, Oid, u8),
    /// `stop`: the machine stopped.
    Stop,
    /// `lost W`: a request that was cut off.
    Lost(u32),
    /// `openfault`: the opening after a stop failed, and is tried again.
    OpenFault,
    /// `restart TID N`: the file was opened after a stop.
    Restart(Tid, u64),
    /// `history N`: the number of transactions that follow.
    History(u64),
    /// `floor TID`: up to this transaction the file was packed. It stands where that is above 0.
    Floor(Tid),
    /// `transaction TID USER DESCRIPTION EXTENSION N`, N being the number of its records.
    Transaction(Tid, Bytes, Bytes, Bytes, u64),
    /// `record OID VALUE`.
    RecordRow(Oid, Value),
    /// `packed TID N`: the history before it was packed; its floor and the number of its transactions from then on.
    Packed(Tid, u64),
    /// `pack busy`: a worker has a request.
    PackBusy,
    /// `pack unreadable OID`: the least object that is kept and can't be read.
    PackUnreadable(Oid),
    /// `pack full NEED LIMIT`: the packed file would be longer than the limit.
    PackFull(u64, u64),
    /// `pack memory`: want of memory in the pack.
    PackMemory,
    /// `packfault`: a device call failed in the pack.
    PackFault,
    /// `end`.
    End,
}
