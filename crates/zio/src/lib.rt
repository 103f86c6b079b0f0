//! What the program is handed from outside: streams, a clock, a hub of connections and a shelf of files.
//!
//! Each trait has an implementation in memory, which tells what it holds and has a list of calls that are to
//! fail. All but the hub also have a thin adapter over the real thing, which tells only its count of
//! faults.
#![tactic(auto)]

mod clock;
mod folder;
mod hub;
mod memory_clock;
mod memory_connection;
mod memory_hub;
mod memory_shelf;
mod memory_sink;
mod memory_source;
mod part_count;
mod pending;
mod reader_source;
mod refusal;
mod shelf;
mod sink;
mod source;
mod system_clock;
mod unread;
mod writer_sink;

pub use clock::Clock;
pub use folder::Folder;
pub use hub::Hub;
pub use memory_clock::MemoryClock;
pub use memory_connection::MemoryConnection;
pub use memory_hub::MemoryHub;
pub use memory_shelf::{MemoryFile, MemoryShelf};
pub use memory_sink::MemorySink;
pub use memory_source::MemorySource;
pub use pending::Pending;
pub use reader_source::ReaderSource;
pub use refusal::{OutsideRefusal, ShelfRefusal};
pub use shelf::Shelf;
pub use sink::Sink;
pub use source::Source;
pub use system_clock::SystemClock;
pub use writer_sink::WriterSink;
