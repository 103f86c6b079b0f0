//! The connections of a hub, as a server of HTTP meets them: of each one message is read, on those that sent one a reply is
//! written, and all are closed.
//!
//! `arrive` accepts the connections of a round, and reads the message of each by `hear`, which closes one that has none; `answer`
//! writes the replies of some connections and closes them; `close_all` closes without a word. `specs/Clients` says what a connection
//! is in the end, `specs/Hearing` what reading makes of it, `specs/Arriving` what came so far in a round, and `specs/Ending` what
//! closes it. Nothing here knows a core or a tape, and no server stands on it yet.
#![tactic(auto)]

mod answering;
mod arriving;
mod asked;
mod hearing;

pub use answering::{answer, close_all};
pub use arriving::arrive;
pub use asked::Asked;
pub use hearing::hear;
