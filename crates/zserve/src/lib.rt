//! A server, in rounds: connections are accepted, their messages are given to the workers of a core, those that wait take steps
//! in turns until each has its reply, and then the replies are written and all connections closed.
//!
//! `serve` listens and serves such rounds until its plan is done or no connection comes, over a hub, a clock and a tape. The tape
//! is a schedule by which all of it can be replayed: it has a round before a reply of it is written, and is brought to the device
//! at the end. `specs/Turns` says what turns are, `specs/Going` how a core goes on by what happens, `specs/Tapes` what rounds are,
//! `specs/Serving` and `Served` what they make of all that a server is given, and `specs/Reports` what the report of it is.
#![tactic(auto)]

mod answering;
mod giving;
mod lasting;
mod plan;
mod refusal;
mod running;
mod serving;
mod stamping;
mod taping;
mod turning;

pub use lasting::serve;
pub use plan::{ServePlan, Served};
pub use refusal::ServeRefusal;
