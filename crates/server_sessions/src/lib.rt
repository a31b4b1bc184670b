//! Sessions over a running store, and a server that has one for each of its connections.
//!
//! Choices:
//! - `bye` before `hello` is answered `bye`. A `put` before `hello` is 11 even if its list cannot be allocated.
//! - A session's state says that it is over (`SessionState`), and not the last bytes that it wrote.
//! - A listener is one that the system says is at 127.0.0.1.
//! - A new connection's failed allocation is reported as OutOfMemory: a user expects no I/O error there.
//! - A strict session ends at an unreadable line alone: 10 and 11 leave it open, so that a client that forgot
//!   `hello` can still say it.
//! - A session looks whether its peer has disconnected only if answers wait to be written: at the first flush after
//!   a write, then at one of 16. A look is a system call.
//! - A read looks for some 15 us before it sleeps where a server has one session or two: to be woken takes longer.
//!   With four sessions throughput fell to 0.75.
//! - No clause refuses a server whose device always fails: what the system grants is in no contract.
#![tactic(auto)]

mod answer_counts;
mod given;
mod kept_transcripts;
mod line_session;
mod line_times;
mod listener;
mod open_seat;
mod peer;
mod served;
mod server;
mod serving;
mod session_count;
mod session_options;
mod tenant_counts;
mod tenants;
mod unanswered;

pub use answer_counts::AnswerCounts;
pub use kept_transcripts::KeptTranscripts;
pub use line_session::{SessionLeft, SessionRun, run_session, run_session_as};
pub use line_times::LineTimes;
pub use listener::{Accept, Listener};
pub use served::{Connections, Left, ServerFaults};
pub use server::Server;
pub use serving::{Open, OpenHub, OpenSeat, serve_connections};
pub use session_options::SessionOptions;
pub use tenant_counts::{ServedCounts, TenantCount};
pub use tenants::Tenants;
