//! The programs: a server, and whatever the words ask for.
#![tactic(auto)]

mod judged_lines;
mod serve;
mod served_lines;
mod words;

pub use command_line::ServerOptions;
pub use line_runs::{run_cell, run_sim};
pub use load::run_load;
pub use serve::{StoreLeft, StoreServer, run_server};
pub use server_sessions::{
    Accept, KeptTranscripts, Left, Listener, Open, OpenHub, Server, SessionLeft, SessionOptions,
    SessionRun, Tenants, run_session, run_session_as, serve_connections,
};
pub use server_verdicts::{Checked, Ending, LastEpochs, Standing, tell_checks, tell_verdicts};
pub use words::run_words;
