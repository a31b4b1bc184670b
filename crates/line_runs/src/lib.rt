//! Runs over any reader and writer: the lines of a stream are answered one by one, by a cell or by a whole store.
#![tactic(auto)]

mod cell_run;
mod device;
mod fault;
mod run;
mod service;
mod sim;

pub use cell_run::run_cell;
pub use device::write_text;
pub use fault::{End, ProgramFault, RunFault};
pub use run::{GATHERED, READ_LIMIT, flush, read_buffer, run_lines};
pub use service::LineService;
pub use sim::{put_answer, run_sim};
