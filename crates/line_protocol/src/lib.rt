//! The text of lines, of a cell's and of the store's: what comes in is cut and read, what goes out is spelled.
#![tactic(auto)]

mod answer;
mod cell_line;
mod lines;
mod name;
mod request;
mod serve_line;
mod step_line;
mod token;
mod word;
mod write;

pub use answer::write_answer;
pub use cell_line::read_cell_line;
pub use lines::{LINE_LIMIT, Lines, lines_come_in_order};
pub use name::Name;
pub use request::Request;
pub use serve_line::read_serve_line;
pub use step_line::{read_step_line, tenant_number};
pub use write::{
    NoRoom, VERSION, write_bye, write_info, write_ready_as, write_refusal, write_reply,
};
