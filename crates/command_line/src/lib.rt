//! What the words of the program ask for, as clap reads them.
//!
//! Choices:
//! - Help is an answer, its text open.
//! - A help text repeats its range: `clap` takes texts that are known as the program is compiled.
#![tactic(auto)]

mod command;
mod load_options;
mod options;
mod parsed_words;
mod server_options;

pub use line_protocol::VERSION;
pub use load_options::LoadOptions;
pub use options::{Asked, StoreOptions};
pub use parsed_words::{explain, help_is_asked_for, read_words, version_is_asked_for};
pub use server_options::ServerOptions;
