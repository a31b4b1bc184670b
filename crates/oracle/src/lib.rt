//! The plain store as a program: a slow evaluation of its definitions over lists, with which tests compare the real one.
#![tactic(auto)]

mod cell;
mod finding;
mod history;
mod lists;
mod log;
mod marks;
mod moves;
mod replies;
mod rounds;
mod run;
mod tags;
mod tenants;
mod writing;

pub use cell::cell_replies;
pub use tenants::oracle_run;
