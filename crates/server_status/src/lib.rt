//! The port at which a server reports over HTTP how much its store holds, and whether its answers were right so far.
//!
//! Choices:
//! - A status port answers 16 connections at a time, so a silent one delays nobody. Each read takes one partition's lock at a time.
#![tactic(auto)]

mod pages;
mod reading;
mod serving;
mod visitor;

pub use reading::Watched;
pub use serving::{StatusPort, serve_and_report};
