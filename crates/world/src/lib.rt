//! The whole store: all tenants, their messages and sessions, and all partitions, taking one step after another.
#![tactic(auto)]

mod collecting;
mod delivering;
mod sending;
mod tenant;
mod transacting;
mod world;

pub use world::World;
