//! Tests alone: every public call and type that the crates are to have, each by its name, with its types written out. Whoever drops or
//! changes one sees this crate not compile.
//!
//! A file stands for a crate. It is written from what is promised to users, and not from the code: what is added beside that stands in
//! no file here.
#![tactic(auto)]

#[cfg(test)]
mod of_get_all;
#[cfg(test)]
mod of_hub;
#[cfg(test)]
mod of_line_protocol;
#[cfg(test)]
mod of_message_table;
#[cfg(test)]
mod of_partition;
#[cfg(test)]
mod of_plain_store;
#[cfg(test)]
mod of_prepare_commit;
#[cfg(test)]
mod of_put_all;
#[cfg(test)]
mod of_secondary_index;
#[cfg(test)]
mod of_settle;
#[cfg(test)]
mod of_stamps;
#[cfg(test)]
mod of_tenant_sessions;
#[cfg(test)]
mod of_version_arena;
#[cfg(test)]
mod of_version_chain;
#[cfg(test)]
mod of_world;
#[cfg(test)]
mod values;
