//! Tests alone: every public call and type of the programs, each by its name, as in `tests_surface`. They stand apart, since the crates
//! below are proved long before the programs are.
#![tactic(auto)]

#[cfg(test)]
mod of_workload;
