//! What stands at each partition: its book behind a lock, the jobs that wait there, and the worker that serves and cuts.
//!
//! Choices:
//! - Where a call goes is a fact of its type (`SeatCall`): whoever serves it shows that its partition is the home
//!   of its key.
//! - The gate's type carries the name of the store's history (`Named`), so no signature has a parameter more.
//! - What collections keep has a lock of its own, so `close` returns the config with which the hub began.
//! - A gate's arrival number is drawn before the lock is requested, so two may reach `inside` in the other order.
//! - Whether a gate counts calls is a constant with a value, which no contract can name. Without a value, a gate of
//!   `pass` and `inside` alone would not compile; a function with a default body cannot be proved equal to a
//!   definition of the trait. A stored test stands for it.
//! - An epoch has an event: without one any stretch would fit it, and so would an epoch of another store.
#![tactic(auto)]

mod collections;
mod collector;
mod counting;
mod epoch_cut;
mod gate;
mod jobs;
mod keep_settings;
mod maintenance;
mod named;
mod round;
mod seat_call;
mod seat_name;
mod shard;
mod sink;
mod usages;
mod worker;

pub use collections::CollectionCounts;
pub use collector::Collector;
pub use gate::Gate;
pub use jobs::{Fault, Job, JobReceiver, JobSender, QueueOver, SeatReply, Task, job_queue};
pub use keep_settings::{KeepSettings, TenantKeep};
pub use maintenance::collect_at;
pub use named::Named;
pub use round::Round;
pub use seat_call::SeatCall;
pub use seat_name::SeatName;
pub use shard::{CallState, FollowUp, Shard, ShardConfig, ShardState, Staged};
pub use sink::Sink;
pub use usages::TenantUsage;
pub use worker::{WorkEnded, replied, work};
