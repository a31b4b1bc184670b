//! The running store: seats that have their calls served at partitions behind locks, and a worker for each partition.
//!
//! Choices:
//! - A call that its queue returns counts as a worker's 10.
//! - A raise is entered as a stop and a hello, which a verdict takes as steps of the plain store. Their answers are
//!   not recorded: the stamps in the journals show to what counter it was.
//! - A seat's ticket is in no clause: it shows only past 2^62 transactions.
//! - A reply of another partition than its call was made for stops the seat (10): so a COMMIT's reply is its
//!   home's.
//! - A COMMIT takes its partition's lock anew, also where the last Prepared came under it: no difference was
//!   measured.
//! - Draws and reports share a clock's one word, so what is drawn behind a report is above it. Reads look at it in
//!   every mode, for one load each: a store without reports answers and records as before.
//! - `Seat::learn` is for programs that pass on what a seat has seen; a server's sessions need none.
//! - A close looks at every partition's word before it takes a book. What is known of one partition ends at the
//!   last look, and a later one may show more. The numbers go into a list reserved at opening, since a close takes
//!   no memory.
//! - Join handles lie in `Sealed`, which only its owner reaches, since they cannot be shared: one thread opens and
//!   closes a hub.
//! - A partition whose book does not fit the config leaves no journals: what lies behind a lock is known only by
//!   its type, so the close looks again.
//! - No clause refuses a hub that always reports a refused thread: what the system grants is in no contract.
#![tactic(auto)]

mod by_clock;
mod call_pool;
mod clients;
mod clocks;
mod closing;
mod dispatcher;
mod hub;
mod new_store;
mod operation;
mod read_laws;
mod register;
mod seal;
mod seat;
mod seat_request;
mod start;

pub use clients::{AdmissionCheck, Departure};
pub use closed_store::{Closed, Config, Entry, EntryList, JoinFault, Operation, Taken, Transcript};
pub use history::{Front, Naming};
pub use hub::Hub;
pub use new_store::NewStore;
pub use partition::Usage;
pub use read_laws::{
    puts_by_clock_rise, seat_lists_are_atomic, seat_lists_are_fresh,
    seat_lists_restart_below_a_floor, seat_puts_are_committed, seat_puts_end_by_a_refusal,
    seat_reads_are_atomic, seat_reads_are_fresh, seat_reads_miss_no_put_that_was_done,
    seat_reads_miss_no_put_that_was_reported, seat_reads_restart_below_a_floor,
};
pub use seat::Seat;
pub use shard::{Gate, Named, Sink, TenantUsage};
pub use start::HubFault;
