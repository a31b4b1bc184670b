//! Sessions by name.
use stamps::{Client, Counter};

/// Whose session it is, how it was opened, and whether what it does is recorded.
#[derive(Clone, Copy)]
pub struct SeatName {
    pub tenant: u32,
    pub client: Client,
    /// Which of its client's sessions it is, from 1.
    pub turn: u64,
    /// The number of its seat, from 1.
    pub seat: u64,
    /// The base that it was opened with.
    pub base: Counter,
    /// The counter that opening it answered.
    pub counter: Counter,
    /// Whether its transcript has what it does.
    pub is_recorded: bool,
}
