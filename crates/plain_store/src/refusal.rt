//! Why a call is refused.
ghost use Rattle.std.specs.Prelude.{◌≡◌};
ghost use Rattle.plain_store.specs.Numbers.{number_of, refusal_of};

use std::fmt;

/// Why a step, a call or a line was refused, or a transaction ended.
#[derive(Clone, Copy, Debug, PartialEq, Eq)]
pub enum Refusal {
    /// No tenant has the name or the number.
    NoTenant,
    /// The client never said hello.
    NoSession,
    /// The session is open already, or a transaction is running.
    Busy,
    /// No item, too many, or one twice.
    BadItems,
    /// The client's counter is at its greatest value.
    StampsUsed,
    /// A partition keeps as many versions as it has slots for.
    FullSlots,
    /// A partition has as many items as it has room for.
    FullItems,
    /// The row was never sent, or was lost.
    NoMessage,
    /// There is no partition of this number.
    NoPartition,
    /// The session is closed.
    Stopped,
    /// Another record has a key and stamp of the write.
    Clash,
    /// A version that was asked for is not there.
    Unknown,
    /// A reply was inconsistent.
    Torn,
    /// More than `MAX_FOUND` items stand under the tag.
    TooMany,
    /// As many clients have said hello as the tenant may have.
    ClientsFull,
    /// A call's number is not above that of its seat's last call.
    Late,
    /// The rows, or the numbers of a seat's calls, are used up.
    RowsUsed,
    /// A partition has marks of as many clients as it has room for.
    FullMarks,
    /// The client had versions of this or a later stamp dropped.
    Discarded,
    /// An allocation failed.
    OutOfMemory,
    /// The line is none of the grammar's.
    BadLine,
    /// `LINE_LIMIT` bytes stand without a line end.
    LineTooLong,
    /// The stream ended inside a line.
    Cut,
}

impl Refusal {
    /// Each refusal, in the order of the numbers.
    pub const ALL: [Refusal; 23] = [
        Refusal::NoTenant,
        Refusal::NoSession,
        Refusal::Busy,
        Refusal::BadItems,
        Refusal::StampsUsed,
        Refusal::FullSlots,
        Refusal::FullItems,
        Refusal::NoMessage,
        Refusal::NoPartition,
        Refusal::Stopped,
        Refusal::Clash,
        Refusal::Unknown,
        Refusal::Torn,
        Refusal::TooMany,
        Refusal::ClientsFull,
        Refusal::Late,
        Refusal::RowsUsed,
        Refusal::FullMarks,
        Refusal::Discarded,
        Refusal::OutOfMemory,
        Refusal::BadLine,
        Refusal::LineTooLong,
        Refusal::Cut,
    ];

    /// The refusal that has this number, if one has it.
    pub fn of_number(number: u8) -> Option<Refusal>
        ensures { result ≡ refusal_of number }
    {
        for refusal in &Refusal::ALL {
            if refusal.number() == number {
                return Some(*refusal);
            }
        }
        None
    }

    /// The number by which lines name it.
    pub fn number(self) -> u8
        ensures { result ≡ number_of self }
    {
        match self {
            Refusal::NoTenant => 10,
            Refusal::NoSession => 11,
            Refusal::Busy => 12,
            Refusal::BadItems => 13,
            Refusal::StampsUsed => 14,
            Refusal::FullSlots => 15,
            Refusal::FullItems => 16,
            Refusal::NoMessage => 17,
            Refusal::NoPartition => 18,
            Refusal::Stopped => 19,
            Refusal::Clash => 20,
            Refusal::Unknown => 21,
            Refusal::Torn => 22,
            Refusal::TooMany => 23,
            Refusal::ClientsFull => 24,
            Refusal::Late => 25,
            Refusal::RowsUsed => 26,
            Refusal::FullMarks => 27,
            Refusal::Discarded => 28,
            Refusal::OutOfMemory => 30,
            Refusal::BadLine => 40,
            Refusal::LineTooLong => 41,
            Refusal::Cut => 42,
        }
    }
}

// Its name and its number, as `FullSlots (15)`.
impl fmt::Display for Refusal {
    fn fmt<W: fmt::Write>(&self, f: &mut fmt::Formatter<W>) -> fmt::Result {
        let number = self.number();
        write!(f, "{self:?} ({number})")
    }
}
