//! How a run ends, and what keeps a program from its end.

ghost use Rattle.std.specs.Prelude.{◌≡◌};
ghost use Rattle.line_runs.specs.declared.fault.ProgramFault.TheVariants.{OutOfMemory as NoMemory};
ghost use Rattle.line_runs.specs.declared.fault.RunFault.TheVariants.{OutOfMemory};
ghost use Rattle.line_runs.specs.Statuses.{fault_of_run, status_of};

use std::alloc::AllocError;
use std::io::Write;
use thiserror::Error;

/// How the input ended.
#[derive(Clone, Copy, Debug, PartialEq, Eq)]
pub enum End {
    /// After a whole line, or before any byte.
    Whole,
    /// At a line of `LINE_LIMIT` bytes or more.
    TooLong,
    /// Within a line.
    Cut,
}

/// Why a run could not go on.
#[derive(Clone, Copy, Debug, PartialEq, Eq, Error)]
pub enum RunFault {
    /// A read failed.
    #[error("a read failed")]
    Read,
    /// 2^62 reads did not come to the end of the input.
    #[error("the input does not end")]
    ReadsUsed,
    /// A write failed, or took no byte.
    #[error("a write failed")]
    Write,
    /// An allocation failed.
    #[error("out of memory")]
    OutOfMemory,
}

impl From<AllocError> for RunFault {
    ghost from_gives = { λ _ fault. fault ≡ OutOfMemory };

    fn from(_error: AllocError) -> RunFault {
        RunFault::OutOfMemory
    }
}

impl From<plain_store::OutOfMemory> for RunFault {
    ghost from_gives = { λ _ fault. fault ≡ OutOfMemory };

    fn from(_error: plain_store::OutOfMemory) -> RunFault {
        RunFault::OutOfMemory
    }
}

/// Why a program ends with a status other than 0.
#[derive(Clone, Copy, Debug, PartialEq, Eq, Error)]
pub enum ProgramFault {
    /// The input has a line of `LINE_LIMIT` bytes or more.
    #[error("LineTooLong")]
    LineTooLong,
    /// The input ends within a line.
    #[error("Cut")]
    Cut,
    /// A tenant of a store that was closed is not settled.
    #[error("Settle")]
    Settle,
    /// Invalid command-line arguments.
    #[error("Options")]
    Options,
    /// An allocation failed.
    #[error("OutOfMemory")]
    OutOfMemory,
    /// A read or a write failed, or the input does not end.
    #[error("Device")]
    Device,
}

impl ProgramFault {
    /// The exit status, from 1 to 4.
    pub fn status(self) -> u8
        ensures { result ≡ status_of self }
    {
        match self {
            ProgramFault::LineTooLong | ProgramFault::Cut | ProgramFault::Settle => 1,
            ProgramFault::Options => 2,
            ProgramFault::OutOfMemory => 3,
            ProgramFault::Device => 4,
        }
    }

    /// Writes the one line that reports the fault, as `ramp: Options`, and gives the exit status. A
    /// write that fails changes nothing.
    pub fn report<E: Write>(self, errors: &mut E) -> u8
        ensures { result ≡ status_of self }
    {
        let _ = writeln!(errors, "ramp: {self}");
        self.status()
    }
}

impl From<AllocError> for ProgramFault {
    ghost from_gives = { λ _ fault. fault ≡ NoMemory };

    fn from(_error: AllocError) -> ProgramFault {
        ProgramFault::OutOfMemory
    }
}

impl From<plain_store::OutOfMemory> for ProgramFault {
    ghost from_gives = { λ _ fault. fault ≡ NoMemory };

    fn from(_error: plain_store::OutOfMemory) -> ProgramFault {
        ProgramFault::OutOfMemory
    }
}

impl From<RunFault> for ProgramFault {
    ghost from_gives = { λ run fault. fault ≡ fault_of_run run };

    fn from(fault: RunFault) -> ProgramFault {
        match fault {
            RunFault::Read | RunFault::ReadsUsed | RunFault::Write => ProgramFault::Device,
            RunFault::OutOfMemory => ProgramFault::OutOfMemory,
        }
    }
}
