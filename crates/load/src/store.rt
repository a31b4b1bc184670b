//! How a store is opened that nobody watches, and how it is closed.
ghost use Rattle.std.specs.Prelude.{◌≡◌, IfOk};
ghost use Rattle.hub.specs.Hubs.{view_with};
ghost use Rattle.load.specs.Stores.{DoneOrRefused, IsClosed};
ghost use Rattle.server_sessions.specs.Histories.{IsOfHistory};
ghost use Rattle.server_sessions.specs.Ports.{transcripts_of};
ghost use Rattle.server_verdicts.specs.Judged.{AreEnded, AreLeft};

use hub::{Closed, Front, Hub, HubFault, Named, Naming, NewStore, Sink};
use line_runs::ProgramFault;
use server_sessions::{KeptTranscripts, Open, OpenHub};
use server_verdicts::{JournalChecks, LastEpochs, endings_of};
use std::alloc::{AllocError, Global};
use std::marker::{Model, PhantomData};
use std::sync::Wait;
use std::thread::Threads;

/// What the store of a name left. `close_store` alone makes one, of a hub in that name, and there is one such hub: so who has one has closed
/// the store that each server in that name served. Contracts see what was left.
#[derive(Drop)]
pub struct NamedClosed<J: Naming> {
    closed: Closed,
    of: PhantomData<J>,
}

impl<J: Naming> Model for NamedClosed<J> {
    ghost use Rattle.closed_store.specs.declared.closed.Closed.{Closed};

    ghost Value = { Closed };

    ghost view = { λ its. its.closed };
}

impl<J: Naming> NamedClosed<J> {
    /// The recorded history that the store left.
    pub fn closed(&self) -> &Closed
        ensures { result.now ≡ self.now }
    {
        &self.closed
    }

    /// What was left, no longer under its name.
    pub fn into_closed(self) -> Closed
        ensures { result ≡ self }
    {
        let NamedClosed { closed, of: _ } = self;
        closed
    }

    /// What was left of the journals, row by row with what is known of each. It fails where an allocation failed.
    pub fn into_endings<C: JournalChecks + Drop>(
        self,
        alloc: Global,
        known: Vec<Vec<C>>,
    ) -> Result<NamedEndings<J>, AllocError>
        ensures limits { IfOk result
            (λ endings. endings.limits.items ≡ self.config.limits.items) }
        ensures left { IfOk result (λ endings. AreLeft self.journals.items endings.rows.items) }
        ensures known { IfOk result
            (λ endings. AreEnded C.has_ended known.items endings.rows.items) }
    {
        let closed = self.into_closed();
        let limits = closed.config.limits;
        let endings = endings_of(alloc, limits, closed.journals, known)?;
        Ok(NamedEndings {
            endings,
            of: PhantomData,
        })
    }
}

/// What was left of the journals of the store of a name, with what is known of each. Contracts see the endings.
#[derive(Drop)]
pub struct NamedEndings<J: Naming> {
    endings: LastEpochs,
    of: PhantomData<J>,
}

impl<J: Naming> Model for NamedEndings<J> {
    ghost use Rattle.server_verdicts.specs.declared.epochs.ending.LastEpochs.{LastEpochs};

    ghost Value = { LastEpochs };

    ghost view = { λ its. its.endings };
}

impl<J: Naming> NamedEndings<J> {
    /// What was left of each journal, with what is known of it.
    pub fn endings(&self) -> &LastEpochs
        ensures { result.now ≡ self.now }
    {
        &self.endings
    }
}

/// Opens a hub that nobody watches.
pub fn open_hub<
    J: Naming + Send + Sync + Drop + 'static,
    S: Sink<Named<J, Open>> + Send + Sync + Drop + 'static,
    H: Threads + Wait + Clone + Send + Drop + 'static,
>(rt: &H, alloc: Global, store: NewStore, sink: S) -> Result<OpenHub<J>, ProgramFault>
    requires { store.history.seen.book ≡ J.book }
    ensures { DoneOrRefused (λ hub. hub ≡ view_with store.config store.journals) result }
{
    match Hub::open(rt, alloc, store, Named::<J, Open>::new(Open), sink) {
        Ok(hub) => Ok(hub),
        Err(HubFault::OutOfMemory) => Err(ProgramFault::OutOfMemory),
        Err(HubFault::Thread) => Err(ProgramFault::Device),
    }
}

/// Closes a hub whose sessions left these transcripts, and answers what was seen of its history: where there are journals of a
/// partition, they have all calls that this has of it, but for epochs that were cut off, and each reply in the transcripts has its place
/// there.
pub fn close_store<J: Naming + Send + Sync + Drop + 'static, H: Threads + Wait>(
    rt: &H,
    hub: OpenHub<J>,
    kept: KeptTranscripts<Named<J, Open>>,
) -> (NamedClosed<J>, Front<Named<J, Open>>)
    ensures closed { IsClosed hub result.0 }
    ensures transcripts { result.0.transcripts.items ≡ transcripts_of kept }
    ensures history { ∥ IsOfHistory result.1 result.0 ∥₁ }
{
    let (transcripts, told) = kept.into_both();
    let (closed, seen) = hub.close_with_history(rt, transcripts, &told);
    let closed = NamedClosed {
        closed,
        of: PhantomData,
    };
    (closed, seen.again())
}
