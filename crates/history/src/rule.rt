//! The rule of a history, and the steps that are taken under it.
use crate::entry::{
    CallToServe, Decision, Draw, HistoryEntry, JoinedClient, StoreToOpen, WriteToBegin,
};
use logbook::{Gain, Opening, Plain, Play, Rule};
use std::marker::Brand;

/// The rule of the history: it is legal, and each word is the number of its entries.
pub struct Law;

impl Rule<HistoryEntry, u64> for Law {
    ghost use Rattle.std.specs.Prelude.{[]};
    ghost use base.Fml.{ftrue};
    ghost use Rattle.history.specs.Rules.{IsRuleKept};

    ghost holds = { λ cells log. IsRuleKept cells log };

    ghost first = { [] };

    ghost hinted = { λ n log. Unit {0} };

    ghost shows = { λ log. [] };

    ghost keeps = { λ names log. ftrue };

    ghost moves = { λ ask before after answer. Unit {0} };
}

/// What a step gives beside what it reports: nothing.
pub struct Nothing;

impl Gain<HistoryEntry, u64> for Nothing {
    ghost use base.Fml.{ftrue};

    ghost after = { λ names about answer. ftrue };
}

/// A step that looks.
pub struct Look;

impl Play<HistoryEntry, u64> for Look {
    ghost use Rattle.history.specs.Rules.{Looks};

    ghost then = { Looks };
}

/// A step that adds an entry.
pub struct Add;

impl Play<HistoryEntry, u64> for Add {
    ghost use Rattle.history.specs.Rules.{Adds};

    ghost then = { Adds };
}

/// A step that raises a clock.
pub struct Raise;

impl Play<HistoryEntry, u64> for Raise {
    ghost use Rattle.history.specs.Rules.{Raises};

    ghost then = { Raises };
}

impl Plain<u32, HistoryEntry, u64> for Raise {
    ghost use Rattle.std.specs.Prelude.{None};
    ghost use Rattle.history.specs.declared.entry.HistoryEntry.TheVariants.{Passed};

    ghost ask = { λ tenant. Passed tenant };

    ghost state = { λ tenant. None };
}

/// That a put was refused, as an entry that is added.
pub struct GiveUp;

/// A step that adds a client, and a cell for its word.
pub struct Join;

impl Play<HistoryEntry, u64> for Join {
    ghost use Rattle.history.specs.Rules.{Joins};

    ghost then = { Joins };
}

/// A step that brings a client's word home.
pub struct Arrive;

impl Play<HistoryEntry, u64> for Arrive {
    ghost use Rattle.history.specs.Rules.{Arrives};

    ghost then = { Arrives };
}

// What the steps ask for: the entries that these values tell.
impl<'a> Opening<StoreToOpen<'a>, HistoryEntry> for Law {
    ghost use Rattle.std.specs.Prelude.{[], ◌∷◌};
    ghost use Rattle.history.specs.Asking.{opened_by};

    ghost log = { λ count given. opened_by given ∷ [] };
}

impl<'a> Plain<CallToServe<'a>, HistoryEntry, u64> for Add {
    ghost use Rattle.std.specs.Prelude.{None};
    ghost use Rattle.history.specs.Asking.{served_by};

    ghost ask = { λ asked. served_by asked };

    ghost state = { λ asked. None };
}

impl<'a> Plain<WriteToBegin<'a>, HistoryEntry, u64> for Add {
    ghost use Rattle.std.specs.Prelude.{None};
    ghost use Rattle.history.specs.Asking.{began_by};

    ghost ask = { λ begun. began_by begun };

    ghost state = { λ begun. None };
}

impl Plain<Decision, HistoryEntry, u64> for Add {
    ghost use Rattle.std.specs.Prelude.{None};
    ghost use Rattle.history.specs.declared.entry.HistoryEntry.TheVariants.{Decided};

    ghost ask = { λ decision. Decided decision };

    ghost state = { λ decision. None };
}

impl Plain<Decision, HistoryEntry, u64> for GiveUp {
    ghost use Rattle.std.specs.Prelude.{None};
    ghost use Rattle.history.specs.declared.entry.HistoryEntry.TheVariants.{GivenUp};

    ghost ask = { λ decision. GivenUp decision };

    ghost state = { λ decision. None };
}

impl Plain<u64, HistoryEntry, u64> for Add {
    ghost use Rattle.std.specs.Prelude.{None};
    ghost use Rattle.history.specs.declared.entry.HistoryEntry.TheVariants.{ReadBegan};

    ghost ask = { λ word. ReadBegan word };

    ghost state = { λ word. None };
}

impl Plain<Draw, HistoryEntry, u64> for Add {
    ghost use Rattle.std.specs.Prelude.{None};
    ghost use Rattle.history.specs.declared.entry.HistoryEntry.TheVariants.{Drew};

    ghost ask = { λ drawn. Drew drawn };

    ghost state = { λ drawn. None };
}

impl Plain<JoinedClient, HistoryEntry, u64> for Join {
    ghost use Rattle.std.specs.Prelude.{None};
    ghost use Rattle.history.specs.declared.entry.HistoryEntry.TheVariants.{Joined};

    ghost ask = { λ member. Joined member };

    ghost state = { λ member. None };
}

impl Plain<u64, HistoryEntry, u64> for Arrive {
    ghost use Rattle.std.specs.Prelude.{None};
    ghost use Rattle.history.specs.declared.entry.HistoryEntry.TheVariants.{Arrived};

    ghost ask = { λ word. Arrived word };

    ghost state = { λ word. None };
}

/// Which history it is. What shares a history is generic in it, and the call that opens one picks it.
pub trait Naming {
    ghost use Rattle.logbook.specs.Pages.{Book};

    ghost book: { Book };
}

impl Naming for Brand {
    ghost book = { record { number = 0; log_name = 0; cells_name = 0 } };
}
