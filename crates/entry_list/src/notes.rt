//! Entries that proofs alone read. They take no memory.
ghost use Rattle.std.specs.Prelude.{◌≡◌, ◌++◌, ◌∷◌, List, []};
ghost use Rattle.std.specs.Borrow.{ftrue};
ghost use Rattle.entry_list.specs.LentActs.{act_lent};
ghost use Rattle.entry_list.specs.Raises.{raise_entries};
ghost use Rattle.entry_list.specs.declared.kinds.Entry.{Entry};
ghost use Rattle.entry_list.specs.declared.kinds.Entry.TheVariants.{Answered, Began, Took};

use crate::entry_encoding::{AnsweredParts, GreetedParts, TookParts};
use crate::kinds::LentAct;
use std::marker::Model;

/// The entries that were noted, in order.
#[derive(Drop)]
pub(crate) struct EntryNotes {
    pub ghost items: { List Entry },
}

impl Model for EntryNotes {
    ghost also_owns = { λ _. ftrue };
}

impl EntryNotes {
    /// No entries.
    pub(crate) fn new() -> EntryNotes
        ensures { result.items ≡ [] }
    {
        EntryNotes {}
    }

    /// Those entries, and then the one that an operation began.
    #[inline(always)]
    pub(crate) fn and_began(_before: &EntryNotes, _act: &LentAct<'_>) -> EntryNotes
        ensures { result.items ≡ _before.now.items ++ Began (act_lent _act.now) ∷ [] }
    {
        EntryNotes {}
    }

    /// Those entries, and then the ones of a raise to where a session begins again.
    #[inline(always)]
    pub(crate) fn and_raised(_before: &EntryNotes, _greeted: &GreetedParts) -> EntryNotes
        ensures { result.items
            ≡ _before.now.items ++ raise_entries _greeted.now.client _greeted.now.counter }
    {
        EntryNotes {}
    }

    /// Those entries, and then the one of a reply.
    #[inline(always)]
    pub(crate) fn and_took(_before: &EntryNotes, _took: &TookParts<'_>) -> EntryNotes
        ensures { result.items
            ≡ _before.now.items
            ++ Took _took.now.number _took.now.partition _took.now.place _took.now.reply.now ∷ [] }
    {
        EntryNotes {}
    }

    /// Those entries, and then the one of an answer.
    #[inline(always)]
    pub(crate) fn and_answered(_before: &EntryNotes, _answered: &AnsweredParts<'_>) -> EntryNotes
        ensures { result.items ≡ _before.now.items ++ Answered _answered.now.answer.now ∷ [] }
    {
        EntryNotes {}
    }
}
