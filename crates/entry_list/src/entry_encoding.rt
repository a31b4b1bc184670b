//! Entries, packed at the end of bytes.
ghost use Rattle.std.specs.Prelude.{◌≡◌, ◌+◌, ◌≤◌, ◌++◌, OnOk, length};
ghost use Rattle.entry_list.specs.PackedEntries.{packed_entry, IsStoreEntry};
ghost use Rattle.entry_list.specs.LentActs.{act_lent};
ghost use Rattle.entry_list.specs.Sizes.{max_took_bytes, max_answered_bytes};

use crate::kinds::{Entry, LentAct};
use packed::{Buffer, MAX_NUMBER_BYTES, PackEntry, put_number};
use packed_steps::{
    MAX_ANSWER_BYTES, MAX_REPLY_BYTES, put_act, put_answer, put_find_act, put_get_act, put_put_act,
    put_reply,
};
use plain_store::{Answer, Reply};
use stamps::{Client, Counter};
use std::alloc::AllocError;

/// The most bytes of a reply's entry: one for its form, a number, a partition, a place and the reply.
pub const MAX_TOOK_BYTES: usize = 1 + 3 * MAX_NUMBER_BYTES + MAX_REPLY_BYTES;

/// The most bytes of an answer's entry: one for its form, and the answer.
pub const MAX_ANSWERED_BYTES: usize = 1 + MAX_ANSWER_BYTES;

/// The most bytes of the entries of a raise: two for the forms of each, the client twice and the counter.
pub const MAX_RAISE_BYTES: usize = 4 + 3 * MAX_NUMBER_BYTES;

/// The entry that an operation began. At `Err` some of its bytes may stand there.
pub fn put_began(out: &mut Buffer, act: &LentAct<'_>) -> Result<(), AllocError>
    ensures packed { OnOk result (out.new.items ≡ out.old.items
        ++ packed_entry (Entry.Began (act_lent act.now))) }
    ensures stored { OnOk result (IsStoreEntry (Entry.Began (act_lent act.now))) }
{
    out.reserve(1)?;
    out.push_reserved(0);
    match act {
        LentAct::Put(client, items) => put_put_act(out, *client, items),
        LentAct::Get(client, keys) => put_get_act(out, *client, keys),
        LentAct::Find(client, tag) => put_find_act(out, *client, tag),
        LentAct::Whole(act) => put_act(out, act),
    }
}

/// The parts of the entry that a client's session ended.
#[derive(Drop)]
pub(crate) struct StoppedParts {
    pub(crate) client: Client,
}

impl PackEntry for StoppedParts {
    ghost use Rattle.std.specs.Prelude.{◌+◌};
    ghost use Rattle.packed.specs.Sizes.{max_number_bytes};
    ghost use Rattle.plain_store.specs.declared.step.Act.TheVariants.{Stop};
    ghost use Rattle.entry_list.specs.declared.kinds.Entry.TheVariants.{Began};
    ghost use Rattle.entry_list.specs.PackedEntries.{packed_entry, IsStoreEntry};

    ghost packed_as = { λ e. packed_entry (Began (Stop e.client)) };

    ghost most_bytes = { λ e. 2 + max_number_bytes };

    ghost is_stored = { λ e. IsStoreEntry (Began (Stop e.client)) };

    fn put(&self, out: &mut Buffer) {
        out.put_front(&[0, 7], 2);
        put_number(out, u64::from(self.client.get()));
    }
}

/// The parts of the entry that a client's session began at this counter.
#[derive(Drop)]
pub(crate) struct GreetedParts {
    pub(crate) client: Client,
    pub(crate) counter: Counter,
}

impl PackEntry for GreetedParts {
    ghost use Rattle.std.specs.Prelude.{◌+◌, ◌*◌};
    ghost use Rattle.packed.specs.Sizes.{max_number_bytes};
    ghost use Rattle.plain_store.specs.declared.step.Act.TheVariants.{Hello};
    ghost use Rattle.entry_list.specs.declared.kinds.Entry.TheVariants.{Began};
    ghost use Rattle.entry_list.specs.PackedEntries.{packed_entry, IsStoreEntry};

    ghost packed_as = { λ e. packed_entry (Began (Hello e.client e.counter)) };

    ghost most_bytes = { λ e. 2 + 2 * max_number_bytes };

    ghost is_stored = { λ e. IsStoreEntry (Began (Hello e.client e.counter)) };

    fn put(&self, out: &mut Buffer) {
        out.put_front(&[0, 0], 2);
        put_number(out, u64::from(self.client.get()));
        put_number(out, self.counter.get());
    }
}

/// The parts of a reply's entry.
#[derive(Drop)]
pub(crate) struct TookParts<'a> {
    pub(crate) number: u64,
    pub(crate) partition: u32,
    pub(crate) place: u64,
    pub(crate) reply: &'a Reply,
}

impl<'a> PackEntry for TookParts<'a> {
    ghost use Rattle.entry_list.specs.declared.kinds.Entry.TheVariants.{Took};
    ghost use Rattle.entry_list.specs.PackedEntries.{packed_entry, IsStoreEntry};
    ghost use Rattle.entry_list.specs.Sizes.{max_took_bytes};

    ghost packed_as = { λ e. packed_entry (Took e.number e.partition e.place e.reply.now) };

    ghost most_bytes = { λ e. max_took_bytes };

    ghost is_stored = { λ e. IsStoreEntry (Took e.number e.partition e.place e.reply.now) };

    fn put(&self, out: &mut Buffer) {
        put_took(out, self.number, self.partition, self.place, self.reply);
    }
}

/// The parts of an answer's entry.
#[derive(Drop)]
pub(crate) struct AnsweredParts<'a> {
    pub(crate) answer: &'a Answer,
}

impl<'a> PackEntry for AnsweredParts<'a> {
    ghost use Rattle.entry_list.specs.declared.kinds.Entry.TheVariants.{Answered};
    ghost use Rattle.entry_list.specs.PackedEntries.{packed_entry, IsStoreEntry};
    ghost use Rattle.entry_list.specs.Sizes.{max_answered_bytes};

    ghost packed_as = { λ e. packed_entry (Answered e.answer.now) };

    ghost most_bytes = { λ e. max_answered_bytes };

    ghost is_stored = { λ e. IsStoreEntry (Answered e.answer.now) };

    fn put(&self, out: &mut Buffer) {
        put_answered(out, self.answer);
    }
}

/// The entry of a reply. It takes up to `MAX_TOOK_BYTES`.
pub fn put_took(out: &mut Buffer, number: u64, partition: u32, place: u64, reply: &Reply)
    requires { length out.old.items + max_took_bytes ≤ out.old.capacity }
    ensures packed { out.new.items ≡ out.old.items
        ++ packed_entry (Entry.Took number partition place reply.now) }
    ensures stored { IsStoreEntry (Entry.Took number partition place reply.now) }
    ensures few { length out.new.items ≤ length out.old.items + max_took_bytes }
    ensures room { out.old.capacity ≤ out.new.capacity }
{
    out.push_reserved(1);
    put_number(out, number);
    put_number(out, u64::from(partition));
    put_number(out, place);
    put_reply(out, reply);
}

/// The entry of an answer. It takes up to `MAX_ANSWERED_BYTES`.
pub fn put_answered(out: &mut Buffer, answer: &Answer)
    requires { length out.old.items + max_answered_bytes ≤ out.old.capacity }
    ensures packed { out.new.items ≡ out.old.items ++ packed_entry (Entry.Answered answer.now) }
    ensures stored { IsStoreEntry (Entry.Answered answer.now) }
    ensures few { length out.new.items ≤ length out.old.items + max_answered_bytes }
    ensures room { out.old.capacity ≤ out.new.capacity }
{
    out.push_reserved(2);
    put_answer(out, answer);
}
