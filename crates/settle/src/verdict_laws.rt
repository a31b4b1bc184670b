//! What holds of what is settled. Each law is the contract of a function that does nothing.
ghost use Rattle.std.specs.Prelude.{List};
ghost use Rattle.settle.specs.Input.{Input};
ghost use Rattle.settle.specs.Promises.{AnswersAreOwn, ReadsAreAtomic, NoneIsFalse, ReadsAreFresh, RestartsAreRight, WritesAreNewest};
ghost use Rattle.settle.specs.Verdict.{Settles};
ghost use Rattle.settle.specs.Words.{Step};

use plain_store::{
    no_answer_is_false, puts_are_newest, reads_are_atomic, reads_are_fresh, restarts_are_right,
};

/// Where `settle` answers a list, each answer that the threads gave a seat of the tenant is the plain store's, in that list,
/// to the very step that the seat's transcript gave for it: each read and each list is read atomic, none is false, no read is
/// older than what was done before it began in the list, and restarts are right. Who read keys first and then wrote, wrote
/// above all that was done at them before it began to read.
pub fn settled_answers_are_right()
    ensures own { (input : Input) (steps : List Step) (settled : Settles input steps)
        → AnswersAreOwn input steps settled }
    ensures atomic { (input : Input) (steps : List Step) (settled : Settles input steps)
        → ReadsAreAtomic input steps settled }
    ensures truthful { (input : Input) (steps : List Step) (settled : Settles input steps)
        → NoneIsFalse input steps settled }
    ensures fresh { (input : Input) (steps : List Step) (settled : Settles input steps)
        → ReadsAreFresh input steps settled }
    ensures newest { (input : Input) (steps : List Step) (settled : Settles input steps)
        → WritesAreNewest input steps settled }
    ensures restarts { (input : Input) (steps : List Step) (settled : Settles input steps)
        → RestartsAreRight input steps settled }
{
    reads_are_atomic();
    no_answer_is_false();
    reads_are_fresh();
    puts_are_newest();
    restarts_are_right();
}
