//! The words, read.
ghost use Rattle.std.specs.Prelude.{◌≡◌, ◌≢◌, ◌⊎◌, [], ◌∷◌, codes, IfOk, IfErr, OnOk, map, string_bytes};
ghost use Rattle.clap.specs.Words.{kind_of};
ghost use Rattle.command_line.specs.Asked.{WordsAskFor, IsWordsFault};
ghost use Rattle.command_line.specs.Words.{AsksForHelp, AsksForNothing, AsksForVersion, IsText};

use crate::command::command;
use crate::options::{Asked, named_twice, read_matches, tenant_words, wrong_name};
use clap::ArgMatches;
use clap::error::ErrorKind;
use line_runs::ProgramFault;
use std::alloc::Global;
use std::io::{Error, Write};

/// A law: these words ask for help, and for nothing else.
pub fn help_is_asked_for()
    ensures program { AsksForHelp (codes "ramp" ∷ codes "--help" ∷ []) }
    ensures cell { AsksForHelp (codes "ramp" ∷ codes "cell" ∷ codes "--help" ∷ []) }
    ensures sim { AsksForHelp (codes "ramp" ∷ codes "sim" ∷ codes "--help" ∷ []) }
    ensures serve { AsksForHelp (codes "ramp" ∷ codes "serve" ∷ codes "--help" ∷ []) }
    ensures load { AsksForHelp (codes "ramp" ∷ codes "load" ∷ codes "--help" ∷ []) }
{}

/// A law: these words ask for the version, and for nothing else.
pub fn version_is_asked_for()
    ensures { AsksForVersion (codes "ramp" ∷ codes "--version" ∷ []) }
{}

/// What the words ask for, of which the first is the program's name: a cell, a store, a server or a load, or help or the
/// version, whose text is made then. `Options` comes where they ask for none of these, and `OutOfMemory` where an allocation failed.
pub fn read_words(alloc: Global, words: &[String]) -> Result<Asked, ProgramFault>
    ensures asked { IfOk result (WordsAskFor (map string_bytes words.now)) }
    ensures error { IfErr result (IsWordsFault (AsksForNothing (map string_bytes words.now))) }
{
    let command = command(alloc)?;
    match command.try_get_matches_from(words) {
        Ok(matches) => read_matches(alloc, &matches),
        Err(error) => Ok(Asked::Text(text_of(alloc, &error)?)),
    }
}

// What clap does not look at.
const RULES: &str =
    "error: wrong tenants, or options that exclude each other: there are 1 to 64 tenants, none named twice, each name 1 to 16 bytes of
a-z, 0-9 and _; ramp load has no more --seats than --clients; and --unrecorded excludes an --epoch above 0
";

/// Writes what is wrong with words that ask for nothing. A write that fails changes nothing, and nothing is written where an
/// allocation fails.
pub fn explain<E: Write>(alloc: Global, words: &[String], errors: &mut E) {
    let Ok(command) = command(alloc) else {
        return;
    };
    let _ = match command.try_get_matches_from(words) {
        Ok(matches) => explain_rules(&matches, errors),
        Err(error) => write!(errors, "{error}"),
    };
}

// Writes which word is no tenant's name, or comes twice, or else all rules that clap does not look at.
fn explain_rules<E: Write>(matches: &ArgMatches<'_>, errors: &mut E) -> Result<(), Error> {
    let words = tenant_words(matches);
    if let Some(word) = wrong_name(words) {
        return write!(
            errors,
            "error: '{word}' is no tenant's name: 1 to 16 bytes of a-z, 0-9 and _\n"
        );
    }
    if let Some(word) = named_twice(words) {
        return write!(errors, "error: the tenant {word} is named twice\n");
    }
    errors.write_all(RULES.as_bytes())
}

// Help is an answer, and so is the version, and any other text of clap's is not.
fn text_of(alloc: Global, error: &clap::Error) -> Result<String, ProgramFault>
    ensures asked { OnOk result (IsText (kind_of error.now)) }
    ensures error { IfErr result
        (IsWordsFault ((kind_of error.now ≢ ErrorKind.OutOfMemory)
        × (IsText (kind_of error.now) → ⊥))) }
    // Words that ask for no text, and that clap had the memory to read, are not an allocation failure.
    ensures memory { IfErr result (λ fault. fault ≡ ProgramFault.OutOfMemory
        → (kind_of error.now ≡ ErrorKind.OutOfMemory) ⊎ IsText (kind_of error.now)) }
{
    match error.kind() {
        ErrorKind::DisplayHelp | ErrorKind::DisplayVersion => Ok(error.to_string(alloc)?),
        ErrorKind::OutOfMemory => Err(ProgramFault::OutOfMemory),
        _ => Err(ProgramFault::Options),
    }
}
