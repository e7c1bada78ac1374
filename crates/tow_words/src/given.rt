//! What the matches of a command's words give for its arguments.

ghost use Rattle.std.specs.Prelude.{◌≡◌, ◌≢◌, ◌⊎◌, IfErr, IfOk, false, map, string_bytes, true};
ghost use Rattle.clap.specs.Faults.{is_simple_and_free};
ghost use Rattle.clap.specs.Matches.{found_of};
ghost use Rattle.clap.specs.Simple.{app_of};
ghost use Rattle.clap.specs.Values.{IsUnsignedIn, kind_of};
ghost use Rattle.clap.specs.Walk.{rows_of};
ghost use Rattle.tow_words.specs.Given as model;
ghost use Rattle.tow_words.specs.Given.{AreMatches, IsGiven, IsNumberIn, has_matches, number_of};
ghost use Rattle.tow_words.specs.declared.bounds.TheConstants.{LAST_MOMENT};

use crate::command::Why;
use crate::words::Words;
use clap::error::ErrorKind;
use clap::{ArgMatches, Command, Error};

/// The matches of a command's words. Takes memory.
#[tactic(auto, using(crate::proofs::Reading::none_is_empty, crate::proofs::Reading::among_some))]
pub(crate) fn matched<'a>(
    form: Command<'a>,
    rest: &'a [String],
) -> Result<ArgMatches<'a>, Words<'a>>
    requires { is_simple_and_free (app_of form) ≡ true }
    ensures matches { IfOk result (λ matches.
        AreMatches (app_of form.entry) (map string_bytes rest.entry.now) matches) }
    ensures none { IfErr result (λ reason. (reason ≡ Words.NoMemory)
        ⊎ ((reason ≡ Words.Usage Why.BadWords)
        × (has_matches (app_of form.entry) (map string_bytes rest.entry.now) ≡ false))) }
{
    match form.try_get_matches_from(rest) {
        Ok(matches) => Ok(matches),
        Err(error) => Err(reason_of(&error)),
    }
}

/// What the words ask for that have no matches for this cause.
fn reason_of<'a>(error: &Error) -> Words<'a>
    ensures memory { kind_of error.now ≡ ErrorKind.OutOfMemory → result ≡ Words.NoMemory }
    ensures bad { kind_of error.now ≢ ErrorKind.OutOfMemory → result ≡ Words.Usage Why.BadWords }
{
    match error.kind() {
        ErrorKind::OutOfMemory => Words::NoMemory,
        _ => Words::Usage(Why::BadWords),
    }
}

/// The word of an argument that has one.
#[tactic(auto, using(crate::proofs::Reading::text_is, crate::proofs::Reading::not_missing))]
pub(crate) fn text_given<'a>(matches: &ArgMatches<'a>, id: &str) -> &'a str
    requires { IsGiven id.now (rows_of (found_of matches.now)) }
    ensures { result.now ≡ model.text_given id.now (rows_of (found_of matches.now)) }
{
    match matches.get_str(id) {
        Some(word) => word,
        None => unreachable!(),
    }
}

/// The number of an argument, if it has a word.
#[tactic(auto, using(crate::proofs::Reading::word_in, crate::proofs::Reading::some_number, crate::proofs::Reading::no_number))]
pub(crate) fn number_given(matches: &ArgMatches<'_>, id: &str) -> Option<u32>
    requires { IsNumberIn 0 4294967295 id.now (rows_of (found_of matches.now)) }
    ensures { result ≡ model.number_given id.now (rows_of (found_of matches.now)) }
{
    match matches.get_str(id) {
        Some(word) => Some(number_in(word)),
        None => None,
    }
}

/// The second of an argument, if it has a word.
#[tactic(auto, using(crate::proofs::Reading::word_in, crate::proofs::Reading::some_number, crate::proofs::Reading::no_number))]
pub(crate) fn second_given(matches: &ArgMatches<'_>, id: &str) -> Option<u64>
    requires { IsNumberIn 0 LAST_MOMENT id.now (rows_of (found_of matches.now)) }
    ensures { result ≡ model.number_given id.now (rows_of (found_of matches.now)) }
{
    match matches.get_str(id) {
        Some(word) => Some(second_in(word)),
        None => None,
    }
}

fn number_in(word: &str) -> u32
    requires { IsUnsignedIn 0 4294967295 word.now }
    ensures { result ≡ number_of word.now }
{
    match word.parse::<u32>() {
        Ok(number) => number,
        Err(_) => unreachable!(),
    }
}

fn second_in(word: &str) -> u64
    requires { IsUnsignedIn 0 LAST_MOMENT word.now }
    ensures { result ≡ number_of word.now }
{
    match word.parse::<u64>() {
        Ok(second) => second,
        Err(_) => unreachable!(),
    }
}
