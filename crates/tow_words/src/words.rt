//! What the words of a command line ask for: the first names the command, and the rest are read by its form.

ghost use Rattle.std.specs.Prelude.{◌≡◌, Err, IfSome, map, string_bytes};
ghost use Rattle.clap.specs.Matches.{found_of};
ghost use Rattle.clap.specs.Walk.{rows_of};
ghost use Rattle.tow_words.specs.Forms as shape;
ghost use Rattle.tow_words.specs.Given.{IsParsedBy};
ghost use Rattle.tow_words.specs.Words as model;
ghost use Rattle.tow_words.specs.Words.{IsWithin, IsWithinIfRun, command_by, command_of, command_seen, matched as matched_by, options_of, words_seen};

use crate::bounds::{DEFAULT_CONNECTIONS, DEFAULT_LOOPS, DEFAULT_SLOTS, DEFAULT_WORKERS};
use crate::command::{Command, Options, Why};
use crate::forms;
use crate::given::{matched, number_given, second_given, text_given};
use clap::ArgMatches;
use std::alloc::Global;

/// What the words of a command line ask for.
#[derive(Clone, Copy, Debug)]
pub enum Words<'a> {
    Run(Command<'a>),
    Usage(Why),
    NoMemory,
}

/// Reads the words of a command line, without the program's name. Takes memory for the words after a command's name.
pub fn read_words<'a>(alloc: Global, words: &'a [String]) -> Words<'a>
    ensures words { IfSome (words_seen result) (λ seen.
        seen ≡ command_of (map string_bytes words.entry.now)) }
    ensures unnamed { command_of (map string_bytes words.entry.now) ≡ Err Why.NoCommand
        → result ≡ Words.Usage Why.NoCommand }
    ensures within { IsWithinIfRun result }
{
    match words {
        [] => Words::Usage(Why::NoCommand),
        [name, rest @ ..] => read_named(alloc, name.as_str(), rest),
    }
}

/// Reads the words of the command of this name. Takes memory as `read_words` does.
#[tactic(auto, using(crate::proofs::Reading::named_check, crate::proofs::Reading::named_ask, crate::proofs::Reading::named_drill, crate::proofs::Reading::named_serve, crate::proofs::Reading::no_command, crate::proofs::Reading::is_named))]
fn read_named<'a>(alloc: Global, name: &str, rest: &'a [String]) -> Words<'a>
    ensures words { IfSome (words_seen result) (λ seen.
        seen ≡ command_by name.now (map string_bytes rest.entry.now)) }
    ensures unnamed { command_by name.now (map string_bytes rest.entry.now) ≡ Err Why.NoCommand
        → result ≡ Words.Usage Why.NoCommand }
    ensures within { IsWithinIfRun result }
{
    if name == "check" {
        read_check(alloc, rest)
    } else if name == "ask" {
        read_ask(alloc, rest)
    } else if name == "drill" {
        read_drill(alloc, rest)
    } else if name == "serve" {
        read_serve(alloc, rest)
    } else {
        Words::Usage(Why::NoCommand)
    }
}

/// Reads `TEXT`.
#[tactic(auto, using(crate::proofs::Reading::matched_ok, crate::proofs::Reading::matched_bad))]
fn read_check<'a>(alloc: Global, rest: &'a [String]) -> Words<'a>
    ensures words { IfSome (words_seen result) (λ seen.
        seen ≡ matched_by shape.check model.check_by (map string_bytes rest.entry.now)) }
    ensures within { IsWithinIfRun result }
{
    let Ok(form) = forms::check(alloc) else {
        return Words::NoMemory;
    };
    match matched(form, rest) {
        Ok(matches) => Words::Run(check_by(&matches)),
        Err(words) => words,
    }
}

#[tactic(auto, using(crate::proofs::Answering::check_text))]
fn check_by<'a>(matches: &ArgMatches<'a>) -> Command<'a>
    requires { IsParsedBy shape.check matches.now }
    ensures is { command_seen result ≡ model.check_by (rows_of (found_of matches.now)) }
    ensures within { IsWithin result }
{
    Command::Check {
        text: text_given(matches, "text"),
    }
}

/// Reads `DIR TEXT [--moment N]`.
#[tactic(auto, using(crate::proofs::Reading::matched_ok, crate::proofs::Reading::matched_bad))]
fn read_ask<'a>(alloc: Global, rest: &'a [String]) -> Words<'a>
    ensures words { IfSome (words_seen result) (λ seen.
        seen ≡ matched_by shape.ask model.ask_by (map string_bytes rest.entry.now)) }
    ensures within { IsWithinIfRun result }
{
    let Ok(form) = forms::ask(alloc) else {
        return Words::NoMemory;
    };
    match matched(form, rest) {
        Ok(matches) => Words::Run(ask_by(&matches)),
        Err(words) => words,
    }
}

#[tactic(auto, using(crate::proofs::Answering::ask_dir, crate::proofs::Answering::ask_text, crate::proofs::Answering::ask_moment, crate::proofs::Answering::moment_within))]
fn ask_by<'a>(matches: &ArgMatches<'a>) -> Command<'a>
    requires { IsParsedBy shape.ask matches.now }
    ensures is { command_seen result ≡ model.ask_by (rows_of (found_of matches.now)) }
    ensures within { IsWithin result }
{
    Command::Ask {
        dir: text_given(matches, "dir"),
        text: text_given(matches, "text"),
        moment: second_given(matches, "moment"),
    }
}

/// Reads `N`.
#[tactic(auto, using(crate::proofs::Reading::matched_ok, crate::proofs::Reading::matched_bad))]
fn read_drill<'a>(alloc: Global, rest: &'a [String]) -> Words<'a>
    ensures words { IfSome (words_seen result) (λ seen.
        seen ≡ matched_by shape.drill model.drill_by (map string_bytes rest.entry.now)) }
    ensures within { IsWithinIfRun result }
{
    let Ok(form) = forms::drill(alloc) else {
        return Words::NoMemory;
    };
    match matched(form, rest) {
        Ok(matches) => Words::Run(drill_by(&matches)),
        Err(words) => words,
    }
}

#[tactic(auto, using(crate::proofs::Answering::drill_word, crate::proofs::Answering::drill_given, crate::proofs::Answering::drill_number, crate::proofs::Reading::number_missing, crate::proofs::Reading::number_within))]
fn drill_by<'a>(matches: &ArgMatches<'_>) -> Command<'a>
    requires { IsParsedBy shape.drill matches.now }
    ensures is { command_seen result ≡ model.drill_by (rows_of (found_of matches.now)) }
    ensures within { IsWithin result }
{
    match number_given(matches, "number") {
        Some(number) => Command::Drill { number },
        None => unreachable!(),
    }
}

/// Reads `DIR TEXT ADDRESS [--loops N] [--workers N] [--slots N] [--connections N]`.
#[tactic(auto, using(crate::proofs::Reading::matched_ok, crate::proofs::Reading::matched_bad))]
fn read_serve<'a>(alloc: Global, rest: &'a [String]) -> Words<'a>
    ensures words { IfSome (words_seen result) (λ seen.
        seen ≡ matched_by shape.serve model.serve_by (map string_bytes rest.entry.now)) }
    ensures within { IsWithinIfRun result }
{
    let Ok(form) = forms::serve(alloc) else {
        return Words::NoMemory;
    };
    match matched(form, rest) {
        Ok(matches) => Words::Run(serve_by(&matches)),
        Err(words) => words,
    }
}

#[tactic(auto, using(crate::proofs::Answering::serve_dir, crate::proofs::Answering::serve_text, crate::proofs::Answering::serve_address))]
fn serve_by<'a>(matches: &ArgMatches<'a>) -> Command<'a>
    requires { IsParsedBy shape.serve matches.now }
    ensures is { command_seen result ≡ model.serve_by (rows_of (found_of matches.now)) }
    ensures within { IsWithin result }
{
    Command::Serve {
        dir: text_given(matches, "dir"),
        text: text_given(matches, "text"),
        address: text_given(matches, "address"),
        options: options_by(matches),
    }
}

/// The options that were given, and the defaults of the others.
#[tactic(auto, using(crate::proofs::Answering::loops_word, crate::proofs::Answering::workers_word, crate::proofs::Answering::slots_word, crate::proofs::Answering::connections_word))]
fn options_by(matches: &ArgMatches<'_>) -> Options
    requires { IsParsedBy shape.serve matches.now }
    ensures is { result ≡ options_of (rows_of (found_of matches.now)) }
    ensures within { model.AreWithin result }
{
    Options {
        loops: number_given(matches, "loops").unwrap_or(DEFAULT_LOOPS),
        workers: number_given(matches, "workers").unwrap_or(DEFAULT_WORKERS),
        slots: number_given(matches, "slots").unwrap_or(DEFAULT_SLOTS),
        connections: number_given(matches, "connections").unwrap_or(DEFAULT_CONNECTIONS),
    }
}
