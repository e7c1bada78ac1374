//! The words that each command takes after its name.

ghost use Rattle.std.specs.Prelude.{◌≡◌, IfOk, false};
ghost use Rattle.clap.specs.Walk.{rule_of};
ghost use Rattle.clap.specs.Simple.{app_of};
ghost use Rattle.tow_words.specs.Forms as model;

use crate::bounds::{LAST_MOMENT, MAX_CONNECTIONS, MAX_DRILL, MAX_LOOPS, MAX_SLOTS, MAX_WORKERS};
use clap::builder::ValueParser;
use clap::{Arg, ArgAction, Command};
use std::alloc::{AllocError, Global};

/// `TEXT`. Takes memory.
pub(crate) fn check<'a>(alloc: Global) -> Result<Command<'a>, AllocError>
    ensures { IfOk result (λ command. app_of command ≡ model.check) }
{
    bare(alloc, "check").arg(place(alloc, "text"))
}

/// `DIR TEXT [--moment N]`. Takes memory.
pub(crate) fn ask<'a>(alloc: Global) -> Result<Command<'a>, AllocError>
    ensures { IfOk result (λ command. app_of command ≡ model.ask) }
{
    bare(alloc, "ask")
        .arg(place(alloc, "dir"))?
        .arg(place(alloc, "text"))?
        .arg(number_option(alloc, "moment", 0, LAST_MOMENT))
}

/// `N`. Takes memory.
pub(crate) fn drill<'a>(alloc: Global) -> Result<Command<'a>, AllocError>
    ensures { IfOk result (λ command. app_of command ≡ model.drill) }
{
    bare(alloc, "drill").arg(number_place(alloc, "number", 0, MAX_DRILL))
}

/// `DIR TEXT ADDRESS [--loops N] [--workers N] [--slots N] [--connections N]`. Takes memory.
pub(crate) fn serve<'a>(alloc: Global) -> Result<Command<'a>, AllocError>
    ensures { IfOk result (λ command. app_of command ≡ model.serve) }
{
    serve_places(alloc)?
        .arg(number_option(alloc, "loops", 1, u64::from(MAX_LOOPS)))?
        .arg(number_option(alloc, "workers", 1, u64::from(MAX_WORKERS)))?
        .arg(number_option(alloc, "slots", 1, u64::from(MAX_SLOTS)))?
        .arg(number_option(alloc, "connections", 0, u64::from(MAX_CONNECTIONS)))
}

fn serve_places<'a>(alloc: Global) -> Result<Command<'a>, AllocError>
    ensures { IfOk result (λ command. app_of command ≡ model.serve_places) }
{
    bare(alloc, "serve")
        .arg(place(alloc, "dir"))?
        .arg(place(alloc, "text"))?
        .arg(place(alloc, "address"))
}

/// No words. None stands for the program, and none asks for help or a version.
fn bare<'a>(alloc: Global, name: &'a str) -> Command<'a>
    ensures { app_of result ≡ model.bare name.now }
{
    Command::new(alloc, name)
        .no_binary_name(true)
        .disable_help_flag(true)
        .disable_version_flag(true)
}

/// One word that has to be there, and is any text.
fn place<'a>(alloc: Global, id: &'a str) -> Arg<'a>
    ensures rule { rule_of result ≡ model.place id.now }
    ensures local { result.global ≡ false }
{
    Arg::new(alloc, id).action(ArgAction::Set).required(true)
}

/// One word that has to be there, and is a number within these bounds.
fn number_place<'a>(alloc: Global, id: &'a str, least: u32, most: u32) -> Arg<'a>
    ensures rule { rule_of result ≡ model.number_place id.now least most }
    ensures local { result.global ≡ false }
{
    let bounds = ValueParser::unsigned(u64::from(least), u64::from(most));
    place(alloc, id).value_parser(bounds)
}

/// `--name N` or `--name=N`, a number within these bounds.
fn number_option<'a>(alloc: Global, name: &'a str, least: u64, most: u64) -> Arg<'a>
    ensures rule { rule_of result ≡ model.number_option name.now least most }
    ensures local { result.global ≡ false }
{
    let bounds = ValueParser::unsigned(least, most);
    Arg::new(alloc, name)
        .action(ArgAction::Set)
        .long(name)
        .value_parser(bounds)
}
