//! The top call: the words of a command line are read, and the command that they name is run.

ghost use Rattle.std.specs.Prelude.{◌≡◌, ℕ, List, Option, Ok, Err, true, map, string_bytes};
ghost use Rattle.tow_words.specs.Words.{ask, check, command_of};
ghost use Rattle.tow_words.specs.declared.command.Why.TheVariants.{NoCommand};
ghost use Rattle.tow_server.specs.Ask.{Asked};
ghost use Rattle.tow_server.specs.Check.{Checked};
ghost use Rattle.tow_server.specs.Texts.{HandsBack};
ghost use Rattle.tow_server.specs.Usage.{Explained, ExplainedUnlessShort, served_of};

use crate::ask::run_ask;
use crate::check::run_check;
use crate::output::print_line;
use crate::status::Status;
use std::alloc::Global;
use tow_host::Host;
use tow_words::{Command, Why, Words, read_words};

/// The line that says which words there are.
const USAGE: &[u8] =
    b"usage: check TEXT | ask DIR TEXT [--moment N] | drill N | serve DIR TEXT ADDRESS [--loops N] [--workers N] [--slots N] [--connections N]\n";

/// Does what the words ask for, which lack the program's name. Takes memory for the words, and as the command does.
#[tactic(auto, using(crate::proofs::Wording::short_check, crate::proofs::Wording::short_ask))]
pub fn run<H: Host>(alloc: Global, words: &Vec<String>, host: &mut H) -> Status
    requires { (H.held host.old).is_home ≡ true }
    ensures checks { (text : List ℕ)
        → command_of (map string_bytes words.now.items) ≡ Ok (check text)
        → Checked text result (H.held host.old) (H.held host.new) }
    ensures asks { (dir text : List ℕ) (moment : Option ℕ)
        → command_of (map string_bytes words.now.items) ≡ Ok (ask dir text moment)
        → Asked text moment result (H.held host.old) (H.held host.new) }
    ensures explains { (why : Why) → served_of (map string_bytes words.now.items) ≡ Err why
        → ExplainedUnlessShort why result (H.held host.old) (H.held host.new) }
    ensures unnamed { command_of (map string_bytes words.now.items) ≡ Err NoCommand
        → Explained NoCommand result (H.held host.old) (H.held host.new) }
    ensures only_words { (why : Why) → result ≡ Status.Words why
        → served_of (map string_bytes words.now.items) ≡ Err why }
    ensures back { HandsBack (H.held host.old) (H.held host.new) }
{
    match read_words(alloc, words) {
        Words::Run(Command::Check { text }) => run_check(alloc, host, text),
        Words::Run(Command::Ask { dir, text, moment }) => run_ask(alloc, host, dir, text, moment),
        // for now: these commands are not built, though their words are read.
        Words::Run(Command::Drill { .. }) => explain(alloc, host, Why::NoCommand),
        Words::Run(Command::Serve { .. }) => explain(alloc, host, Why::NoCommand),
        Words::Usage(why) => explain(alloc, host, why),
        Words::NoMemory => Status::NoMemory,
    }
}

/// Prints which words there are.
#[tactic(auto, using(crate::proofs::Joining::explained_back))]
fn explain<H: Host>(alloc: Global, host: &mut H, why: Why) -> Status
    requires { (H.held host.old).is_home ≡ true }
    ensures explained { Explained why result (H.held host.old) (H.held host.new) }
    ensures back { HandsBack (H.held host.old) (H.held host.new) }
{
    print_line(alloc, host, USAGE);
    Status::Words(why)
}
