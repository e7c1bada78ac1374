//! Handlers texts compiled.

ghost use Rattle.std.specs.Prelude.{◌≡◌, ◌≢◌, ℕ, ◌≤◌, Err, List, length, IfOk, IfErr};
ghost use Rattle.tow_language.specs.declared.kind.Kind.TheVariants as kinds;
ghost use Rattle.tow_language.specs.Tokens.{Cuts};
ghost use Rattle.tow_model.specs.declared.statement.Statement.{Statement};
ghost use Rattle.tow_program.specs.Programs.{program_of};
ghost use Rattle.tow_site.specs.Compiled.{HasTree, IsFaultOfText, IsSiteOf, IsTreeFault};

use crate::fault::Fault;
use crate::refusing::{fault_of_pattern, fault_of_tokens, fault_of_tree};
use crate::site::Site;
use std::alloc::Global;
use tow_lex::{Tokens, tokens};
use tow_link::Maker;
use tow_parse::{Parsed, parse};
use tow_pred::build;
use tow_program::Program;

/// The program of a text that has a tree. The tree itself is moved into the program, so the tokens are read once more.
/// Takes memory for it.
fn program_again(alloc: Global, text: &[u8], tokens: &Tokens) -> Result<Program, Fault>
    requires cut { Cuts text.now tokens.now }
    ensures ok { IfOk result (λ program. (tree : List Statement) × (places : List ℕ)
        × HasTree text.now tree places × (program ≡ program_of tree)) }
    ensures fault { IfErr result (λ fault. IsTreeFault text.now fault) }
{
    match parse(alloc, text, tokens) {
        Ok(parsed) => match tow_program::program_of(alloc, parsed.tree) {
            Ok(program) => Ok(program),
            Err(_memory) => Err(Fault::NoMemory),
        },
        Err(fault) => Err(fault_of_tree(text, fault)),
    }
}

/// Builds the patterns of a text's tree, and keeps them with it and its program.
fn build_site<M: Maker>(
    alloc: Global,
    text: &[u8],
    parsed: Parsed,
    program: Program,
    maker: &mut M,
) -> Result<Site, Fault>
    requires short { length text.now ≤ 65536 }
    requires program { program ≡ program_of parsed.tree }
    requires tree { HasTree text.now parsed.tree parsed.patterns }
    ensures ok { IfOk result (λ site. IsSiteOf text.now site) }
    ensures fault { IfErr result (λ fault. IsFaultOfText text.now (M.larges maker.old)
        (M.larges maker.new) fault) }
    ensures later { (p : List ℕ) → M.larges maker.old p ≤ M.larges maker.new p }
    ensures only { ((line column : ℕ) → result ≢ Err (Fault.Text kinds.LargePattern line column))
        → M.larges maker.new ≡ M.larges maker.old }
    ensures stays { M.stays maker.old maker.new }
{
    let Parsed { tree, patterns } = parsed;
    match build(alloc, &tree, maker) {
        Ok(tests) => match Site::new(tree, program, patterns, tests) {
            Ok(site) => Ok(site),
            Err(_memory) => Err(Fault::NoMemory),
        },
        Err(fault) => Err(fault_of_pattern(text, patterns.as_slice(), fault)),
    }
}

/// Compiles a handlers text of at most 65,536 bytes, or names its first fault: one of its tokens, its grammar and its calls
/// comes before one of a pattern. Takes memory for the tokens, the tree, the patterns and what is read on the way.
pub fn compile<M: Maker>(alloc: Global, text: &[u8], maker: &mut M) -> Result<Site, Fault>
    ensures ok { IfOk result (λ site. IsSiteOf text.now site) }
    ensures fault { IfErr result (λ fault. IsFaultOfText text.now (M.larges maker.old)
        (M.larges maker.new) fault) }
    ensures later { (p : List ℕ) → M.larges maker.old p ≤ M.larges maker.new p }
    ensures only { ((line column : ℕ) → result ≢ Err (Fault.Text kinds.LargePattern line column))
        → M.larges maker.new ≡ M.larges maker.old }
    ensures stays { M.stays maker.old maker.new }
{
    let tokens = match tokens(alloc, text) {
        Ok(tokens) => tokens,
        Err(fault) => return Err(fault_of_tokens(text, fault)),
    };
    let parsed = match parse(alloc, text, &tokens) {
        Ok(parsed) => parsed,
        Err(fault) => return Err(fault_of_tree(text, fault)),
    };
    let program = match program_again(alloc, text, &tokens) {
        Ok(program) => program,
        Err(fault) => return Err(fault),
    };
    build_site(alloc, text, parsed, program, maker)
}
