ghost use Rattle.std.specs.Prelude.{◌≡◌, map, IfOk, IfErr, IfSome};
ghost use Rattle.tow_language.specs.Raw.{RawList};
ghost use Rattle.tow_language.specs.Symbols.{symbols_of};
ghost use Rattle.tow_language.specs.Syntax.{IsList, IsSyntaxFault};
ghost use Rattle.tow_language.specs.Tokens.{Cuts};
ghost use Rattle.tow_fit.specs.Faults.{parse_fault};
ghost use Rattle.tow_parse.specs.Parts.{parts_of, raw_part};

use crate::part::Part;
use crate::step::Reader;
use std::alloc::Global;
use tow_fit::ParseFault;
use tow_lex::Tokens;

/// Reads the tokens of a text as the parts of its tree, or finds the first token with which the grammar is left. Takes
/// memory for the parts and the texts in them.
pub fn read(alloc: Global, text: &[u8], tokens: &Tokens) -> Result<Vec<Part>, ParseFault>
    requires cut { Cuts text.now tokens.now }
    ensures ok { IfOk result (λ parts. (raw : RawList)
        × IsList 32 (symbols_of text.now tokens.now) raw
        × (parts_of raw ≡ map raw_part parts.items)) }
    ensures err { IfErr result (λ e. IfSome (parse_fault e)
        (λ f. IsSyntaxFault text.now f.kind f.place)) }
{
    let mut reader = Reader::new(alloc)?;
    let tokens = tokens.as_slice();
    for i in 0..tokens.len() {
        reader.step(text, tokens[i])?;
    }
    let parts = reader.finish(text.len())?;
    Ok(parts.into_vec())
}
