ghost use Rattle.std.specs.Prelude.{◌≡◌, Ok, IfOk, IfErr, IfSome};
ghost use Rattle.tow_language.specs.Raw.{RawList};
ghost use Rattle.tow_language.specs.Fit as fits;
ghost use Rattle.tow_language.specs.Fault.{IsFault};
ghost use Rattle.tow_language.specs.Syntax.{Reads};
ghost use Rattle.tow_language.specs.Tokens.{Cuts};
ghost use Rattle.tow_fit.specs.Faults.{parse_fault};

use crate::assembly::assembled;
use crate::parsed::Parsed;
use crate::reader::read;
use std::alloc::Global;
use tow_fit::ParseFault;
use tow_lex::Tokens;

/// Reads the tokens of a text as its tree. The first fault decides: one of the grammar comes before one of a call. Takes
/// memory for the tree and for what is read on the way.
pub fn parse(alloc: Global, text: &[u8], tokens: &Tokens) -> Result<Parsed, ParseFault>
    requires cut { Cuts text.now tokens.now }
    ensures ok { IfOk result (λ p. (raw : RawList) × (n : fits.Counts) × Reads text.now raw
        × (fits.fit raw ≡ Ok (p.tree, n)) × (p.patterns ≡ n.patterns)) }
    ensures err { IfErr result (λ e. IfSome (parse_fault e) (λ f. IsFault text.now f.kind f.place)) }
{
    let parts = read(alloc, text, tokens)?;
    assembled(alloc, parts)
}
