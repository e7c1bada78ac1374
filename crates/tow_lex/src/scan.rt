ghost use Rattle.std.specs.Prelude.{[], IfOk, IfErr};
ghost use Rattle.tow_language.specs.Tokens.{CutsUpTo};
ghost use Rattle.tow_lex.specs.Scan.{Stops};

use crate::fault::LexFault;
use crate::gap::gap_end;
use crate::token::next_token;
use std::alloc::Global;
use tow_language::Token;
use tow_model::List;

/// The tokens of the bytes, or the fault of the place up to which there are tokens.
pub fn scan(alloc: Global, text: &[u8]) -> Result<List<Token>, LexFault>
    ensures ok { IfOk result (λ tokens. CutsUpTo 0 text.now tokens []) }
    ensures err { IfErr result (λ fault. Stops text.now fault) }
{
    let mut tokens = List::new(alloc);
    let mut end = 0;
    loop {
        let from = gap_end(text, end);
        if from == text.len() {
            return Ok(tokens);
        }
        let token = next_token(text, from)?;
        tokens.push(token)?;
        end = token.to;
    }
}
