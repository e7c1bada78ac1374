ghost use Rattle.std.specs.Prelude.{◌≡◌, ◌≤◌, length, IfOk, IfErr, IfSome};
ghost use Rattle.std.specs.Str.{IsValidUpTo};
ghost use Rattle.tow_language.specs.Tokens.{Cuts, IsTokenFault};
ghost use Rattle.tow_lex.specs.Faults.{lex_fault, comes_before};

use crate::fault::LexFault;
use crate::scan::scan;
use std::alloc::Global;
use std::str;
use tow_language::Token;
use tow_model::List;

/// The tokens of a text, in their order.
pub type Tokens = List<Token>;

/// The most bytes that a text may have.
const MOST_BYTES: usize = 65_536;

/// Cuts a text into its tokens. Takes memory for them.
pub fn tokens(alloc: Global, text: &[u8]) -> Result<Tokens, LexFault>
    ensures ok { IfOk result (λ tokens. Cuts text.now tokens) }
    ensures err { IfErr result (λ fault. IfSome (lex_fault fault)
        (λ f. IsTokenFault text.now f.kind f.place)) }
{
    if text.len() > MOST_BYTES {
        return Err(LexFault::TooLong);
    }
    match str::from_utf8(text) {
        Ok(_) => scan(alloc, text),
        Err(error) => Err(first_fault(alloc, text, error.valid_up_to())),
    }
}

/// The first fault of a text that is UTF-8 up to the place.
fn first_fault(alloc: Global, text: &[u8], place: usize) -> LexFault
    requires short { length text.now ≤ 65536 }
    requires valid { IsValidUpTo text.now place }
    ensures { IfSome (lex_fault result) (λ f. IsTokenFault text.now f.kind f.place) }
{
    match scan(alloc, text) {
        Ok(_) => LexFault::StrayByte(place),
        Err(fault) if comes_first(fault, place) => fault,
        Err(_) => LexFault::StrayByte(place),
    }
}

/// Whether the fault is before the place, or is want of memory.
fn comes_first(fault: LexFault, place: usize) -> bool
    ensures { result ≡ comes_before fault place }
{
    match fault {
        LexFault::UnclosedQuote(at) | LexFault::UnclosedBrace(at) | LexFault::StrayByte(at) => at
            < place,
        LexFault::TooLong | LexFault::NoMemory => true,
    }
}
