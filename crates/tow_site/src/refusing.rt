//! The faults of texts, with line and column.

ghost use Rattle.std.specs.Prelude.{◌≡◌, ◌<◌, ◌≤◌, length, IfSome, MatchOption};
ghost use Rattle.tow_language.specs.Fault.{IsFault};
ghost use Rattle.tow_language.specs.Tokens.{IsTokenFault};
ghost use Rattle.tow_lex.specs.Faults.{lex_fault};
ghost use Rattle.tow_fit.specs.Faults.{parse_fault};
ghost use Rattle.tow_site.specs.Compiled.{IsTreeFault, fault_of, pattern_fault, refused_number};

use crate::fault::Fault;
use crate::places::fault_at;
use tow_language::Kind;
use tow_lex::LexFault;
use tow_model::limits::MAX_TEXT_LEN;
use tow_parse::ParseFault;
use tow_pred::PatternFault;

/// The fault of a text that has no tokens.
pub fn fault_of_tokens(text: &[u8], fault: LexFault) -> Fault
    requires { IfSome (lex_fault fault) (λ f. IsTokenFault text.now f.kind f.place) }
    ensures fault { IsTreeFault text.now result }
    ensures exact { MatchOption (lex_fault fault) (result ≡ Fault.NoMemory)
        (λ f. result ≡ fault_of text.now f.kind f.place) }
{
    match fault {
        LexFault::UnclosedQuote(place) => fault_at(text, Kind::UnclosedQuote, place),
        LexFault::UnclosedBrace(place) => fault_at(text, Kind::UnclosedBrace, place),
        LexFault::StrayByte(place) => fault_at(text, Kind::StrayByte, place),
        LexFault::TooLong => fault_at(text, Kind::TooLong, MAX_TEXT_LEN),
        LexFault::NoMemory => Fault::NoMemory,
    }
}

/// The fault of a text one of whose patterns is refused. The patterns' values stand at these places.
pub fn fault_of_pattern(text: &[u8], places: &[usize], fault: PatternFault) -> Fault
    requires short { length text.now ≤ 65536 }
    requires placed { IfSome (refused_number fault) (λ n. n < length places.now) }
    ensures { result ≡ pattern_fault text.now places.now fault }
{
    match fault {
        PatternFault::BadPattern(n) => fault_at(text, Kind::BadPattern, places[n as usize]),
        PatternFault::LargePattern(n) => fault_at(text, Kind::LargePattern, places[n as usize]),
        PatternFault::NoMemory => Fault::NoMemory,
    }
}

/// The fault of a text whose tokens have no tree.
pub fn fault_of_tree(text: &[u8], fault: ParseFault) -> Fault
    requires short { length text.now ≤ 65536 }
    requires fault { IfSome (parse_fault fault) (λ f. IsFault text.now f.kind f.place) }
    ensures fault { IsTreeFault text.now result }
    ensures exact { MatchOption (parse_fault fault) (result ≡ Fault.NoMemory)
        (λ f. result ≡ fault_of text.now f.kind f.place) }
{
    match fault {
        ParseFault::Unexpected(place) => fault_at(text, Kind::Unexpected, place),
        ParseFault::TooDeep(place) => fault_at(text, Kind::TooDeep, place),
        ParseFault::UnknownName(place) => fault_at(text, Kind::UnknownName, place),
        ParseFault::BadParameter(place) => fault_at(text, Kind::BadParameter, place),
        ParseFault::BadAttribute(place) => fault_at(text, Kind::BadAttribute, place),
        ParseFault::BadTarget(place) => fault_at(text, Kind::BadTarget, place),
        ParseFault::TooManyLimits(place) => fault_at(text, Kind::TooManyLimits, place),
        ParseFault::NoMemory => Fault::NoMemory,
    }
}
