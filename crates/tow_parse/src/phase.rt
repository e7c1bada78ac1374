ghost use Rattle.std.specs.Prelude.{◌≡◌, ◌≤◌, [], ◌∷◌, ◌++◌, length, IfOk, IfErr};
ghost use Rattle.tow_language.specs.Symbols.{symbol_of};
ghost use Rattle.tow_fit.specs.declared.call.WrittenValue.TheVariants as values;
ghost use Rattle.tow_parse.specs.declared.goal.Phase.TheVariants as phases;
ghost use Rattle.tow_parse.specs.Looks.{Shows};
ghost use Rattle.tow_parse.specs.Phased.{PhaseTakes, PhaseStops, filled};

use crate::goal::{Array, Phase, Slot};
use crate::look::Look;
use crate::quoted::quoted_at;
use crate::written::word_at;
use std::alloc::{AllocError, Global};
use tow_fit::{ParseFault, WrittenPair, WrittenParameters, WrittenText, WrittenValue};
use tow_language::Token;
use tow_model::List;

/// What comes behind a token between brackets.
#[derive(Drop)]
pub enum Place {
    At(Phase),
    /// The call is over, and has these parameters.
    Over(WrittenParameters),
}

/// Takes a token between the brackets of a call, of which the closing one is square or round. Takes memory for texts.
pub fn next_place(
    alloc: Global,
    square: bool,
    phase: Phase,
    look: Look,
    text: &[u8],
    token: Token,
) -> Result<Place, ParseFault>
    requires order { token.from ≤ token.to }
    requires within { token.to ≤ length text.now }
    requires shows { Shows look (symbol_of text.now token).sign }
    ensures ok { IfOk result (λ p. PhaseTakes square phase (symbol_of text.now token) p) }
    ensures err { IfErr result (λ e. PhaseStops square phase (symbol_of text.now token) e) }
{
    match phase {
        Phase::First => at_first(alloc, square, look, text, token),
        Phase::Word(word) => at_word(alloc, square, word, look, text, token),
        Phase::Value(slot) => at_value(alloc, square, slot, look, text, token),
        Phase::Name(pairs) => at_name(alloc, square, pairs, look, text, token),
        Phase::Equals { pairs, name } => at_equals(square, pairs, name, look, text, token),
        Phase::After(parameters) => at_after(square, parameters, look, text, token),
        Phase::Texts(array) => at_texts(alloc, square, array, look, text, token),
        Phase::Text(array) => at_text(alloc, square, array, look, text, token),
        Phase::AfterText(array) => at_after_text(square, array, look, text, token),
    }
}

/// Behind the opening bracket.
fn at_first(
    alloc: Global,
    square: bool,
    look: Look,
    text: &[u8],
    token: Token,
) -> Result<Place, ParseFault>
    requires order { token.from ≤ token.to }
    requires within { token.to ≤ length text.now }
    requires shows { Shows look (symbol_of text.now token).sign }
    ensures ok { IfOk result (λ p. PhaseTakes square phases.First (symbol_of text.now token) p) }
    ensures err { IfErr result (λ e. PhaseStops square phases.First (symbol_of text.now token) e) }
{
    if look.shuts(square) {
        return Ok(Place::Over(WrittenParameters::Unnamed(List::new(alloc))));
    }
    match word_at(alloc, text, token)? {
        Some(word) => Ok(Place::At(Phase::Word(word))),
        None => {
            let values = List::new(alloc);
            at_value(alloc, square, Slot::Unnamed(values), look, text, token)
        }
    }
}

/// Behind a first Word.
fn at_word(
    alloc: Global,
    square: bool,
    word: WrittenText,
    look: Look,
    text: &[u8],
    token: Token,
) -> Result<Place, ParseFault>
    requires order { token.from ≤ token.to }
    requires within { token.to ≤ length text.now }
    requires shows { Shows look (symbol_of text.now token).sign }
    ensures ok { IfOk result (λ p. PhaseTakes square (phases.Word word) (symbol_of text.now token)
        p) }
    ensures err { IfErr result (λ e. PhaseStops square (phases.Word word) (symbol_of text.now token)
        e) }
{
    match look {
        Look::Equals => Ok(Place::At(Phase::Value(Slot::Named {
            pairs: List::new(alloc),
            name: word,
        }))),
        _ => {
            let mut values = List::new(alloc);
            values.push(WrittenValue::One(word))?;
            at_after(
                square,
                WrittenParameters::Unnamed(values),
                look,
                text,
                token,
            )
        }
    }
}

/// Where a value has to follow.
fn at_value(
    alloc: Global,
    square: bool,
    slot: Slot,
    look: Look,
    text: &[u8],
    token: Token,
) -> Result<Place, ParseFault>
    requires order { token.from ≤ token.to }
    requires within { token.to ≤ length text.now }
    requires shows { Shows look (symbol_of text.now token).sign }
    ensures ok { IfOk result (λ p. PhaseTakes square (phases.Value slot) (symbol_of text.now token)
        p) }
    ensures err { IfErr result (λ e. PhaseStops square (phases.Value slot)
        (symbol_of text.now token) e) }
{
    match look {
        Look::OpenBrace => Ok(Place::At(Phase::Texts(Array {
            slot,
            place: token.from,
            texts: List::new(alloc),
        }))),
        _ => match word_at(alloc, text, token)? {
            Some(word) => Ok(Place::At(Phase::After(filled(slot, WrittenValue::One(word))?))),
            None => match quoted_at(alloc, text, token)? {
                Some(quoted) => Ok(Place::At(Phase::After(filled(
                    slot,
                    WrittenValue::One(quoted),
                )?))),
                None => Err(ParseFault::Unexpected(token.from)),
            },
        },
    }
}

/// Where a name has to follow.
fn at_name(
    alloc: Global,
    square: bool,
    pairs: List<WrittenPair>,
    look: Look,
    text: &[u8],
    token: Token,
) -> Result<Place, ParseFault>
    requires order { token.from ≤ token.to }
    requires within { token.to ≤ length text.now }
    requires shows { Shows look (symbol_of text.now token).sign }
    ensures ok { IfOk result (λ p. PhaseTakes square (phases.Name pairs) (symbol_of text.now token)
        p) }
    ensures err { IfErr result (λ e. PhaseStops square (phases.Name pairs)
        (symbol_of text.now token) e) }
{
    match word_at(alloc, text, token)? {
        Some(name) => Ok(Place::At(Phase::Equals { pairs, name })),
        None => Err(ParseFault::Unexpected(token.from)),
    }
}

/// Behind a name.
fn at_equals(
    square: bool,
    pairs: List<WrittenPair>,
    name: WrittenText,
    look: Look,
    text: &[u8],
    token: Token,
) -> Result<Place, ParseFault>
    requires order { token.from ≤ token.to }
    requires within { token.to ≤ length text.now }
    requires shows { Shows look (symbol_of text.now token).sign }
    ensures ok { IfOk result (λ p. PhaseTakes square (phases.Equals pairs name)
        (symbol_of text.now token) p) }
    ensures err { IfErr result (λ e. PhaseStops square (phases.Equals pairs name)
        (symbol_of text.now token) e) }
{
    match look {
        Look::Equals => Ok(Place::At(Phase::Value(Slot::Named { pairs, name }))),
        _ => Err(ParseFault::Unexpected(token.from)),
    }
}

/// Behind a value.
fn at_after(
    square: bool,
    parameters: WrittenParameters,
    look: Look,
    text: &[u8],
    token: Token,
) -> Result<Place, ParseFault>
    requires order { token.from ≤ token.to }
    requires within { token.to ≤ length text.now }
    requires shows { Shows look (symbol_of text.now token).sign }
    ensures ok { IfOk result (λ p. PhaseTakes square (phases.After parameters)
        (symbol_of text.now token) p) }
    ensures err { IfErr result (λ e. PhaseStops square (phases.After parameters)
        (symbol_of text.now token) e) }
{
    if look.shuts(square) {
        return Ok(Place::Over(parameters));
    }
    match look {
        Look::Comma => match parameters {
            WrittenParameters::Unnamed(values) => Ok(Place::At(Phase::Value(Slot::Unnamed(
                values,
            )))),
            WrittenParameters::Named(pairs) => Ok(Place::At(Phase::Name(pairs))),
        },
        _ => Err(ParseFault::Unexpected(token.from)),
    }
}

/// Behind the opening brace of an array.
fn at_texts(
    alloc: Global,
    square: bool,
    array: Array,
    look: Look,
    text: &[u8],
    token: Token,
) -> Result<Place, ParseFault>
    requires order { token.from ≤ token.to }
    requires within { token.to ≤ length text.now }
    requires shows { Shows look (symbol_of text.now token).sign }
    ensures ok { IfOk result (λ p. PhaseTakes square (phases.Texts array) (symbol_of text.now token)
        p) }
    ensures err { IfErr result (λ e. PhaseStops square (phases.Texts array)
        (symbol_of text.now token) e) }
{
    match look {
        Look::CloseBrace => Ok(Place::At(Phase::After(array_filled(array)?))),
        _ => at_text(alloc, square, array, look, text, token),
    }
}

/// Where a text of an array has to follow.
fn at_text(
    alloc: Global,
    square: bool,
    array: Array,
    look: Look,
    text: &[u8],
    token: Token,
) -> Result<Place, ParseFault>
    requires order { token.from ≤ token.to }
    requires within { token.to ≤ length text.now }
    requires shows { Shows look (symbol_of text.now token).sign }
    ensures ok { IfOk result (λ p. PhaseTakes square (phases.Text array) (symbol_of text.now token)
        p) }
    ensures err { IfErr result (λ e. PhaseStops square (phases.Text array)
        (symbol_of text.now token) e) }
{
    match word_at(alloc, text, token)? {
        Some(word) => Ok(Place::At(Phase::AfterText(grown(array, word)?))),
        None => match quoted_at(alloc, text, token)? {
            Some(quoted) => Ok(Place::At(Phase::AfterText(grown(array, quoted)?))),
            None => Err(ParseFault::Unexpected(token.from)),
        },
    }
}

/// Behind a text of an array.
fn at_after_text(
    square: bool,
    array: Array,
    look: Look,
    text: &[u8],
    token: Token,
) -> Result<Place, ParseFault>
    requires order { token.from ≤ token.to }
    requires within { token.to ≤ length text.now }
    requires shows { Shows look (symbol_of text.now token).sign }
    ensures ok { IfOk result (λ p. PhaseTakes square (phases.AfterText array)
        (symbol_of text.now token) p) }
    ensures err { IfErr result (λ e. PhaseStops square (phases.AfterText array)
        (symbol_of text.now token) e) }
{
    match look {
        Look::Comma => Ok(Place::At(Phase::Text(array))),
        Look::CloseBrace => Ok(Place::At(Phase::After(array_filled(array)?))),
        _ => Err(ParseFault::Unexpected(token.from)),
    }
}

/// The parameters with a value put into its place.
fn filled(slot: Slot, value: WrittenValue) -> Result<WrittenParameters, AllocError>
    ensures { IfOk result (λ ps. ps ≡ filled slot value) }
{
    match slot {
        Slot::Unnamed(mut values) => {
            values.push(value)?;
            Ok(WrittenParameters::Unnamed(values))
        }
        Slot::Named { mut pairs, name } => {
            pairs.push(WrittenPair { name, value })?;
            Ok(WrittenParameters::Named(pairs))
        }
    }
}

/// The parameters with an array put into its place.
fn array_filled(array: Array) -> Result<WrittenParameters, AllocError>
    ensures { IfOk result (λ ps. ps ≡ filled array.slot (values.Array array.place array.texts)) }
{
    let Array { slot, place, texts } = array;
    filled(slot, WrittenValue::Array { place, texts })
}

/// The array with a text at its end.
fn grown(array: Array, text: WrittenText) -> Result<Array, AllocError>
    ensures slot { IfOk result (λ a. a.slot ≡ array.slot) }
    ensures place { IfOk result (λ a. a.place ≡ array.place) }
    ensures texts { IfOk result (λ a. a.texts ≡ array.texts ++ text ∷ []) }
{
    let Array {
        slot,
        place,
        mut texts,
    } = array;
    texts.push(text)?;
    Ok(Array { slot, place, texts })
}
