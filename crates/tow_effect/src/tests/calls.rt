//! What actions come to, and what values write.

ghost use Rattle.std.specs.Prelude.{◌<◌};
ghost use Rattle.tow_model.specs.Dates.{first_undated};

use super::rows::{CROWDED, EFFECTS, METHODS, Place, TURNS, WRITES, Word};
use crate::{Action, Assign, Bytes, Effect, Record, Request, Target, assign, effect};
use std::alloc::{AllocError, Global};
use std::test::Fail;
use tow_attr::read_template;
use tow_model::{Choice, Field, Framing, List, Listener, NoMemory, Template, Version};

/// `Sun, 06 Nov 1994 08:49:37 GMT`.
const MOMENT: u64 = 784_111_777;

fn template(alloc: Global, text: &[u8]) -> Result<Template, NoMemory> {
    match read_template(alloc, text) {
        Ok(template) => Ok(template),
        Err(_) => Err(NoMemory),
    }
}

fn texts(alloc: Global, texts: &[&[u8]]) -> Result<List<Bytes>, AllocError> {
    let mut list = List::new(alloc);
    for text in texts {
        list.push(Bytes::from_slice(alloc, text)?)?;
    }
    Ok(list)
}

/// The target that a row writes.
fn target(alloc: Global, place: &Place) -> Result<Target, AllocError> {
    match *place {
        Place::Path => Ok(Target::RelativePath),
        Place::Query => Ok(Target::Query),
        Place::Status => Ok(Target::Status),
        Place::Field(name) => {
            let name = Bytes::from_slice(alloc, name)?;
            Ok(Target::ResponseField(name))
        }
        Place::Name(name) => {
            let name = Bytes::from_slice(alloc, name)?;
            Ok(Target::Context(name))
        }
    }
}

fn set(alloc: Global, place: &Place, value: &[u8]) -> Result<Action, NoMemory> {
    let target = target(alloc, place)?;
    let value = template(alloc, value)?;
    Ok(Action::Set { target, value })
}

fn clear(alloc: Global, place: &Place) -> Result<Action, NoMemory> {
    let target = target(alloc, place)?;
    Ok(Action::Clear { target })
}

fn rewrite(alloc: Global, value: &[u8]) -> Result<Action, NoMemory> {
    let value = template(alloc, value)?;
    Ok(Action::Rewrite(value))
}

fn redirect(alloc: Global, value: &[u8]) -> Result<Action, NoMemory> {
    let value = template(alloc, value)?;
    Ok(Action::Redirect(value))
}

fn header(alloc: Global, name: &[u8], value: &[u8], replace: bool) -> Result<Action, NoMemory> {
    let name = Bytes::from_slice(alloc, name)?;
    let value = template(alloc, value)?;
    Ok(Action::Header {
        name,
        value,
        replace,
    })
}

fn methods(alloc: Global, methods: &[&[u8]]) -> Result<Action, NoMemory> {
    let methods = texts(alloc, methods)?;
    Ok(Action::AllowedMethods(methods))
}

fn resource(alloc: Global, location: &[u8], listing: bool) -> Result<Action, NoMemory> {
    let location = Bytes::from_slice(alloc, location)?;
    Ok(Action::Resource { location, listing })
}

fn log(alloc: Global, number: u32) -> Result<Action, NoMemory> {
    let format = template(alloc, b"%R")?;
    Ok(Action::AccessLog { number, format })
}

/// The action that a word writes.
fn action(alloc: Global, word: &Word) -> Result<Action, NoMemory> {
    match *word {
        Word::Set(place, value) => set(alloc, &place, value),
        Word::Clear(place) => clear(alloc, &place),
        Word::Rewrite(value) => rewrite(alloc, value),
        Word::Redirect(value) => redirect(alloc, value),
        Word::Add(name, value) => header(alloc, name, value, false),
        Word::Replace(name, value) => header(alloc, name, value, true),
        Word::Methods(allowed) => methods(alloc, allowed),
        Word::Resource(location, listing) => resource(alloc, location, listing),
        Word::Log(number) => log(alloc, number),
        Word::Status(status) => Ok(Action::ResponseCode(status)),
        Word::Limit(number) => Ok(Action::RequestLimit { number, most: 1 }),
        Word::Blocking => Ok(Action::Blocking),
        Word::Echo => Ok(Action::Echo),
        Word::Restart => Ok(Action::Restart),
        Word::Done => Ok(Action::Done),
    }
}

fn request(alloc: Global, method: &[u8]) -> Result<Request, AllocError> {
    Ok(Request {
        method: Bytes::from_slice(alloc, method)?,
        target: Bytes::from_slice(alloc, b"/p?q")?,
        version: Version::V11,
        fields: List::new(alloc),
        url: Bytes::from_slice(alloc, b"/p")?,
        path: Bytes::from_slice(alloc, b"/p")?,
        query: Some(Bytes::from_slice(alloc, b"q")?),
        framing: Framing::Empty,
        expects: false,
        keep: true,
        peer: 0,
    })
}

fn lines(alloc: Global, lines: &[(&[u8], &[u8])]) -> Result<List<Field>, AllocError> {
    let mut fields = List::new(alloc);
    for line in lines {
        fields.push(Field {
            name: Bytes::from_slice(alloc, line.0)?,
            value: Bytes::from_slice(alloc, line.1)?,
        })?;
    }
    Ok(fields)
}

/// The record that `BEFORE` shows.
fn record(alloc: Global) -> Result<Record, AllocError> {
    Ok(Record {
        path: Bytes::from_slice(alloc, b"/p")?,
        query: Some(Bytes::from_slice(alloc, b"q")?),
        status: 404,
        fields: lines(alloc, &[(b"via", b"a"), (b"server", b"b"), (b"Via", b"c")])?,
        context: lines(alloc, &[(b"who", b"me")])?,
        listeners: List::new(alloc),
        choice: Choice::Undecided,
    })
}

/// Writes the fields, each with the sign between its name and its value.
fn show_fields(out: &mut Vec<u8>, fields: &[Field], sign: &[u8]) -> Result<(), AllocError> {
    for field in fields {
        out.extend_from_slice(b", ")?;
        out.extend_from_slice(field.name.as_slice())?;
        out.extend_from_slice(sign)?;
        out.extend_from_slice(field.value.as_slice())?;
    }
    Ok(())
}

/// Shows a record as the rows do.
fn show(alloc: Global, exchange: &Record) -> Result<Vec<u8>, AllocError> {
    let mut out = Vec::from_slice(alloc, exchange.path.as_slice())?;
    if let Some(query) = &exchange.query {
        out.extend_from_slice(b"?")?;
        out.extend_from_slice(query.as_slice())?;
    }
    out.extend_from_slice(format!(in alloc; " {}", exchange.status)?.as_bytes())?;
    show_fields(&mut out, exchange.fields.as_slice(), b": ")?;
    show_fields(&mut out, exchange.context.as_slice(), b"=")?;
    for listener in exchange.listeners.as_slice() {
        let shown = match *listener {
            Listener::Leave(number) => format!(in alloc; ", leave {number}")?,
            Listener::Log(number) => format!(in alloc; ", log {number}")?,
        };
        out.extend_from_slice(shown.as_bytes())?;
    }
    if let Choice::Empty = exchange.choice {
        out.extend_from_slice(b", empty")?;
    }
    Ok(out)
}

/// Shows an effect as the rows do.
fn show_effect(alloc: Global, effect: &Effect) -> Result<Vec<u8>, AllocError> {
    let text: &[u8] = match effect {
        Effect::Go => b"go",
        Effect::Stop => b"stop",
        Effect::Ask(number) => {
            return Ok(format!(in alloc; "ask {number}")?.into_bytes());
        }
        Effect::Content => b"content",
        Effect::Page { location, listing } => {
            let mut out = Vec::from_slice(alloc, b"page ")?;
            out.extend_from_slice(location.as_slice())?;
            if *listing {
                out.extend_from_slice(b", listed")?;
            }
            return Ok(out);
        }
        Effect::Restart => b"restart",
        Effect::ToDefault => b"default",
        Effect::NoMemory => b"short",
    };
    Vec::from_slice(alloc, text)
}

/// Whether the action has the effect and leaves the record.
fn acts(
    alloc: Global,
    word: &Word,
    method: &[u8],
    wanted: &str,
    shown: &str,
) -> Result<bool, NoMemory> {
    let action = action(alloc, word)?;
    let mut exchange = record(alloc)?;
    let found = effect(
        alloc,
        &action,
        &request(alloc, method)?,
        &mut exchange,
        MOMENT,
    );
    let found = show_effect(alloc, &found)?;
    Ok(
        found.as_slice() == wanted.as_bytes()
            && show(alloc, &exchange)?.as_slice() == shown.as_bytes(),
    )
}

#[test]
fn actions_have_their_effects(rt: HostRuntime) -> Result<(), Fail> {
    let alloc = rt.alloc();
    for (i, (word, wanted, shown)) in EFFECTS.iter().enumerate() {
        assert!(rt; acts(alloc, word, b"GET", wanted, shown)?, "row {i}");
    }
    Ok(())
}

#[test]
fn methods_are_allowed(rt: HostRuntime) -> Result<(), Fail> {
    let alloc = rt.alloc();
    for (i, (method, methods, wanted, shown)) in METHODS.iter().enumerate() {
        let word = Word::Methods(methods);
        assert!(rt; acts(alloc, &word, method, wanted, shown)?, "row {i}");
    }
    Ok(())
}

/// The record behind the actions, one behind the other.
fn behind(alloc: Global, words: &[Word]) -> Result<Vec<u8>, NoMemory> {
    let request = request(alloc, b"GET")?;
    let mut exchange = record(alloc)?;
    for word in words {
        let action = action(alloc, word)?;
        if let Effect::NoMemory = effect(alloc, &action, &request, &mut exchange, MOMENT) {
            return Err(NoMemory);
        }
    }
    Ok(show(alloc, &exchange)?)
}

#[test]
fn actions_follow_one_another(rt: HostRuntime) -> Result<(), Fail> {
    let alloc = rt.alloc();
    for (i, (words, shown)) in TURNS.iter().enumerate() {
        let behind = behind(alloc, words)?;
        assert!(rt; behind.as_slice() == shown.as_bytes(), "row {i}");
    }
    Ok(())
}

/// Whether the value, written into the target, comes to this and leaves the record.
fn writes(
    alloc: Global,
    place: &Place,
    value: &[u8],
    wanted: Assign,
    shown: &str,
) -> Result<bool, NoMemory> {
    let target = target(alloc, place)?;
    let mut exchange = record(alloc)?;
    let value = Bytes::from_slice(alloc, value)?;
    let found = assign(alloc, &target, value, &mut exchange);
    Ok(found == wanted && show(alloc, &exchange)?.as_slice() == shown.as_bytes())
}

#[test]
fn values_are_written(rt: HostRuntime) -> Result<(), Fail> {
    let alloc = rt.alloc();
    for (i, (place, value, wanted, shown)) in WRITES.iter().enumerate() {
        assert!(rt; writes(alloc, place, value, *wanted, shown)?, "row {i}");
    }
    Ok(())
}

/// The record with so many fields more, whose names differ.
fn crowded(alloc: Global, count: u32) -> Result<Record, AllocError> {
    let mut exchange = record(alloc)?;
    for number in 0..count {
        exchange.fields.push(Field {
            name: Bytes::from_vec(format!(in alloc; "x{number}")?.into_bytes()),
            value: Bytes::from_slice(alloc, b"")?,
        })?;
    }
    Ok(exchange)
}

/// How many fields a record has after an action, where it had 256 of which two have the name `via`.
fn fields_after(alloc: Global, word: &Word) -> Result<usize, NoMemory> {
    let mut exchange = crowded(alloc, 253)?;
    let action = action(alloc, word)?;
    match effect(
        alloc,
        &action,
        &request(alloc, b"GET")?,
        &mut exchange,
        MOMENT,
    ) {
        Effect::NoMemory => Err(NoMemory),
        _ => Ok(exchange.fields.len()),
    }
}

#[test]
fn fields_are_at_most_256(rt: HostRuntime) -> Result<(), Fail> {
    let alloc = rt.alloc();
    for (i, (word, wanted)) in CROWDED.iter().enumerate() {
        assert_eq!(rt; fields_after(alloc, word)?, *wanted, "row {i}");
    }
    Ok(())
}

#[test]
fn an_empty_path_is_cleared(rt: HostRuntime) -> Result<(), Fail> {
    let alloc = rt.alloc();
    let mut exchange = record(alloc)?;
    exchange.path = Bytes::from_vec(Vec::new(alloc));
    let clear = action(alloc, &Word::Clear(Place::Path))?;
    let found = effect(
        alloc,
        &clear,
        &request(alloc, b"GET")?,
        &mut exchange,
        MOMENT,
    );
    assert!(rt; matches!(found, Effect::Go));
    assert_eq!(rt; exchange.path.as_slice(), b"/".as_slice());
    Ok(())
}
