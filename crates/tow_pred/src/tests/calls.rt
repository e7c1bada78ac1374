//! Whether predicates hold and bind what their rows say.

ghost use Rattle.std.specs.Prelude.{◌≡◌, true, IfOk};
ghost use Rattle.tow_pred.specs.Found.{told};
ghost use Rattle.tow_semantics.specs.Predicates.{AreAmong};
ghost use Rattle.tow_pred.specs.Numbering.{AreNumbered, IsNumbered, statement_patterns};

use super::rows::{FAULTS, JOINED, Line, Row, TESTS, Word};
use crate::finding::{Found, find_in_tree};
use crate::{PatternFault, Scratch, build, holds};
use sqlite_items::{Boxed, Items};
use std::alloc::{AllocError, Global};
use std::test::Fail;
use tow_attr::read_template;
use tow_link::PackMaker;
use tow_model::{
    Action, Bytes, Choice, Field, Framing, List, NoMemory, Predicate, Record, Request, Segment,
    Statement, Template, Test, Tree, Version,
};

/// `Sun, 06 Nov 1994 08:49:37 GMT`.
const MOMENT: u64 = 784_111_777;

fn texts(alloc: Global, texts: &[&[u8]]) -> Result<List<Bytes>, AllocError> {
    let mut list = List::new(alloc);
    for text in texts {
        list.push(Bytes::from_slice(alloc, text)?)?;
    }
    Ok(list)
}

fn template(alloc: Global, text: &[u8]) -> Result<Template, NoMemory> {
    match read_template(alloc, text) {
        Ok(template) => Ok(template),
        Err(_) => Err(NoMemory),
    }
}

fn templates(alloc: Global, texts: &[&[u8]]) -> Result<List<Template>, NoMemory> {
    let mut list = List::new(alloc);
    for text in texts {
        list.push(template(alloc, text)?)?;
    }
    Ok(list)
}

/// The parts of a path template, of which those with a brace bind.
fn segments(alloc: Global, texts: &[&[u8]]) -> Result<List<Segment>, AllocError> {
    let mut parts = List::new(alloc);
    for text in texts {
        parts.push(match text.strip_prefix(b"{") {
            Some(name) => Segment::Bind(Bytes::from_slice(alloc, name)?),
            None => Segment::Fixed(Bytes::from_slice(alloc, text)?),
        })?;
    }
    Ok(parts)
}

/// The test that a word calls. A word of another name is `false`.
fn test(alloc: Global, word: &Word, number: u32) -> Result<Test, NoMemory> {
    let (name, given, value) = *word;
    Ok(match name {
        "true" => Test::True,
        "path" => Test::Path(texts(alloc, given)?),
        "path-prefix" => Test::Prefix(texts(alloc, given)?),
        "path-suffix" => Test::Suffix(texts(alloc, given)?),
        "path-template" => Test::PathTemplate {
            parts: segments(alloc, given)?,
            value: template(alloc, value)?,
        },
        "regex" => Test::Regex {
            number,
            pattern: Bytes::from_slice(alloc, given.first().copied().unwrap_or(b""))?,
            value: template(alloc, value)?,
        },
        "method" => Test::Method(texts(alloc, given)?),
        "equals" => Test::Equals(templates(alloc, given)?),
        "contains" => Test::Contains {
            value: template(alloc, value)?,
            search: texts(alloc, given)?,
        },
        "exists" => Test::Exists(template(alloc, value)?),
        _ => Test::False,
    })
}

/// Takes the last predicate from the stack.
fn last(alloc: Global, stack: &mut Items<Predicate>) -> Result<Boxed<Predicate>, AllocError> {
    let predicate = stack.pop().unwrap_or(Predicate::Is(Test::False));
    Boxed::new(alloc, predicate)
}

/// Puts the word's predicate on the stack, from which `not`, `and` and `or` take the last ones.
fn put(
    alloc: Global,
    stack: &mut Items<Predicate>,
    word: &Word,
    number: u32,
) -> Result<(), NoMemory> {
    let predicate = match word.0 {
        "not" => Predicate::Not(last(alloc, stack)?),
        "and" => {
            let right = last(alloc, stack)?;
            Predicate::And(last(alloc, stack)?, right)
        }
        "or" => {
            let right = last(alloc, stack)?;
            Predicate::Or(last(alloc, stack)?, right)
        }
        _ => Predicate::Is(test(alloc, word, number)?),
    };
    stack.push(predicate)?;
    Ok(())
}

/// A tree of one statement, whose predicate the words spell, each `not`, `and` and `or` behind what it joins.
fn tree(alloc: Global, words: &[Word]) -> Result<Tree, NoMemory> {
    let mut stack = Items::new(alloc);
    let mut number: u32 = 0;
    for word in words {
        put(alloc, &mut stack, word, number)?;
        if word.0 == "regex" {
            number = number.saturating_add(1);
        }
    }
    let test = stack.pop().unwrap_or(Predicate::Is(Test::False));
    let mut tree = Items::new(alloc);
    tree.push(Statement::When {
        test,
        yes: Boxed::new(alloc, Statement::Act(Action::Done))?,
        other: None,
    })?;
    Ok(tree)
}

fn request(alloc: Global) -> Result<Request, AllocError> {
    Ok(Request {
        method: Bytes::from_slice(alloc, b"GET")?,
        target: Bytes::from_slice(alloc, b"/")?,
        version: Version::V11,
        fields: List::new(alloc),
        url: Bytes::from_slice(alloc, b"/")?,
        path: Bytes::from_slice(alloc, b"/")?,
        query: None,
        framing: Framing::Empty,
        expects: false,
        keep: true,
        peer: 0,
    })
}

fn state(alloc: Global, path: &[u8]) -> Result<Record, AllocError> {
    let mut context = List::new(alloc);
    context.push(Field {
        name: Bytes::from_slice(alloc, b"1")?,
        value: Bytes::from_slice(alloc, b"one")?,
    })?;
    Ok(Record {
        path: Bytes::from_slice(alloc, path)?,
        query: Some(Bytes::from_slice(alloc, b"a=xyz&e=")?),
        status: 200,
        fields: List::new(alloc),
        context,
        listeners: List::new(alloc),
        choice: Choice::Undecided,
    })
}

fn are_numbered(found: &[Found<'_>]) -> bool
    ensures { result ≡ true → AreNumbered (told found.now) }
{
    for number in 0..found.len() {
        if found[number].number as usize != number {
            return false;
        }
    }
    true
}

fn is_numbered(alloc: Global, tree: &Tree) -> Result<bool, AllocError>
    ensures { IfOk result (λ is. is ≡ true → IsNumbered tree.now) }
{
    let mut found = Vec::new(alloc);
    find_in_tree(&mut found, tree.as_slice())?;
    Ok(are_numbered(found.as_slice()))
}

/// Whether the predicate of a statement holds.
fn asked(
    alloc: Global,
    scratch: &mut Scratch<'_>,
    statement: &Statement,
    state: &mut Record,
) -> Result<bool, NoMemory>
    requires { AreAmong (statement_patterns statement.now) scratch.old }
{
    match statement {
        Statement::When { test, .. } => {
            holds(alloc, scratch, test, &request(alloc)?, state, MOMENT)
        }
        _ => Err(NoMemory),
    }
}

/// Whether the predicate of a tree's first statement holds.
fn first_holds(alloc: Global, tree: &Tree, state: &mut Record) -> Result<bool, Fail> {
    if !is_numbered(alloc, tree)? {
        return Err("the tests have other numbers".into());
    }
    let tests = build(alloc, tree, &mut PackMaker::new())?;
    let mut scratch = Scratch::new(alloc, &tests)?;
    let Some(first) = tree.get(0) else {
        return Err("no statement".into());
    };
    let held = asked(alloc, &mut scratch, first, state)?;
    Ok(held)
}

fn are_bound(context: &[Field], wanted: &[Line]) -> bool {
    context.len() == wanted.len()
        && context.iter().zip(wanted).all(|(f, w)| f.name.as_slice() == w.0
            && f.value.as_slice() == w.1)
}

fn expect(alloc: Global, row: &Row) -> Result<bool, Fail> {
    let mut state = state(alloc, row.1)?;
    let held = first_holds(alloc, &tree(alloc, row.0)?, &mut state)?;
    Ok(held == row.2 && are_bound(state.context.as_slice(), row.3))
}

#[test]
fn tests_hold_and_bind(rt: HostRuntime) -> Result<(), Fail> {
    for (i, row) in TESTS.iter().enumerate() {
        assert!(rt; expect(rt.alloc(), row)?, "row {i}");
    }
    Ok(())
}

#[test]
fn joined_tests_hold_and_bind(rt: HostRuntime) -> Result<(), Fail> {
    for (i, row) in JOINED.iter().enumerate() {
        assert!(rt; expect(rt.alloc(), row)?, "row {i}");
    }
    Ok(())
}

/// The fault of a tree whose predicate the words spell.
fn fault_of(alloc: Global, words: &[Word]) -> Result<Option<PatternFault>, Fail> {
    let tree = tree(alloc, words)?;
    if !is_numbered(alloc, &tree)? {
        return Err("the tests have other numbers".into());
    }
    Ok(build(alloc, &tree, &mut PackMaker::new()).err())
}

#[test]
fn faults_name_the_first_pattern(rt: HostRuntime) -> Result<(), Fail> {
    for (i, row) in FAULTS.iter().enumerate() {
        assert!(rt; fault_of(rt.alloc(), row.0)? == row.1, "row {i}");
    }
    Ok(())
}
