//! Texts that compile, and texts with a fault of each kind but `TooLong`, with its line and column.

use crate::{Fault, compile};
use std::alloc::{AllocError, Global};
use std::test::Fail;
use tow_language::Kind;
use tow_link::{KeyCounts, MemoryMaker, PackMaker};

/// Texts, how many statements they have, and how many patterns.
const COMPILED: [(&[u8], u32, usize); 8] = [
    (b"", 0, 0),
    (b"\n;\n", 0, 0),
    (b"done", 1, 0),
    (b"{}{}done", 3, 0),
    (b"path(/a) -> {\n} ; else done", 1, 0),
    (b"(true or\n false and not true) -> done", 1, 0),
    (b"path(a) -> done else -> done", 1, 0),
    (
        b"regex('a') -> done; { regex(pattern=b) -> done }\ndone",
        3,
        2,
    ),
];

/// Texts whose tokens or grammar have a fault, with its line and column.
const SYNTAX: [(&[u8], Kind, u32, u32); 17] = [
    (b"path('/a -> done", Kind::UnclosedQuote, 1, 6),
    (b"\nset(%{i,a", Kind::UnclosedBrace, 2, 5),
    (b"\n\n \xFF", Kind::StrayByte, 3, 2),
    (b"else done", Kind::Unexpected, 1, 1),
    (b"done done", Kind::Unexpected, 1, 6),
    (b"done else done", Kind::Unexpected, 1, 6),
    (b"nosuch(1); else", Kind::Unexpected, 1, 12),
    (
        b"path(/a) -> done else\n-> restart",
        Kind::Unexpected,
        1,
        22,
    ),
    (b"path(/a) ->\ndone", Kind::Unexpected, 1, 12),
    (b"not\n true -> done", Kind::Unexpected, 1, 4),
    (b"restart()", Kind::Unexpected, 1, 8),
    (b"a(b", Kind::Unexpected, 1, 4),
    (b"a(b]", Kind::Unexpected, 1, 4),
    (b"a(b,)", Kind::Unexpected, 1, 5),
    (b"a(b, c=d)", Kind::Unexpected, 1, 7),
    (b"{{{{{{{{{{{{{{{{{{{{{{{{{{{{{{{{{", Kind::TooDeep, 1, 33),
    (b"true -> {", Kind::Unexpected, 1, 10),
];

/// Texts with a call that does not fit, with the line and column of its fault.
const FIT: [(&[u8], Kind, u32, u32); 26] = [
    (b"path(/a) -> done; true", Kind::UnknownName, 1, 19),
    (b"path-prefix(/a) -> {\n  nosuch }", Kind::UnknownName, 2, 3),
    (b"echo -> done", Kind::UnknownName, 1, 1),
    (b"response-code(205)", Kind::BadParameter, 1, 15),
    (b"response-code(value={200})", Kind::BadParameter, 1, 21),
    (b"response-code(00000000204)", Kind::BadParameter, 1, 15),
    (b"request-limit(0)", Kind::BadParameter, 1, 15),
    (b"request-limit(65536)", Kind::BadParameter, 1, 15),
    (
        b"resource(location=/a, allow-listing=yes)",
        Kind::BadParameter,
        1,
        37,
    ),
    (b"path({}) -> done", Kind::BadParameter, 1, 6),
    (
        b"path-template('/{a}/{a}') -> done",
        Kind::BadParameter,
        1,
        15,
    ),
    (b"path-template('/a}') -> done", Kind::BadParameter, 1, 15),
    (b"allowed-methods('G T')", Kind::BadParameter, 1, 17),
    (b"contains(value=%m) -> done", Kind::BadParameter, 1, 1),
    (
        b"set(attribute=%{o,a}, value=b, value=c)",
        Kind::BadParameter,
        1,
        32,
    ),
    (b"set(attribute='%%', value=1)", Kind::BadParameter, 1, 15),
    (b"header('a b', x)", Kind::BadParameter, 1, 15),
    (b"blocking(a=b)", Kind::BadParameter, 1, 10),
    (b"rewrite('%')", Kind::BadAttribute, 1, 9),
    (b"access-log('%z')", Kind::BadAttribute, 1, 12),
    (b"equals({a, '%'}) -> done", Kind::BadAttribute, 1, 8),
    (b"header(header='a b', value=x)", Kind::BadAttribute, 1, 15),
    (
        b"set(attribute='%{i,a b}', value=1)",
        Kind::BadAttribute,
        1,
        15,
    ),
    (b"header(header=DATE, value=x)", Kind::BadTarget, 1, 15),
    (b"set(attribute='%m', value=1)", Kind::BadTarget, 1, 15),
    (
        b"done;\nset(attribute='%{o,content-length}', value=1)",
        Kind::BadTarget,
        2,
        15,
    ),
];

/// Whether the text has this fault.
fn is_fault(alloc: Global, text: &[u8], wanted: Fault) -> bool {
    match compile(alloc, text, &mut PackMaker::new()) {
        Ok(_) => false,
        Err(fault) => fault == wanted,
    }
}

/// Whether the text has so many statements and patterns.
fn is_site(alloc: Global, text: &[u8], statements: u32, patterns: usize) -> bool {
    match compile(alloc, text, &mut PackMaker::new()) {
        Ok(site) => { site.statements() == statements && site.pattern_places().len() == patterns }
        Err(_) => false,
    }
}

#[test]
fn texts_compile(rt: HostRuntime) -> Result<(), Fail> {
    let alloc = rt.alloc();
    for (text, statements, patterns) in COMPILED {
        assert!(rt; is_site(alloc, text, statements, patterns));
    }
    Ok(())
}

#[test]
fn grammar_faults_have_their_places(rt: HostRuntime) -> Result<(), Fail> {
    let alloc = rt.alloc();
    for (text, kind, line, column) in SYNTAX {
        assert!(rt; is_fault(alloc, text, Fault::Text { kind, line, column }));
    }
    Ok(())
}

#[test]
fn fit_faults_have_their_places(rt: HostRuntime) -> Result<(), Fail> {
    let alloc = rt.alloc();
    for (text, kind, line, column) in FIT {
        assert!(rt; is_fault(alloc, text, Fault::Text { kind, line, column }));
    }
    Ok(())
}

/// Texts with a pattern that is refused by a maker to which `large` is too large, with the line and column of the first
/// such.
const REFUSED: [(&[u8], Kind, u32, u32); 6] = [
    (b"regex('(') -> done", Kind::BadPattern, 1, 7),
    (b"regex(large) -> done", Kind::LargePattern, 1, 7),
    (
        b"regex(a) -> {\n not regex(pattern='a)') and regex('(') -> done }",
        Kind::BadPattern,
        2,
        20,
    ),
    (
        b"true -> done else regex(large) or regex('(') -> done",
        Kind::LargePattern,
        1,
        25,
    ),
    (
        b"regex('(') -> done\nregex(large) -> done",
        Kind::BadPattern,
        1,
        7,
    ),
    (b"regex('(') -> done; nosuch", Kind::UnknownName, 1, 21),
];

/// The fault of a text under a maker to which `large` is too large.
fn fault_of(alloc: Global, text: &[u8]) -> Result<Option<Fault>, AllocError> {
    let mut larges = KeyCounts::new(alloc);
    larges.begin(b"large".to_vec(alloc)?)?;
    Ok(compile(alloc, text, &mut MemoryMaker::new(larges)).err())
}

#[test]
fn patterns_that_are_refused_have_their_places(rt: HostRuntime) -> Result<(), Fail> {
    let alloc = rt.alloc();
    for (text, kind, line, column) in REFUSED {
        assert_eq!(rt;
            fault_of(alloc, text)?,
            Some(Fault::Text { kind, line, column })
        );
    }
    Ok(())
}
