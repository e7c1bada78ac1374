//! Predicates written word by word, and what they hold of and bind.

use crate::PatternFault;

/// A predicate's call, or one of `not`, `and` and `or`: its name, the texts and the template that it has.
pub(crate) type Word<'a> = (&'a str, &'a [&'a [u8]], &'a [u8]);

/// A name and a value.
pub(crate) type Line<'a> = (&'a [u8], &'a [u8]);

/// A predicate, a path, whether it holds, and the bindings after it. `1` is bound to `one` before.
pub(crate) type Row<'a> = (&'a [Word<'a>], &'a [u8], bool, &'a [Line<'a>]);

/// What is bound before a predicate.
pub(crate) const BEFORE: &[Line] = &[(b"1", b"one")];

/// Each test alone.
pub(crate) const TESTS: [Row; 26] = [
    (&[("true", &[], b"")], b"/", true, BEFORE),
    (&[("false", &[], b"")], b"/", false, BEFORE),
    (&[("path", &[b"/a", b"/b"], b"")], b"/b", true, BEFORE),
    (&[("path", &[b"/a", b"/b"], b"")], b"/b/", false, BEFORE),
    (
        &[("path-prefix", &[b"", b"/a/b", b"/a"], b"")],
        b"/a/b/c",
        true,
        &[(b"1", b"one"), (b"remaining", b"/c")],
    ),
    (
        &[("path-prefix", &[b"/a", b"/a/b"], b"")],
        b"/a/b",
        true,
        &[(b"1", b"one"), (b"remaining", b"")],
    ),
    (&[("path-prefix", &[b"/a/b"], b"")], b"/a/bc", false, BEFORE),
    (
        &[("path-suffix", &[b".txt", b".md"], b"")],
        b"/x.md",
        true,
        BEFORE,
    ),
    (
        &[("path-suffix", &[b".txt"], b"")],
        b"/x.txt/",
        false,
        BEFORE,
    ),
    (
        &[("path-template", &[b"", b"users", b"{id", b"{1"], b"%R")],
        b"/users/7/b",
        true,
        &[(b"id", b"7"), (b"1", b"b")],
    ),
    (
        &[("path-template", &[b"", b"{id"], b"%R")],
        b"/",
        false,
        BEFORE,
    ),
    (
        &[("path-template", &[b"{id"], b"%m")],
        b"/",
        true,
        &[(b"1", b"one"), (b"id", b"GET")],
    ),
    (
        &[("regex", &[b"^/(a+)(b)?"], b"%R")],
        b"/aac",
        true,
        &[(b"0", b"/aa"), (b"1", b"aa"), (b"2", b"")],
    ),
    (
        &[("regex", &[b"b+"], b"%R")],
        b"/abb/b",
        true,
        &[(b"1", b"one"), (b"0", b"bb")],
    ),
    (
        &[("regex", &[b"a|ab"], b"%R")],
        b"/ab",
        true,
        &[(b"1", b"one"), (b"0", b"a")],
    ),
    (&[("regex", &[b"^a"], b"%R")], b"/a", false, BEFORE),
    (&[("method", &[b"PUT", b"GET"], b"")], b"/", true, BEFORE),
    (&[("method", &[b"get"], b"")], b"/", false, BEFORE),
    (
        &[("equals", &[b"%m", b"GET", b"G%{q,e}ET"], b"")],
        b"/",
        true,
        BEFORE,
    ),
    (
        &[("equals", &[b"%m", b"GET", b"PUT"], b"")],
        b"/",
        false,
        BEFORE,
    ),
    (
        &[("contains", &[b"b", b"yz"], b"%{q,a}")],
        b"/",
        true,
        BEFORE,
    ),
    (&[("contains", &[b"b"], b"%{q,a}")], b"/", false, BEFORE),
    (&[("contains", &[b""], b"%{q,e}")], b"/", true, BEFORE),
    (&[("contains", &[b"xyzx"], b"%{q,a}")], b"/", false, BEFORE),
    (&[("exists", &[], b"%{q,a}")], b"/", true, BEFORE),
    (&[("exists", &[], b"%{q,e}")], b"/", false, BEFORE),
];

/// The prefix of a path, and the words that join.
pub(crate) const UNDER_A: Word = ("path-prefix", &[b"/a"], b"");

pub(crate) const NEVER: Word = ("false", &[], b"");

pub(crate) const NOT: Word = ("not", &[], b"");

pub(crate) const AND: Word = ("and", &[], b"");

pub(crate) const OR: Word = ("or", &[], b"");

/// Predicates of several tests.
pub(crate) const JOINED: [Row; 10] = [
    (
        &[
            ("equals", &[b"%m", b"GET"], b""),
            ("path-suffix", &[b".txt"], b""),
            NOT,
            AND,
        ],
        b"/a.md",
        true,
        BEFORE,
    ),
    (
        &[
            ("equals", &[b"%m", b"GET"], b""),
            ("path-suffix", &[b".txt"], b""),
            NOT,
            AND,
        ],
        b"/a.txt",
        false,
        BEFORE,
    ),
    (
        &[UNDER_A, NEVER, AND],
        b"/a",
        false,
        &[(b"1", b"one"), (b"remaining", b"")],
    ),
    (
        &[UNDER_A, NOT],
        b"/a/b",
        false,
        &[(b"1", b"one"), (b"remaining", b"/b")],
    ),
    (&[UNDER_A, NOT], b"/b", true, BEFORE),
    (&[NEVER, UNDER_A, AND], b"/a", false, BEFORE),
    (
        &[UNDER_A, ("regex", &[b"a"], b"%R"), OR],
        b"/a",
        true,
        &[(b"1", b"one"), (b"remaining", b"")],
    ),
    (
        &[NEVER, ("regex", &[b"a"], b"%R"), OR],
        b"/a",
        true,
        &[(b"1", b"one"), (b"0", b"a")],
    ),
    (
        &[
            ("regex", &[b"^/(a)"], b"%R"),
            ("regex", &[b"(c)?b"], b"%R"),
            AND,
            NOT,
        ],
        b"/ab",
        false,
        &[(b"0", b"b"), (b"1", b"")],
    ),
    (
        &[UNDER_A, ("equals", &[b"${remaining}", b"/x"], b""), AND],
        b"/a/x",
        true,
        &[(b"1", b"one"), (b"remaining", b"/x")],
    ),
];

/// Predicates, and the faults of their patterns.
pub(crate) const FAULTS: [(&[Word], Option<PatternFault>); 5] = [
    (&[UNDER_A], None),
    (&[("regex", &[b"a(b|c)*"], b"%R")], None),
    (
        &[("regex", &[b"("], b"%R")],
        Some(PatternFault::BadPattern(0)),
    ),
    (
        &[
            ("regex", &[b"a"], b"%R"),
            ("regex", &[b"[b"], b"%R"),
            ("regex", &[b"("], b"%R"),
            OR,
            AND,
        ],
        Some(PatternFault::BadPattern(1)),
    ),
    (
        &[
            ("regex", &[b"a"], b"%R"),
            ("regex", &[b"(a{1000}){1000}"], b"%R"),
            ("regex", &[b"("], b"%R"),
            OR,
            AND,
        ],
        Some(PatternFault::LargePattern(1)),
    ),
];
