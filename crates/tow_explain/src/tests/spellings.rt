//! Texts with names, bytes and values that are nothing, and what is told.

use super::telling::Row;
use tow_language::Kind;

pub(crate) const SPELLINGS: &[Row] = &[
    (
        b"path('/a -> done",
        Kind::UnclosedQuote,
        1,
        6,
        "1 | path('/a -> done
  |      ^ this quote is opened here and not closed
  = write the same quote where the value ends, or close one before it; in a value put a backslash before it
",
    ),
    (
        b"path(/old) -> rewriet('/b')",
        Kind::UnknownName,
        1,
        15,
        "1 | path(/old) -> rewriet('/b')
  |               ^ no handler has this name: `rewriet`
  = write a handler: set, clear, rewrite, redirect, response-code, header, allowed-methods, request-limit, resource, blocking, access-log or echo
",
    ),
    (
        b"regex('(') -> done",
        Kind::BadPattern,
        1,
        7,
        "1 | regex('(') -> done
  |       ^ this is no pattern of regex: `unclosed group, at byte 1 of it`
  = mend it at that byte; a backslash makes a byte stand for itself; no look-around or back-reference is known
",
    ),
    (
        b"redirect('http://example.org%U%Q')",
        Kind::BadAttribute,
        1,
        10,
        "1 | redirect('http://example.org%U%Q')
  |          ^ this is no attribute: `%Q`
  = write %% for a percent sign, or an attribute: %m %U %R %q %s %r %H %a %h %l %u %t %B %b %{i,name} %{o,name} %{q,name} %{c,name} ${name}
",
    ),
    (
        b"#x",
        Kind::UnknownName,
        1,
        1,
        "1 | #x
  | ^ a text has no comments, so this is the name of a call: `#x`
  = remove what was to be a comment
",
    ),
    (
        b"\x01",
        Kind::StrayByte,
        1,
        1,
        "1 | \\x01
  | ^ this control byte may stand in quotes alone: `\\x01`
  = remove it, or put the whole value in quotes
",
    ),
    (
        b"\xef\xbb\xbfdone",
        Kind::StrayByte,
        1,
        1,
        "1 | \\xef\\xbb\\xbfdone
  | ^ a byte order mark stands before the text: `\\xef\\xbb\\xbf`
  = save the text as UTF-8 without a byte order mark
",
    ),
    (
        b"path('\xe6\x97\xa5\xe6\x9c\xac', /b) \xff",
        Kind::StrayByte,
        1,
        20,
        "1 | path('\u{65e5}\u{672c}', /b) \\xff
  |                  ^ this byte begins no character of UTF-8: `\\xff`
  = save the text as UTF-8
",
    ),
    (
        b"path(/a) \xc3\xa9",
        Kind::StrayByte,
        1,
        10,
        "1 | path(/a) \u{e9}
  |          ^ this character may stand in quotes alone: `\u{e9}`
  = write plain quotes round the whole value, or a plain character in its place
",
    ),
    (
        b"exists(%{i,Host) -> done",
        Kind::UnclosedBrace,
        1,
        8,
        "1 | exists(%{i,Host) -> done
  |        ^ this brace is opened here and not closed before the line ends
  = write } after the name of the attribute
",
    ),
    (
        b"set(attribute='%{o,content-length}', value=1)",
        Kind::BadTarget,
        1,
        15,
        "1 | set(attribute='%{o,content-length}', value=1)
  |               ^ the server writes this field itself: `%{o,content-length}`
  = leave it out, or write another field
",
    ),
    (
        b"clear(%m)",
        Kind::BadTarget,
        1,
        7,
        "1 | clear(%m)
  |       ^ this may not be written: `%m`
  = what may be written: %R, %q, %s, %{o,name} and ${name}
",
    ),
    (
        b"response-code(204) -> done",
        Kind::UnknownName,
        1,
        1,
        "1 | response-code(204) -> done
  | ^ this is a handler, and a predicate is wanted here: `response-code`
  = write a predicate here, and the handler after ->
",
    ),
    (
        b"path(/a)",
        Kind::UnknownName,
        1,
        1,
        "1 | path(/a)
  | ^ this is a predicate, and a handler is wanted here: `path`
  = write -> and a target after the predicate
",
    ),
    (
        b"regex('(a{1000}){1000}') -> done",
        Kind::LargePattern,
        1,
        7,
        "1 | regex('(a{1000}){1000}') -> done
  |       ^ the program of this pattern is larger than 10 MiB: `(a{1000}){1000}`
  = write smaller counts in { }
",
    ),
    (
        b"((((((((((((((((((((((((((((((((((",
        Kind::TooDeep,
        1,
        33,
        "1 | ((((((((((((((((((((((((((((((((((
  |                                 ^ this opens level 33
  = at most 32 blocks, parentheses, not and else are open at once: split the statement
",
    ),
    (
        b"header(header='a b', value=1)",
        Kind::BadAttribute,
        1,
        15,
        "1 | header(header='a b', value=1)
  |               ^ this is no name of a field: `a b`
  = write letters, digits and ! # $ % & * + - . ^ _ | ~
  = header takes
  =   header: the name of a field
  =   value: a text, with attributes or without
  =   override: true or false; true if it is left out
",
    ),
    (
        b"# don't\ndone",
        Kind::UnclosedQuote,
        1,
        6,
        "1 | # don't
  |      ^ a text has no comments, so this quote opens a value
  = remove what was to be a comment
",
    ),
    (
        b"done\n  // \xc3\xa9l\xc3\xa8ve",
        Kind::StrayByte,
        2,
        6,
        "2 |   // \u{e9}l\u{e8}ve
  |      ^ a text has no comments, and this character may stand in quotes alone: `\u{e9}`
  = remove what was to be a comment
",
    ),
    (
        b"//old",
        Kind::UnknownName,
        1,
        1,
        "1 | //old
  | ^ a text has no comments, so this is the name of a call: `//old`
  = remove what was to be a comment
",
    ),
    (
        b"/a -> done",
        Kind::UnknownName,
        1,
        1,
        "1 | /a -> done
  | ^ no predicate has this name: `/a`
  = write a predicate: true, false, path, path-prefix, path-suffix, path-template, regex, method, equals, contains or exists
",
    ),
    (
        b"path(\xe2\x80\x9c/a\xe2\x80\x9d) -> done",
        Kind::StrayByte,
        1,
        6,
        "1 | path(\u{201c}/a\u{201d}) -> done
  |      ^ this character may stand in quotes alone: `\u{201c}`
  = write plain quotes round the whole value, or a plain character in its place
",
    ),
];
