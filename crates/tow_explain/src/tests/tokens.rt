//! Texts with a token that may not stand where it stands, and what is told.

use super::telling::Row;
use tow_language::Kind;

pub(crate) const TOKENS: &[Row] = &[
    (
        b"path(/a) => done",
        Kind::Unexpected,
        1,
        10,
        "1 | path(/a) => done
  |          ^ an arrow is written ->: `=`
  = write -> in place of =>
",
    ),
    (
        b"path(/a) -> {\ndone\n",
        Kind::Unexpected,
        3,
        1,
        "3 | 
  | ^ this is opened and not closed: `{ of 1:13`
  = write the closing one: ) for (, ] for [, } for {
",
    ),
    (
        b"# x",
        Kind::Unexpected,
        1,
        3,
        "1 | # x
  |   ^ a text has no comments: `x`
  = remove what was to be a comment
",
    ),
    (
        b"path(/a) ->\ndone",
        Kind::Unexpected,
        1,
        12,
        "1 | path(/a) ->
  |            ^ the line ends here, and its statement goes on
  = go on with the statement on the same line
",
    ),
    (
        b"path(/a) and\npath(/b) -> done",
        Kind::Unexpected,
        1,
        13,
        "1 | path(/a) and
  |             ^ the line ends here, and its statement goes on
  = go on with the statement on the same line
",
    ),
    (
        b"path-template(/u/{id}) -> done",
        Kind::Unexpected,
        1,
        18,
        "1 | path-template(/u/{id}) -> done
  |                  ^ this may not follow a value: `{`
  = write , or close the bracket; quote a value with a space or ( ) [ ] { } , = ;
",
    ),
    (
        b"done\r\n\tpath(/a,) -> done\r\n",
        Kind::Unexpected,
        2,
        10,
        "2 | \tpath(/a,) -> done
  | \t        ^ a value is wanted here: `)`
  = write a word, a text in quotes, or an array { .. }
",
    ),
    (
        b"path(path=/a, /b) -> done",
        Kind::Unexpected,
        1,
        17,
        "1 | path(path=/a, /b) -> done
  |                 ^ values with names and without may not be mixed: `)`
  = write NAME = VALUE for each value, or one value without a name
",
    ),
    (
        b"done done",
        Kind::Unexpected,
        1,
        6,
        "1 | done done
  |      ^ this may not follow a statement: `done`
  = end the statement by a line end or ;
",
    ),
    (
        b") done",
        Kind::Unexpected,
        1,
        1,
        "1 | ) done
  | ^ this closes nothing that is open: `)`
  = remove it, or open it before
",
    ),
    (
        b"(path(/a) path(/b)) -> done",
        Kind::Unexpected,
        1,
        11,
        "1 | (path(/a) path(/b)) -> done
  |           ^ this may not follow a predicate in parentheses: `path`
  = write and, or, or )
",
    ),
    (
        b"done; else done",
        Kind::Unexpected,
        1,
        7,
        "1 | done; else done
  |       ^ this else follows no statement with a predicate: `else`
  = write else directly after PREDICATE -> TARGET, once
",
    ),
    (
        b"path(/a) -> or",
        Kind::Unexpected,
        1,
        13,
        "1 | path(/a) -> or
  |             ^ a target is wanted here: `or`
  = write a handler, restart, done, or a block { .. }
",
    ),
    (
        b"path(/a) and -> done",
        Kind::Unexpected,
        1,
        14,
        "1 | path(/a) and -> done
  |              ^ a predicate is wanted here: `->`
  = write a predicate, not and a predicate, or one in ( )
",
    ),
    (
        b"path({a, {b}}) -> done",
        Kind::Unexpected,
        1,
        10,
        "1 | path({a, {b}}) -> done
  |          ^ a text is wanted here in the array: `{`
  = write a word or a text in quotes; no array stands in an array
",
    ),
    (
        b"path({a b}) -> done",
        Kind::Unexpected,
        1,
        9,
        "1 | path({a b}) -> done
  |         ^ this may not follow a text of an array: `b`
  = write , or }
",
    ),
    (
        b"path(/a)\n-> done",
        Kind::Unexpected,
        2,
        1,
        "2 | -> done
  | ^ the line end before this has ended its statement: `->`
  = write it on the line before; in ( ) a predicate may go on over lines
",
    ),
    (
        b"path(/a)\n  or path(/b) -> done",
        Kind::Unexpected,
        2,
        3,
        "2 |   or path(/b) -> done
  |   ^ the line end before this has ended its statement: `or`
  = write it on the line before; in ( ) a predicate may go on over lines
",
    ),
    (
        b"path('/a) -> redirect('/b')\npath('/c) -> done",
        Kind::Unexpected,
        1,
        24,
        "1 | path('/a) -> redirect('/b')
  |                        ^ this may not follow a text in quotes: `/b`
  = write , or close the bracket; if this is to be in quotes, a quote before it is not closed
",
    ),
    (
        b"header(header=x-a, value='1'\npath(/a) -> done",
        Kind::Unexpected,
        2,
        1,
        "2 | path(/a) -> done
  | ^ this stands in what is opened and not closed: `( of 1:7`
  = close it where the call ends, or write , before this
",
    ),
    (
        b"header(header=x-a\n       value=1)",
        Kind::Unexpected,
        2,
        8,
        "2 |        value=1)
  |        ^ this stands in what is opened and not closed: `( of 1:7`
  = close it where the call ends, or write , before this
",
    ),
    (
        b"restart()",
        Kind::Unexpected,
        1,
        8,
        "1 | restart()
  |        ^ restart and done take no parameters: `(`
  = write the word alone
",
    ),
    (
        b"path(/a) -> done else if path(/b) -> done",
        Kind::Unexpected,
        1,
        26,
        "1 | path(/a) -> done else if path(/b) -> done
  |                          ^ a text has no if
  = write PREDICATE -> TARGET, and else for what is done otherwise
",
    ),
    (
        b"if (path(/a)) { done }",
        Kind::Unexpected,
        1,
        9,
        "1 | if (path(/a)) { done }
  |         ^ a text has no if
  = write PREDICATE -> TARGET, and else for what is done otherwise
",
    ),
    (
        b"// old rules\ndone",
        Kind::Unexpected,
        1,
        4,
        "1 | // old rules
  |    ^ a text has no comments: `old`
  = remove what was to be a comment
",
    ),
    (
        b"done /* old */",
        Kind::Unexpected,
        1,
        6,
        "1 | done /* old */
  |      ^ a text has no comments: `/*`
  = remove what was to be a comment
",
    ),
];
