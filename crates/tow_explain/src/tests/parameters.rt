//! Texts with calls that take what they may not, and what is told.

use super::telling::Row;
use tow_language::Kind;

pub(crate) const PARAMETERS: &[Row] = &[
    (
        b"path(/a) -> header(name=x-a, value=1)",
        Kind::BadParameter,
        1,
        20,
        "1 | path(/a) -> header(name=x-a, value=1)
  |                    ^ the call has no parameter of this name: `name`
  = write one of the names below, or quote the value of which this is a part
  = header takes
  =   header: the name of a field
  =   value: a text, with attributes or without
  =   override: true or false; true if it is left out
",
    ),
    (
        b"header(header=x-a)",
        Kind::BadParameter,
        1,
        1,
        "1 | header(header=x-a)
  | ^ this parameter is missing, and it has no default: `value`
  = write it: NAME = VALUE
  = header takes
  =   header: the name of a field
  =   value: a text, with attributes or without
  =   override: true or false; true if it is left out
",
    ),
    (
        b"path(/a) -> response-code(205)",
        Kind::BadParameter,
        1,
        27,
        "1 | path(/a) -> response-code(205)
  |                           ^ this status may not be set: `205`
  = write a status of 200 to 599 other than 205
  = response-code takes
  =   value: a status from 200 to 599 other than 205
",
    ),
    (
        b"request-limit(0)",
        Kind::BadParameter,
        1,
        15,
        "1 | request-limit(0)
  |               ^ this is no number within the bounds: `0`
  = write 1 to 10 digits for a number within the bounds below
  = request-limit takes
  =   requests: a number from 1 to 65535
",
    ),
    (
        b"true(1) -> done",
        Kind::BadParameter,
        1,
        6,
        "1 | true(1) -> done
  |      ^ the call has no parameters: `1`
  = write its name alone
  = true takes nothing
",
    ),
    (
        b"path(path=/a, path=/b) -> done",
        Kind::BadParameter,
        1,
        15,
        "1 | path(path=/a, path=/b) -> done
  |               ^ this parameter is given twice: `path`
  = write it once
  = path takes
  =   path: one path or more
",
    ),
    (
        b"response-code(200, 201)",
        Kind::BadParameter,
        1,
        20,
        "1 | response-code(200, 201)
  |                    ^ the call takes one value, and this is one more: `201`
  = remove it; if it is a part of the value, quote the whole value
  = response-code takes
  =   value: a status from 200 to 599 other than 205
",
    ),
    (
        b"path(/a, {/b}) -> done",
        Kind::BadParameter,
        1,
        6,
        "1 | path(/a, {/b}) -> done
  |      ^ an array stands among several values: `/a`
  = write all texts in one array { .. }, or none of them
  = path takes
  =   path: one path or more
",
    ),
    (
        b"rewrite({a})",
        Kind::BadParameter,
        1,
        9,
        "1 | rewrite({a})
  |         ^ the parameter takes one text, and this is an array: `{`
  = write one text without { }
  = rewrite takes
  =   value: a text, with attributes or without
",
    ),
    (
        b"path({}) -> done",
        Kind::BadParameter,
        1,
        6,
        "1 | path({}) -> done
  |      ^ this array is empty: `{`
  = write one text at least
  = path takes
  =   path: one path or more
",
    ),
    (
        b"header(header=x, value=y, override=yes)",
        Kind::BadParameter,
        1,
        36,
        "1 | header(header=x, value=y, override=yes)
  |                                    ^ this is neither true nor false: `yes`
  = write true or false
  = header takes
  =   header: the name of a field
  =   value: a text, with attributes or without
  =   override: true or false; true if it is left out
",
    ),
    (
        b"allowed-methods('GET HEAD')",
        Kind::BadParameter,
        1,
        17,
        "1 | allowed-methods('GET HEAD')
  |                 ^ this is no method, since a method is a token: `GET HEAD`
  = write each method by itself, in letters, digits and ! # $ % & * + - . ^ _ | ~
  = allowed-methods takes
  =   methods: one method or more
",
    ),
    (
        b"path-template('/a{b') -> done",
        Kind::BadParameter,
        1,
        15,
        "1 | path-template('/a{b') -> done
  |               ^ a segment of this path is neither a text nor a name in braces, or a name stands twice: `/a{b`
  = write each segment as text without braces or as {name}, each once, and quote it
  = path-template takes
  =   match: a path, with {name} for a segment that is bound
  =   value: a text, with attributes or without; %R if it is left out
",
    ),
    (
        b"set(attribute='a%R', value=/)",
        Kind::BadParameter,
        1,
        15,
        "1 | set(attribute='a%R', value=/)
  |               ^ this is not one attribute: `a%R`
  = write one attribute and nothing else, as %R or %{o,name}
  = set takes
  =   attribute: one attribute that may be written
  =   value: a text, with attributes or without
",
    ),
    (
        b"redirect(/new, 301)",
        Kind::BadParameter,
        1,
        16,
        "1 | redirect(/new, 301)
  |                ^ the call takes one value, and this is one more: `301`
  = remove it; if it is a part of the value, quote the whole value
  = redirect takes
  =   value: a text, with attributes or without
",
    ),
    (
        b"set(%s, 301)",
        Kind::BadParameter,
        1,
        9,
        "1 | set(%s, 301)
  |         ^ the parameter takes one value, and this is one more: `301`
  = write each value by name: NAME = VALUE
  = set takes
  =   attribute: one attribute that may be written
  =   value: a text, with attributes or without
",
    ),
    (
        b"redirect(/new?a=b)",
        Kind::BadParameter,
        1,
        10,
        "1 | redirect(/new?a=b)
  |          ^ the call has no parameter of this name: `/new?a`
  = write one of the names below, or quote the value of which this is a part
  = redirect takes
  =   value: a text, with attributes or without
",
    ),
    (
        b"path-template('/{a}/{a}') -> done",
        Kind::BadParameter,
        1,
        15,
        "1 | path-template('/{a}/{a}') -> done
  |               ^ a segment of this path is neither a text nor a name in braces, or a name stands twice: `/{a}/{a}`
  = write each segment as text without braces or as {name}, each once, and quote it
  = path-template takes
  =   match: a path, with {name} for a segment that is bound
  =   value: a text, with attributes or without; %R if it is left out
",
    ),
];
