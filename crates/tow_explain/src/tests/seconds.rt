//! Further texts with a fault, so that each kind is told of two of them in whole.

use super::telling::Row;
use tow_language::Kind;

pub(crate) const SECONDS: &[Row] = &[
    (
        b"path(/a) -> redirect(\"/b)\ndone",
        Kind::UnclosedQuote,
        1,
        22,
        "1 | path(/a) -> redirect(\"/b)
  |                      ^ this quote is opened here and not closed
  = write the same quote where the value ends, or close one before it; in a value put a backslash before it
",
    ),
    (
        b"rewrite(/a${id)\ndone",
        Kind::UnclosedBrace,
        1,
        11,
        "1 | rewrite(/a${id)
  |           ^ this brace is opened here and not closed before the line ends
  = write } after the name of the attribute
",
    ),
    (
        b"not not not not not not not not not not not not not not not not not not not not not not not not not not not not not not not not not true -> done",
        Kind::TooDeep,
        1,
        129,
        "1 | ...not not not not not not not not not not not not not not not not true -> done
  |                                                                ^ this opens level 33
  = at most 32 blocks, parentheses, not and else are open at once: split the statement
",
    ),
    (
        b"request-limit(1)\nrequest-limit(1)\nrequest-limit(1)\nrequest-limit(1)\nrequest-limit(1)\nrequest-limit(1)\nrequest-limit(1)\nrequest-limit(1)\nrequest-limit(1)\nrequest-limit(1)\nrequest-limit(1)\nrequest-limit(1)\nrequest-limit(1)\nrequest-limit(1)\nrequest-limit(1)\nrequest-limit(1)\nrequest-limit(1)\n",
        Kind::TooManyLimits,
        17,
        1,
        "17 | request-limit(1)
   | ^ this is the 17th request-limit
   = a text has at most 16: remove one, or let several places use one block
",
    ),
    (
        b"request-limit(1); request-limit(1); request-limit(1); request-limit(1); request-limit(1); request-limit(1); request-limit(1); request-limit(1); request-limit(1); request-limit(1); request-limit(1); request-limit(1); request-limit(1); request-limit(1); request-limit(1); request-limit(1); request-limit(1); ",
        Kind::TooManyLimits,
        1,
        289,
        "1 | ...t(1); request-limit(1); request-limit(1); request-limit(1); request-limit(1); 
  |                                                                ^ this is the 17th request-limit
  = a text has at most 16: remove one, or let several places use one block
",
    ),
    (
        b"done\nregex(pattern='^/[a-', value='%U') -> done",
        Kind::BadPattern,
        2,
        15,
        "2 | regex(pattern='^/[a-', value='%U') -> done
  |               ^ this is no pattern of regex: `unclosed character class, at byte 3 of it`
  = mend it at that byte; a backslash makes a byte stand for itself; no look-around or back-reference is known
",
    ),
    (
        b"path(/a) -> done\nregex(pattern='(.{1000}){100}', value='%q') -> done",
        Kind::LargePattern,
        2,
        15,
        "2 | regex(pattern='(.{1000}){100}', value='%q') -> done
  |               ^ the program of this pattern is larger than 10 MiB: `(.{1000}){100}`
  = write smaller counts in { }
",
    ),
    (
        b"path(/a) -> deny",
        Kind::UnknownName,
        1,
        13,
        "1 | path(/a) -> deny
  |             ^ no handler has this name: `deny`
  = write a handler: set, clear, rewrite, redirect, response-code, header, allowed-methods, request-limit, resource, blocking, access-log or echo
",
    ),
    (
        b"rewrite('/100%')",
        Kind::BadAttribute,
        1,
        9,
        "1 | rewrite('/100%')
  |         ^ this is no attribute: `%`
  = write %% for a percent sign, or an attribute: %m %U %R %q %s %r %H %a %h %l %u %t %B %b %{i,name} %{o,name} %{q,name} %{c,name} ${name}
",
    ),
    (
        b"regex('(?!admin)') -> done",
        Kind::BadPattern,
        1,
        7,
        "1 | regex('(?!admin)') -> done
  |       ^ this is no pattern of regex: `look-around, including look-ahead and look-behind, is not supported, at byte 1 of it`
  = mend it at that byte; a backslash makes a byte stand for itself; no look-around or back-reference is known
",
    ),
];
