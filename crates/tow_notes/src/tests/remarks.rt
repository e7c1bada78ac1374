//! Texts without a fault, and what is noted on them.

/// A text, and what is noted on it.
pub(crate) type Noted = (&'static [u8], &'static str);

pub(crate) const REMARKS: &[Noted] = &[
    (
        b"done\nresponse-code(204)",
        "note: 2:1: a statement before this one always stops, so it is never reached: `response-code`\n",
    ),
    (
        b"response-code(204); header(header=x-a, value=1); done",
        "note: 1:21: a statement before this one always stops, so it is never reached: `header`\n",
    ),
    (
        b"path(/a) -> { header(header=x-a, value=1); redirect('/b')\n  clear(%q) }",
        "note: 2:3: a statement before this one always stops, so it is never reached: `clear`\n",
    ),
    (
        b"{ path(/a) -> done else { restart } }\npath(/b) -> done",
        "note: 2:1: a statement before this one always stops, so it is never reached: `path`\n",
    ),
    (
        b"{ echo } { done }",
        "note: 1:10: a statement before this one always stops, so it is never reached: `{`\n",
    ),
    (
        b"done\nredirect('/x')",
        "note: 2:1: a statement before this one always stops, so it is never reached: `redirect`\n",
    ),
    (
        b"path(/a) -> restart else -> done\n(path(/b)) -> done",
        "note: 2:1: a statement before this one always stops, so it is never reached: `(`\n",
    ),
    (
        b"path-prefix(/old) -> rewrite('/new${remaning}')",
        "note: 1:30: nothing in the text binds this name, so it is always empty: `${remaning}`\n",
    ),
    (
        b"exists(${1}) -> header(header=x-a, value='%R${id}')",
        "note: 1:8: nothing in the text binds this name, so it is always empty: `${1}`\nnote: 1:42: nothing in the text binds this name, so it is always empty: `${id}`\n",
    ),
    (
        b"regex('^/(.*)$') -> rewrite('/${2}${01}${1}')",
        "note: 1:29: nothing in the text binds this name, so it is always empty: `${2}`\nnote: 1:29: nothing in the text binds this name, so it is always empty: `${01}`\n",
    ),
    (
        b"clear(${who})\nequals('%q', ${remaining}) -> done",
        "note: 1:7: nothing in the text binds this name, so it is always empty: `${who}`\nnote: 2:14: nothing in the text binds this name, so it is always empty: `${remaining}`\n",
    ),
    (
        b"method(get) -> done",
        "note: 1:8: methods have capital letters, so no request has this one: `get`\n",
    ),
    (
        b"allowed-methods(GET, Head)",
        "note: 1:22: methods have capital letters, so no request has this one: `Head`\n",
    ),
    (
        b"method('GET, HEAD') -> done",
        "note: 1:8: this is no method, so no request has it; write each one by itself: `GET, HEAD`\n",
    ),
    (
        b"not method(value={'', GET}) -> done",
        "note: 1:19: this is no method, so no request has it; write each one by itself: ``\n",
    ),
    (b"done\n", ""),
    (
        b"path({/b, '/a/*'}) -> done",
        "note: 1:11: no path is a pattern, and * stands for itself: `/a/*`\n",
    ),
    (
        b"path-prefix(/*/b) -> done",
        "note: 1:13: no path is a pattern, and * stands for itself: `/*/b`\n",
    ),
    (
        b"path-prefix(path='/a%20b') -> done",
        "note: 1:18: paths are compared decoded, so write the byte itself: `/a%20b`\n",
    ),
    (
        b"path('/a%2Fb', /c) -> done",
        "note: 1:6: paths are compared decoded, so write the byte itself: `/a%2Fb`\n",
    ),
    (
        b"path-suffix('%20.txt') -> done",
        "note: 1:13: paths are compared decoded, so write the byte itself: `%20.txt`\n",
    ),
    (
        b"path-template('/a%20b/{id}') -> done",
        "note: 1:15: paths are compared decoded, so write the byte itself: `/a%20b/{id}`\n",
    ),
    (
        b"regex(pattern='^/a%20b', value='%R') -> done",
        "note: 1:15: paths are compared decoded, so write the byte itself: `^/a%20b`\n",
    ),
    (
        b"contains(search={'%00', a}, value='%R') -> done",
        "note: 1:18: paths are compared decoded, so write the byte itself: `%00`\n",
    ),
    (
        b"access-log(Combined)",
        "note: 1:12: this format has no attribute, so each line is this text: `Combined`\n",
    ),
    (
        b"access-log(format='apache')",
        "note: 1:19: this format has no attribute, so each line is this text: `apache`\n",
    ),
    (
        b"exists($uri) -> done",
        "note: 1:8: this has no attribute, so it is the same for every request: `$uri`\n",
    ),
    (
        b"exists(value='host') -> done",
        "note: 1:14: this has no attribute, so it is the same for every request: `host`\n",
    ),
    (
        b"equals(host, 'example.org') -> done",
        "note: 1:1: no value here has an attribute, so it is the same for every request: `equals`\n",
    ),
    (
        b"not (equals(value={a, b})) -> done",
        "note: 1:6: no value here has an attribute, so it is the same for every request: `equals`\n",
    ),
    (
        b"equals('%{i,Host}') -> done",
        "note: 1:1: one value is equal to itself, so this always holds: `equals`\n",
    ),
    (
        b"equals(value={'a'}) -> done",
        "note: 1:1: one value is equal to itself, so this always holds: `equals`\n",
    ),
    (
        b"redirect('https://example.org%R%q')",
        "note: 1:10: this is decoded, so the address may be another one; write %U: `%R`\n",
    ),
    (
        b"path(/a) -> done else path-prefix(/b) -> redirect('%{RELATIVE_PATH}')",
        "note: 1:51: this is decoded, so the address may be another one; write %U: `%R`\n",
    ),
    (
        b"not path(/a) -> { redirect('/b%R') }",
        "note: 1:28: this is decoded, so the address may be another one; write %U: `%R`\n",
    ),
    (
        b"path('/50%') -> redirect('/b%R')",
        "note: 1:26: this is decoded, so the address may be another one; write %U: `%R`\n",
    ),
    (
        b"{ header(value='/new%R%q', header=Location); response-code(301) }",
        "note: 1:16: this is decoded, so the address may be another one; write %U: `%R`\n",
    ),
    (
        b"path-prefix(/old) -> redirect('${remaining}')",
        "note: 1:31: this is decoded, and //host in it leads away; write a host or path before a group of a regex over %U: `${remaining}`\n",
    ),
    (
        b"path(/a) and path-prefix(/a) -> redirect('/new${remaining}')",
        "note: 1:42: this is decoded, and //host in it leads away; write a host or path before a group of a regex over %U: `${remaining}`\n",
    ),
    (
        b"resource(location=/site)",
        "note: 1:19: what is not found there is looked for in the whole folder; write response-code(404) after it: `/site`\n",
    ),
    (
        b"path-prefix(/a) -> { resource(/a); done }\nresponse-code(404)",
        "note: 1:31: what is not found there is looked for in the whole folder; write response-code(404) after it: `/a`\n",
    ),
    (
        b"path-prefix(/a) -> { resource(/a) } else { resource(/b); response-code(404) }\npath(/c) -> response-code(410)",
        "note: 1:31: what is not found there is looked for in the whole folder; write response-code(404) after it: `/a`\n",
    ),
];
