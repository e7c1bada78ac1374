//! Actions and values written by hand, and what each comes to.

use crate::Assign;

/// A target as a row writes it.
#[derive(Clone, Copy)]
pub(crate) enum Place<'a> {
    Path,
    Query,
    Status,
    Field(&'a [u8]),
    Name(&'a [u8]),
}

/// An action as a row writes it.
#[derive(Clone, Copy)]
pub(crate) enum Word<'a> {
    Set(Place<'a>, &'a [u8]),
    Clear(Place<'a>),
    Rewrite(&'a [u8]),
    Redirect(&'a [u8]),
    Status(u16),
    Add(&'a [u8], &'a [u8]),
    Replace(&'a [u8], &'a [u8]),
    Methods(&'a [&'a [u8]]),
    Limit(u32),
    Resource(&'a [u8], bool),
    Blocking,
    Log(u32),
    Echo,
    Restart,
    Done,
}

/// A record as a row shows it: its path and query, its status, its fields, its bindings, its listeners, and `empty` where it
/// is answered without content.
pub(crate) type Shown<'a> = &'a str;

/// The record before each action and each write.
pub(crate) const BEFORE: Shown = "/p?q 404, via: a, server: b, Via: c, who=me";

/// Actions under a GET, the effect of each, and the record behind it.
pub(crate) const EFFECTS: [(Word, &str, Shown); 30] = [
    (
        Word::Set(Place::Path, b"/x%m"),
        "go",
        "/xGET?q 404, via: a, server: b, Via: c, who=me",
    ),
    (
        Word::Set(Place::Query, b"?n=${who}"),
        "go",
        "/p?n=me 404, via: a, server: b, Via: c, who=me",
    ),
    (
        Word::Set(Place::Status, b"204"),
        "go",
        "/p?q 204, via: a, server: b, Via: c, who=me",
    ),
    (Word::Set(Place::Status, b"205"), "go", BEFORE),
    (
        Word::Set(Place::Field(b"x"), b"%R"),
        "go",
        "/p?q 404, via: a, server: b, Via: c, x: /p, who=me",
    ),
    (Word::Set(Place::Field(b"x"), b"a\nb"), "go", BEFORE),
    (
        Word::Set(Place::Name(b"who"), b"%s"),
        "go",
        "/p?q 404, via: a, server: b, Via: c, who=404",
    ),
    (
        Word::Clear(Place::Path),
        "go",
        "/?q 404, via: a, server: b, Via: c, who=me",
    ),
    (
        Word::Clear(Place::Query),
        "go",
        "/p 404, via: a, server: b, Via: c, who=me",
    ),
    (
        Word::Clear(Place::Status),
        "go",
        "/p?q 200, via: a, server: b, Via: c, who=me",
    ),
    (
        Word::Clear(Place::Field(b"VIA")),
        "go",
        "/p?q 404, server: b, who=me",
    ),
    (Word::Clear(Place::Field(b"x")), "go", BEFORE),
    (
        Word::Clear(Place::Name(b"who")),
        "go",
        "/p?q 404, via: a, server: b, Via: c",
    ),
    (Word::Clear(Place::Name(b"Who")), "go", BEFORE),
    (
        Word::Rewrite(b"a/../b?c"),
        "go",
        "/b?c 404, via: a, server: b, Via: c, who=me",
    ),
    (
        Word::Redirect(b"/a b"),
        "stop",
        "/p?q 302, via: a, server: b, Via: c, location: /a%20b, who=me, empty",
    ),
    (
        Word::Redirect(b"%R/%%41\x7F\xFF"),
        "stop",
        "/p?q 302, via: a, server: b, Via: c, location: /p/%41%7F%FF, who=me, empty",
    ),
    (
        Word::Status(410),
        "stop",
        "/p?q 410, via: a, server: b, Via: c, who=me, empty",
    ),
    (
        Word::Add(b"via", b"%s"),
        "go",
        "/p?q 404, via: a, server: b, Via: c, via: 404, who=me",
    ),
    (
        Word::Replace(b"via", b"%s"),
        "go",
        "/p?q 404, server: b, via: 404, who=me",
    ),
    (Word::Add(b"via", b"\x7F"), "go", BEFORE),
    (Word::Limit(7), "ask 7", BEFORE),
    (Word::Resource(b"/srv", true), "page /srv, listed", BEFORE),
    (Word::Resource(b"", false), "page ", BEFORE),
    (Word::Blocking, "go", BEFORE),
    (
        Word::Log(3),
        "go",
        "/p?q 404, via: a, server: b, Via: c, who=me, log 3",
    ),
    (Word::Echo, "content", BEFORE),
    (Word::Restart, "restart", BEFORE),
    (Word::Done, "default", BEFORE),
    (Word::Methods(&[b"HEAD", b"GET"]), "go", BEFORE),
];

/// Methods, those that are allowed, and what `allowed-methods` comes to.
pub(crate) const METHODS: [(&[u8], &[&[u8]], &str, Shown); 5] = [
    (b"GET", &[b"GET", b"HEAD"], "go", BEFORE),
    (b"HEAD", &[b"GET", b"HEAD"], "go", BEFORE),
    (
        b"PUT",
        &[b"GET", b"HEAD"],
        "stop",
        "/p?q 405, via: a, server: b, Via: c, allow: GET, HEAD, who=me, empty",
    ),
    (
        b"get",
        &[b"GET"],
        "stop",
        "/p?q 405, via: a, server: b, Via: c, allow: GET, who=me, empty",
    ),
    (
        b"GET",
        &[],
        "stop",
        "/p?q 405, via: a, server: b, Via: c, allow: , who=me, empty",
    ),
];

/// Actions one behind the other, and the record behind them.
pub(crate) const TURNS: [(&[Word], Shown); 4] = [
    (
        &[Word::Add(b"x", b"1"), Word::Add(b"x", b"2")],
        "/p?q 404, via: a, server: b, Via: c, x: 1, x: 2, who=me",
    ),
    (
        &[Word::Replace(b"x", b"1"), Word::Replace(b"X", b"2")],
        "/p?q 404, via: a, server: b, Via: c, X: 2, who=me",
    ),
    (
        &[
            Word::Set(Place::Name(b"a"), b"1"),
            Word::Set(Place::Name(b"A"), b"2"),
            Word::Set(Place::Name(b"a"), b"3"),
        ],
        "/p?q 404, via: a, server: b, Via: c, who=me, A=2, a=3",
    ),
    (
        &[
            Word::Log(1),
            Word::Log(0),
            Word::Clear(Place::Field(b"via")),
            Word::Clear(Place::Field(b"server")),
        ],
        "/p?q 404, who=me, log 1, log 0",
    ),
];

/// Targets, values that are written into them, what the write comes to, and the record behind it.
pub(crate) const WRITES: [(Place, &[u8], Assign, Shown); 38] = [
    // The path and its query.
    (
        Place::Path,
        b"a/../b?c",
        Assign::Assigned,
        "/b?c 404, via: a, server: b, Via: c, who=me",
    ),
    (
        Place::Path,
        b"?",
        Assign::Assigned,
        "/? 404, via: a, server: b, Via: c, who=me",
    ),
    (
        Place::Path,
        b"",
        Assign::Assigned,
        "/?q 404, via: a, server: b, Via: c, who=me",
    ),
    (
        Place::Path,
        b"/a//b/./c/..",
        Assign::Assigned,
        "/a//b/?q 404, via: a, server: b, Via: c, who=me",
    ),
    (
        Place::Path,
        b"../x?a?b/../c",
        Assign::Assigned,
        "/x?a?b/../c 404, via: a, server: b, Via: c, who=me",
    ),
    (
        Place::Path,
        b"/%2e%2e\x7F",
        Assign::Assigned,
        "/%2e%2e\x7F?q 404, via: a, server: b, Via: c, who=me",
    ),
    // The query.
    (
        Place::Query,
        b"?",
        Assign::Assigned,
        "/p? 404, via: a, server: b, Via: c, who=me",
    ),
    (
        Place::Query,
        b"",
        Assign::Assigned,
        "/p 404, via: a, server: b, Via: c, who=me",
    ),
    (
        Place::Query,
        b"?a",
        Assign::Assigned,
        "/p?a 404, via: a, server: b, Via: c, who=me",
    ),
    (
        Place::Query,
        b"a?",
        Assign::Assigned,
        "/p?a? 404, via: a, server: b, Via: c, who=me",
    ),
    (
        Place::Query,
        b"??",
        Assign::Assigned,
        "/p?? 404, via: a, server: b, Via: c, who=me",
    ),
    // The status.
    (
        Place::Status,
        b"204",
        Assign::Assigned,
        "/p?q 204, via: a, server: b, Via: c, who=me",
    ),
    (
        Place::Status,
        b"200",
        Assign::Assigned,
        "/p?q 200, via: a, server: b, Via: c, who=me",
    ),
    (
        Place::Status,
        b"599",
        Assign::Assigned,
        "/p?q 599, via: a, server: b, Via: c, who=me",
    ),
    (Place::Status, b"205", Assign::BadValue, BEFORE),
    (Place::Status, b"099", Assign::BadValue, BEFORE),
    (Place::Status, b"199", Assign::BadValue, BEFORE),
    (Place::Status, b"600", Assign::BadValue, BEFORE),
    (Place::Status, b"999", Assign::BadValue, BEFORE),
    (Place::Status, b"20", Assign::BadValue, BEFORE),
    (Place::Status, b"0204", Assign::BadValue, BEFORE),
    (Place::Status, b"+20", Assign::BadValue, BEFORE),
    (Place::Status, b" 200", Assign::BadValue, BEFORE),
    (Place::Status, b"200 ", Assign::BadValue, BEFORE),
    (Place::Status, b"20:", Assign::BadValue, BEFORE),
    (Place::Status, b"/00", Assign::BadValue, BEFORE),
    (Place::Status, b"", Assign::BadValue, BEFORE),
    // A response field.
    (
        Place::Field(b"x"),
        b" ~\t\xC2\x80",
        Assign::Assigned,
        "/p?q 404, via: a, server: b, Via: c, x:  ~\t\u{80}, who=me",
    ),
    (
        Place::Field(b"x"),
        b"",
        Assign::Assigned,
        "/p?q 404, via: a, server: b, Via: c, x: , who=me",
    ),
    (
        Place::Field(b"VIA"),
        b"d",
        Assign::Assigned,
        "/p?q 404, server: b, VIA: d, who=me",
    ),
    (Place::Field(b"x"), b"a\nb", Assign::BadValue, BEFORE),
    (Place::Field(b"x"), b"\r", Assign::BadValue, BEFORE),
    (Place::Field(b"x"), b"a\x7F", Assign::BadValue, BEFORE),
    (Place::Field(b"x"), b"\0", Assign::BadValue, BEFORE),
    (Place::Field(b"x"), b"\x1F", Assign::BadValue, BEFORE),
    (
        Place::Field(b"x"),
        b"a value of more than thirty-two bytes\x08",
        Assign::BadValue,
        BEFORE,
    ),
    // The context.
    (
        Place::Name(b"who"),
        b"\n\0",
        Assign::Assigned,
        "/p?q 404, via: a, server: b, Via: c, who=\n\0",
    ),
    (
        Place::Name(b"Who"),
        b"",
        Assign::Assigned,
        "/p?q 404, via: a, server: b, Via: c, who=me, Who=",
    ),
];

/// Actions, and how many fields a record has behind them that had 256 before, of which two have the name `via`.
pub(crate) const CROWDED: [(Word, usize); 8] = [
    (Word::Set(Place::Field(b"y"), b""), 256),
    (Word::Set(Place::Field(b"x7"), b""), 256),
    (Word::Set(Place::Field(b"VIA"), b""), 255),
    (Word::Add(b"y", b""), 256),
    (Word::Add(b"x7", b""), 256),
    (Word::Replace(b"y", b""), 256),
    (Word::Redirect(b"/"), 257),
    (Word::Methods(&[b"PUT"]), 257),
];
