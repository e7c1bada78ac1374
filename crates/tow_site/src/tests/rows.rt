//! Texts with each action and each wait, what an exchange under them needs in turn, and what its record is then.

use tow_model::{Listener, Verdict};

/// What an exchange needs, with what it is given then.
#[derive(Clone, Copy)]
pub enum Need {
    /// Nothing: its answer is decided.
    Stop,
    /// The verdict of the limit of this number.
    Limit(u32, Verdict),
    Content(Sent),
    /// A page after this location, with a listing or without.
    Page(&'static [u8], bool, Looked),
    /// A worker, if a loop has it.
    Worker,
}

/// The content of a request.
#[derive(Clone, Copy)]
pub enum Sent {
    Whole(&'static [u8]),
    Bad,
    TooLong,
}

/// What a look into the folder came to.
#[derive(Clone, Copy)]
pub enum Looked {
    /// A file, by its path and its length, of second 0.
    File(&'static [u8], u64),
    Moved(&'static [u8]),
    Listing(&'static [u8]),
    Forbidden,
    /// A file of second 0.
    NotModified,
    NotFound,
    BadMethod,
}

/// The content of an answer.
#[derive(Clone, Copy)]
pub enum Chosen {
    Empty,
    Whole(&'static [u8]),
    File(&'static [u8], u64),
    Listing(&'static [u8]),
}

/// The status, the fields, the content and the listeners of an exchange at its end.
pub type End = (
    u16,
    &'static [(&'static [u8], &'static [u8])],
    Chosen,
    &'static [Listener],
);

/// A text; the method and the path of a request; what its exchange needs in turn, if a loop has it but for what it hands
/// on; and how it ends.
pub type Row = (
    &'static [u8],
    &'static [u8],
    &'static [u8],
    &'static [Need],
    End,
);

const ADMITTED: Need = Need::Limit(0, Verdict::Admitted);

const REFUSED: Need = Need::Limit(0, Verdict::Refused);

const NOWHERE: Need = Need::Page(b"", false, Looked::NotFound);

const STOP: &[Need] = &[Need::Stop];

/// What is looked for by default, and is not there.
const BY_DEFAULT: &[Need] = &[Need::Worker, NOWHERE, Need::Stop];

const CODE_201: End = (201, &[], Chosen::Empty, &[]);

const CODE_204: End = (204, &[], Chosen::Empty, &[]);

const CODE_400: End = (400, &[], Chosen::Empty, &[]);

const CODE_404: End = (404, &[], Chosen::Empty, &[]);

const CODE_410: End = (410, &[], Chosen::Empty, &[]);

const CODE_413: End = (413, &[], Chosen::Empty, &[]);

const CODE_500: End = (500, &[], Chosen::Empty, &[]);

/// A path that becomes another one, under which the text begins again.
const CSS: &[u8] = b"regex('(.*)\\.css') -> { rewrite('${1}.txt'); restart }";

/// Texts with each action and each wait.
pub const ROWS: &[Row] = &[
    // a limit that is asked again after a restart
    (
        b"request-limit(1)\nrestart",
        b"GET",
        b"/",
        &[ADMITTED, REFUSED, Need::Stop],
        (503, &[], Chosen::Empty, &[Listener::Leave(0)]),
    ),
    // 17 passes at most
    (
        b"request-limit(20); restart",
        b"GET",
        b"/",
        &[
            ADMITTED,
            ADMITTED,
            ADMITTED,
            ADMITTED,
            ADMITTED,
            ADMITTED,
            ADMITTED,
            ADMITTED,
            ADMITTED,
            ADMITTED,
            ADMITTED,
            ADMITTED,
            ADMITTED,
            ADMITTED,
            ADMITTED,
            ADMITTED,
            ADMITTED,
            Need::Stop,
        ],
        (500, &[], Chosen::Empty, &[Listener::Leave(0); 17]),
    ),
    (b"restart", b"GET", b"/", STOP, CODE_500),
    // a restart clears what was bound
    (
        b"exists('${a}') -> response-code(410); path-template('/{a}') -> restart",
        b"GET",
        b"/x",
        STOP,
        CODE_500,
    ),
    // a path that is rewritten before the text begins again
    (
        CSS,
        b"GET",
        b"/a.css",
        &[
            Need::Worker,
            Need::Page(b"", false, Looked::File(b"/a.txt", 2)),
            Need::Stop,
        ],
        (
            200,
            &[
                (b"content-type", b"text/plain; charset=utf-8"),
                (b"last-modified", b"Thu, 01 Jan 1970 00:00:00 GMT"),
            ],
            Chosen::File(b"/a.txt", 2),
            &[],
        ),
    ),
    (CSS, b"GET", b"/a.css", BY_DEFAULT, CODE_404),
    // content
    (
        b"path('/e') -> echo",
        b"POST",
        b"/e",
        &[Need::Content(Sent::Whole(b"abc")), Need::Stop],
        (200, &[], Chosen::Whole(b"abc"), &[]),
    ),
    (
        b"path('/e') -> echo",
        b"POST",
        b"/e",
        &[Need::Content(Sent::Bad), Need::Stop],
        CODE_400,
    ),
    (
        b"path('/e') -> echo",
        b"POST",
        b"/e",
        &[Need::Content(Sent::TooLong), Need::Stop],
        CODE_413,
    ),
    (
        b"blocking; echo; response-code(204)",
        b"POST",
        b"/e",
        &[Need::Worker, Need::Content(Sent::Whole(b"")), Need::Stop],
        (200, &[], Chosen::Whole(b""), &[]),
    ),
    // listeners in the order in which they are added
    (
        b"access-log('a %s'); access-log('b %s'); response-code(204)",
        b"GET",
        b"/",
        STOP,
        (
            204,
            &[],
            Chosen::Empty,
            &[Listener::Log(0), Listener::Log(1)],
        ),
    ),
    (
        b"access-log(a); request-limit(1); access-log(b); resource(/d)",
        b"GET",
        b"/a",
        &[
            ADMITTED,
            Need::Worker,
            Need::Page(b"/d", false, Looked::Forbidden),
            Need::Stop,
        ],
        (
            403,
            &[],
            Chosen::Empty,
            &[Listener::Log(0), Listener::Leave(0), Listener::Log(1)],
        ),
    ),
    (
        b"request-limit(2); request-limit(1); echo",
        b"GET",
        b"/",
        &[ADMITTED, Need::Limit(1, Verdict::Refused), Need::Stop],
        (503, &[], Chosen::Empty, &[Listener::Leave(0)]),
    ),
    // a blocking that was passed stays passed
    (
        b"blocking; request-limit(1); restart",
        b"GET",
        b"/",
        &[Need::Worker, ADMITTED, Need::Worker, REFUSED, Need::Stop],
        (503, &[], Chosen::Empty, &[Listener::Leave(0)]),
    ),
    (
        b"path(/b) -> blocking; response-code(204)",
        b"GET",
        b"/a",
        STOP,
        CODE_204,
    ),
    (
        b"path(/a) -> { blocking; done }; echo",
        b"GET",
        b"/a",
        &[Need::Worker, NOWHERE, Need::Worker, Need::Stop],
        CODE_404,
    ),
    // a path that changes between rows
    (
        b"path(/a) -> rewrite(/b); path(/b) -> response-code(204); path(/a) -> response-code(410)",
        b"GET",
        b"/a",
        STOP,
        CODE_204,
    ),
    // what follows the longest prefix
    (
        b"path-prefix(/foo, /foo/bar) -> rewrite('${remaining}'); path(/x) -> response-code(204)",
        b"GET",
        b"/foo/bar/x",
        STOP,
        CODE_204,
    ),
    (
        b"path(/b) -> response-code(410) else path(/c) -> echo else { false -> done; response-code(201) }",
        b"GET",
        b"/a",
        STOP,
        CODE_201,
    ),
    // what actions write
    (
        b"header(header=x, value=1); header(header=x, value=2, override=false); set(attribute='%{o,y}', value='%R'); clear('%{o,x}'); response-code(204)",
        b"GET",
        b"/a",
        STOP,
        (204, &[(b"y", b"/a")], Chosen::Empty, &[]),
    ),
    (
        b"set(attribute='%s', value=201); header(header=x, value=1); header(header=x, value=2, override=false); redirect('%R c')",
        b"GET",
        b"/b",
        STOP,
        (
            302,
            &[(b"x", b"1"), (b"x", b"2"), (b"location", b"/b%20c")],
            Chosen::Empty,
            &[],
        ),
    ),
    (
        b"allowed-methods(GET, PUT); allowed-methods(PUT)",
        b"GET",
        b"/a",
        STOP,
        (405, &[(b"allow", b"PUT")], Chosen::Empty, &[]),
    ),
    // what a look into the folder comes to
    (
        b"{ path(/a) -> { done; echo } }; response-code(410)",
        b"GET",
        b"/a",
        BY_DEFAULT,
        CODE_404,
    ),
    (
        b"done",
        b"POST",
        b"/a",
        &[
            Need::Worker,
            Need::Page(b"", false, Looked::BadMethod),
            Need::Stop,
        ],
        (405, &[(b"allow", b"GET, HEAD")], Chosen::Empty, &[]),
    ),
    (
        b"resource(/d); resource(location=/e/, allow-listing=true)",
        b"GET",
        b"/a",
        &[
            Need::Worker,
            Need::Page(b"/d", false, Looked::NotFound),
            Need::Worker,
            Need::Page(b"/e", true, Looked::Listing(b"<ul>")),
            Need::Stop,
        ],
        (
            200,
            &[(b"content-type", b"text/html; charset=utf-8")],
            Chosen::Listing(b"<ul>"),
            &[],
        ),
    ),
    (
        b"resource(/d)",
        b"GET",
        b"/a",
        &[
            Need::Worker,
            Need::Page(b"/d", false, Looked::Moved(b"/a/")),
            Need::Stop,
        ],
        (302, &[(b"location", b"/a/")], Chosen::Empty, &[]),
    ),
    (
        b"resource(/d)",
        b"GET",
        b"/a",
        &[
            Need::Worker,
            Need::Page(b"/d", false, Looked::NotModified),
            Need::Stop,
        ],
        (
            304,
            &[(b"last-modified", b"Thu, 01 Jan 1970 00:00:00 GMT")],
            Chosen::Empty,
            &[],
        ),
    ),
    (
        b"resource(/); resource(/d); response-code(410)",
        b"GET",
        b"/a",
        &[
            Need::Worker,
            NOWHERE,
            Need::Worker,
            Need::Page(b"/d", false, Looked::NotFound),
            Need::Stop,
        ],
        CODE_410,
    ),
];

/// Rows of the text of many paths.
pub const MANY: &[Row] = &[
    (b"", b"GET", b"/a0", STOP, CODE_204),
    (b"", b"GET", b"/a7", STOP, CODE_204),
    (b"", b"GET", b"/a999", STOP, CODE_204),
    (b"", b"GET", b"/a7/b", STOP, CODE_410),
    (b"", b"GET", b"/a1000", BY_DEFAULT, CODE_404),
];
