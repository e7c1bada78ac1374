use crate::{Attribute, Piece, TemplateFault, read_template};
use std::alloc::Global;

/// What a piece is, by a letter, and its bytes or its name: `=` for bytes, `$` for a value of the context.
type Shown<'a> = (u8, &'a [u8]);

fn shown_value(attribute: &Attribute) -> Shown {
    match attribute {
        Attribute::Method => (b'm', b""),
        Attribute::RequestUrl => (b'U', b""),
        Attribute::RelativePath => (b'R', b""),
        Attribute::Query => (b'Q', b""),
        Attribute::Status => (b's', b""),
        Attribute::RequestLine => (b'r', b""),
        Attribute::Protocol => (b'H', b""),
        Attribute::RemoteIp => (b'a', b""),
        Attribute::RemoteHost => (b'h', b""),
        Attribute::Ident => (b'l', b""),
        Attribute::User => (b'u', b""),
        Attribute::Moment => (b't', b""),
        Attribute::Sent => (b'B', b""),
        Attribute::SentOrDash => (b'b', b""),
        Attribute::RequestField(name) => (b'i', name.as_slice()),
        Attribute::ResponseField(name) => (b'o', name.as_slice()),
        Attribute::Param(name) => (b'q', name.as_slice()),
        Attribute::Cookie(name) => (b'c', name.as_slice()),
        Attribute::Context(name) => (b'$', name.as_slice()),
    }
}

fn is_shown(piece: &Piece, wanted: &Shown) -> bool {
    let (kind, bytes) = match piece {
        Piece::Literal(bytes) => (b'=', bytes.as_slice()),
        Piece::Value(attribute) => shown_value(attribute),
    };
    kind == wanted.0 && bytes == wanted.1
}

fn is_read(alloc: Global, text: &[u8], wanted: &[Shown]) -> bool {
    match read_template(alloc, text) {
        Ok(template) => template.len() == wanted.len()
            && template
                .as_slice()
                .iter()
                .zip(wanted)
                .all(|(p, w)| is_shown(p, w)),
        Err(_) => false,
    }
}

fn is_refused(alloc: Global, text: &[u8], place: usize) -> bool {
    match read_template(alloc, text) {
        Ok(_) => false,
        Err(fault) => fault == TemplateFault::BadAttribute(place),
    }
}

#[test]
fn reads_each_attribute(rt: HostRuntime) {
    let alloc = rt.alloc();
    let rows: [(&[u8], u8); 26] = [
        (b"%m", b'm'),
        (b"%U", b'U'),
        (b"%R", b'R'),
        (b"%q", b'Q'),
        (b"%s", b's'),
        (b"%r", b'r'),
        (b"%H", b'H'),
        (b"%a", b'a'),
        (b"%h", b'h'),
        (b"%l", b'l'),
        (b"%u", b'u'),
        (b"%t", b't'),
        (b"%B", b'B'),
        (b"%b", b'b'),
        (b"%{METHOD}", b'm'),
        (b"%{REQUEST_URL}", b'U'),
        (b"%{RELATIVE_PATH}", b'R'),
        (b"%{QUERY_STRING}", b'Q'),
        (b"%{RESPONSE_CODE}", b's'),
        (b"%{REQUEST_LINE}", b'r'),
        (b"%{PROTOCOL}", b'H'),
        (b"%{REMOTE_IP}", b'a'),
        (b"%{REMOTE_HOST}", b'h'),
        (b"%{REMOTE_USER}", b'u'),
        (b"%{DATE_TIME}", b't'),
        (b"%{BYTES_SENT}", b'B'),
    ];
    for (i, (text, kind)) in rows.iter().enumerate() {
        assert!(rt; is_read(alloc, text, &[(*kind, b"")]), "row {i}");
    }
}

#[test]
fn reads_names_and_bytes(rt: HostRuntime) {
    let alloc = rt.alloc();
    let rows: [(&[u8], &[Shown]); 14] = [
        (b"", &[]),
        (b"abc", &[(b'=', b"abc")]),
        (b"%%", &[(b'=', b"%")]),
        (b"a%%%%b", &[(b'=', b"a%%b")]),
        (b"1$ {a}$", &[(b'=', b"1$ {a}$")]),
        (b"$%%{", &[(b'=', b"$%{")]),
        (b"%{i,User-Agent}", &[(b'i', b"user-agent")]),
        (b"%{o,X-A}", &[(b'o', b"x-a")]),
        (b"%{q,A b}", &[(b'q', b"A b")]),
        (b"%{q,a,b}", &[(b'q', b"a,b")]),
        (b"%{c,Id}", &[(b'c', b"Id")]),
        (b"${A,b}", &[(b'$', b"A,b")]),
        (b"%m%m", &[(b'm', b""), (b'm', b"")]),
        (
            b"x%R?%%%{i,a}y",
            &[
                (b'=', b"x"),
                (b'R', b""),
                (b'=', b"?%"),
                (b'i', b"a"),
                (b'=', b"y"),
            ],
        ),
    ];
    for (i, (text, wanted)) in rows.iter().enumerate() {
        assert!(rt; is_read(alloc, text, wanted), "row {i}");
    }
}

#[test]
fn names_the_place(rt: HostRuntime) {
    let alloc = rt.alloc();
    let rows: [(&[u8], usize); 20] = [
        (b"%", 0),
        (b"a%", 1),
        (b"%x", 0),
        (b"a% b", 1),
        (b"%%%", 2),
        (b"%{METHOD", 0),
        (b"a%{", 1),
        (b"%{}", 0),
        (b"%{method}", 0),
        (b"%{METHOD }", 0),
        (b"%{i,}", 0),
        (b"%{i,a b}", 0),
        (b"%{o,a:b}", 0),
        (b"%{x,a}", 0),
        (b"%{q,}", 0),
        (b"%{c,}", 0),
        (b"${}", 0),
        (b"${a", 0),
        (b"a%m${b", 3),
        (b"%m%{x}%y", 2),
    ];
    for (i, (text, place)) in rows.iter().enumerate() {
        assert!(rt; is_refused(alloc, text, *place), "row {i}");
    }
}
