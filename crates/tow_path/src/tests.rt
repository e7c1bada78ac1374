//! Paths, targets, prefixes and templates written by hand, and what is read of them.

use crate::{
    Bind, Bytes, Field, List, Segment, Target3986, has_form, is_prefix, read_target, resolve,
    template_bind,
};
use std::alloc::{AllocError, Global};
use std::process::Abort;
use std::test::Fail;

fn is_resolved(alloc: Global, path: &[u8], wanted: &[u8]) -> bool {
    match resolve(alloc, path) {
        Ok(found) => found.as_slice() == wanted,
        Err(_) => false,
    }
}

/// Paths, and what they are without dot segments. Those with `/b/c/` are the examples of RFC 3986, section 5.4.
const RESOLVED: [(&[u8], &[u8]); 40] = [
    (b"", b""),
    (b"/", b"/"),
    (b"//", b"//"),
    (b"/a", b"/a"),
    (b"/a/b/c/./../../g", b"/a/g"),
    (b"mid/content=5/../6", b"mid/6"),
    (b"/b/c/g", b"/b/c/g"),
    (b"/b/c/g/", b"/b/c/g/"),
    (b"/b/c/.", b"/b/c/"),
    (b"/b/c/./", b"/b/c/"),
    (b"/b/c/..", b"/b/"),
    (b"/b/c/../", b"/b/"),
    (b"/b/c/../g", b"/b/g"),
    (b"/b/c/../..", b"/"),
    (b"/b/c/../../", b"/"),
    (b"/b/c/../../g", b"/g"),
    (b"/b/c/../../../g", b"/g"),
    (b"/b/c/../../../../g", b"/g"),
    (b"/./g", b"/g"),
    (b"/../g", b"/g"),
    (b"/b/c/g.", b"/b/c/g."),
    (b"/b/c/.g", b"/b/c/.g"),
    (b"/b/c/g..", b"/b/c/g.."),
    (b"/b/c/..g", b"/b/c/..g"),
    (b"/b/c/./../g", b"/b/g"),
    (b"/b/c/./g/.", b"/b/c/g/"),
    (b"/b/c/g/./h", b"/b/c/g/h"),
    (b"/b/c/g/../h", b"/b/c/h"),
    (b"/...", b"/..."),
    (b"/a//../b", b"/a/b"),
    (b"/a//b", b"/a//b"),
    (b"//..", b"/"),
    (b"/..//a", b"//a"),
    (b"/a/%2e%2e", b"/a/%2e%2e"),
    (b".", b""),
    (b"..", b""),
    (b"a/..", b""),
    (b"../a", b"a"),
    (b"a/../../b", b"b"),
    (b"a/./", b"a/"),
];

#[test]
fn resolves_dot_segments(rt: HostRuntime) {
    let alloc = rt.alloc();
    for (i, (path, wanted)) in RESOLVED.iter().enumerate() {
        assert!(rt; is_resolved(alloc, path, wanted), "row {i}");
    }
}

/// A url, a path and a query.
type Parts<'a> = (&'a [u8], &'a [u8], Option<&'a [u8]>);

fn is_query(query: &Option<Bytes>, wanted: Option<&[u8]>) -> bool {
    match (query, wanted) {
        (Some(query), Some(wanted)) => query.as_slice() == wanted,
        (None, None) => true,
        _ => false,
    }
}

fn is_read(alloc: Global, target: &[u8], wanted: Parts<'_>) -> bool {
    match read_target(alloc, b"GET", target) {
        Target3986::Parts { url, path, query } => {
            has_form(b"GET", target)
                && url.as_slice() == wanted.0
                && path.as_slice() == wanted.1
                && is_query(&query, wanted.2)
        }
        Target3986::Bad | Target3986::NoMemory => false,
    }
}

fn is_bad(alloc: Global, method: &[u8], target: &[u8]) -> bool {
    !has_form(method, target) && matches!(read_target(alloc, method, target), Target3986::Bad)
}

/// Targets of GET and their parts.
const TARGETS: [(&[u8], Parts<'static>); 29] = [
    (b"/", (b"/", b"/", None)),
    (b"/a/b?x=1", (b"/a/b", b"/a/b", Some(b"x=1"))),
    (b"/a?b?c", (b"/a", b"/a", Some(b"b?c"))),
    (b"/a?", (b"/a", b"/a", Some(b""))),
    (b"/a?x=/../y", (b"/a", b"/a", Some(b"x=/../y"))),
    (b"/a/../b", (b"/a/../b", b"/b", None)),
    (b"/../a", (b"/../a", b"/a", None)),
    (b"//a//b/", (b"//a//b/", b"//a//b/", None)),
    (b"/%61", (b"/%61", b"/a", None)),
    (b"/%2e%2e/a", (b"/%2e%2e/a", b"/a", None)),
    (b"/a/%2E%2e", (b"/a/%2E%2e", b"/", None)),
    (b"/a/.%2e/b", (b"/a/.%2e/b", b"/b", None)),
    (b"/a%2Fb", (b"/a%2Fb", b"/a/b", None)),
    (b"/a%2f..%2fb?x=1", (b"/a%2f..%2fb", b"/b", Some(b"x=1"))),
    (b"http://h/a#b", (b"/a#b", b"/a#b", None)),
    (b"/a+b", (b"/a+b", b"/a+b", None)),
    (b"/%00", (b"/%00", b"/\0", None)),
    (b"/%zz%4", (b"/%zz%4", b"/%zz%4", None)),
    (b"/%", (b"/%", b"/%", None)),
    (b"/%25%32%65", (b"/%25%32%65", b"/%2e", None)),
    (b"/%ff", (b"/%ff", b"/\xff", None)),
    (b"/a%3Fb?c%20d", (b"/a%3Fb", b"/a?b", Some(b"c%20d"))),
    (b"http://h", (b"/", b"/", None)),
    (b"http://h?x", (b"/", b"/", Some(b"x"))),
    (b"http://h/", (b"/", b"/", None)),
    (b"HTTPS://h:1/a?x", (b"/a", b"/a", Some(b"x"))),
    (b"hTtP://u@h/../a", (b"/../a", b"/a", None)),
    (b"http://h%2f/a", (b"/a", b"/a", None)),
    (b"http://h/http://i", (b"/http://i", b"/http://i", None)),
];

#[test]
fn reads_targets(rt: HostRuntime) {
    let alloc = rt.alloc();
    for (i, (target, wanted)) in TARGETS.iter().enumerate() {
        assert!(rt; is_read(alloc, target, *wanted), "row {i}");
    }
}

#[test]
fn reads_the_whole_server(rt: HostRuntime) {
    assert!(rt; has_form(b"OPTIONS", b"*"));
    match read_target(rt.alloc(), b"OPTIONS", b"*") {
        Target3986::Parts { url, path, query } => {
            assert_eq!(rt; url.as_slice(), b"*".as_slice());
            assert_eq!(rt; path.as_slice(), b"*".as_slice());
            assert!(rt; query.is_none());
        }
        Target3986::Bad | Target3986::NoMemory => assert!(rt; false),
    }
}

/// Methods and targets of no form.
const BAD_TARGETS: [(&[u8], &[u8]); 18] = [
    (b"GET", b""),
    (b"GET", b"*"),
    (b"options", b"*"),
    (b"OPTIONS", b"**"),
    (b"OPTIONS", b"*/"),
    (b"GET", b"a/b"),
    (b"GET", b"?a"),
    (b"GET", b"../a"),
    (b"CONNECT", b"h:80"),
    (b"GET", b"http:"),
    (b"GET", b"http://"),
    (b"GET", b"http:///a"),
    (b"GET", b"http://?a"),
    (b"GET", b"https://"),
    (b"GET", b"HTTPS:///"),
    (b"GET", b"http:/h/a"),
    (b"GET", b"httpx://h/a"),
    (b"GET", b"ftp://h/a"),
];

#[test]
fn refuses_targets_of_no_form(rt: HostRuntime) {
    let alloc = rt.alloc();
    for (i, (method, target)) in BAD_TARGETS.iter().enumerate() {
        assert!(rt; is_bad(alloc, method, target), "row {i}");
    }
}

/// Prefixes, paths, and whether the path lies under the prefix.
const PREFIXES: [(&[u8], &[u8], bool); 14] = [
    (b"", b"", true),
    (b"", b"/a", true),
    (b"", b"a", false),
    (b"/", b"/", true),
    (b"/", b"/a", false),
    (b"/", b"//a", true),
    (b"/a", b"/a", true),
    (b"/a", b"/a/", true),
    (b"/a", b"/a/b", true),
    (b"/a", b"/ab", false),
    (b"/a", b"/A/b", false),
    (b"/a/", b"/a/b", false),
    (b"/a/b", b"/a", false),
    (b"/a", b"/b/a", false),
];

#[test]
fn tells_prefixes(rt: HostRuntime) {
    for (i, (prefix, path, wanted)) in PREFIXES.iter().enumerate() {
        assert_eq!(rt; is_prefix(prefix, path), *wanted, "row {i}");
    }
}

/// A template whose texts in braces bind.
fn template(alloc: Global, texts: &[&str]) -> Result<List<Segment>, AllocError> {
    let mut parts = List::new(alloc);
    for text in texts {
        let bytes = text.as_bytes();
        let part = match bytes.strip_prefix(b"{") {
            Some(name) => Segment::Bind(Bytes::from_slice(alloc, name)?),
            None => Segment::Fixed(Bytes::from_slice(alloc, bytes)?),
        };
        parts.push(part)?;
    }
    Ok(parts)
}

fn are_bindings(fields: &[Field], wanted: &[(&str, &str)]) -> bool {
    fields.len() == wanted.len()
        && fields.iter().zip(wanted).all(|(f, w)| {
            f.name.as_slice() == w.0.as_bytes() && f.value.as_slice() == w.1.as_bytes()
        })
}

/// The text gets these bindings of the template, or none.
fn expect_bindings(
    rt: &impl Abort,
    alloc: Global,
    parts: &[Segment],
    value: &str,
    wanted: Option<&[(&str, &str)]>,
) {
    let is_right = match (template_bind(alloc, parts, value.as_bytes()), wanted) {
        (Bind::Yes(fields), Some(wanted)) => are_bindings(fields.as_slice(), wanted),
        (Bind::No, None) => true,
        _ => false,
    };
    assert!(rt; is_right, "{value}");
}

#[test]
fn binds_templates(rt: HostRuntime) -> Result<(), AllocError> {
    let alloc = rt.alloc();
    let parts = template(alloc, &["", "users", "{id", "posts", "{post"])?;
    let rows: [(&str, Option<&[(&str, &str)]>); 12] = [
        ("/users/7/posts/a", Some(&[("id", "7"), ("post", "a")])),
        (
            "/users/a b/posts/..",
            Some(&[("id", "a b"), ("post", "..")]),
        ),
        (
            "/users/users/posts/posts",
            Some(&[("id", "users"), ("post", "posts")]),
        ),
        ("/users//posts/a", None),
        ("/users/7/posts/", None),
        ("/users/7/posts", None),
        ("/users/7/posts/a/", None),
        ("/users/7/post/a", None),
        ("/Users/7/posts/a", None),
        ("users/7/posts/a", None),
        ("", None),
        ("////", None),
    ];
    for (value, wanted) in rows {
        expect_bindings(&rt, alloc, parts.as_slice(), value, wanted);
    }
    Ok(())
}

#[test]
fn binds_the_least_templates(rt: HostRuntime) -> Result<(), AllocError> {
    let alloc = rt.alloc();
    let none = template(alloc, &[])?;
    expect_bindings(&rt, alloc, none.as_slice(), "", None);
    let fixed = template(alloc, &["", ""])?;
    expect_bindings(&rt, alloc, fixed.as_slice(), "/", Some(&[]));
    expect_bindings(&rt, alloc, fixed.as_slice(), "", None);
    let twice = template(alloc, &["{a", "{a"])?;
    expect_bindings(
        &rt,
        alloc,
        twice.as_slice(),
        "x/y",
        Some(&[("a", "x"), ("a", "y")]),
    );
    Ok(())
}
