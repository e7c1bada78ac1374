//! What texts come to for a request.

use crate::tests::{request, site};
use crate::{is_built, outcome};
use std::alloc::Global;
use std::test::Fail;
use tow_model::{Choice, Record};
use tow_pred::Scratch;

/// Texts, a method and a path, and the status that the text comes to.
const ROWS: [(&[u8], &[u8], &[u8], u16); 21] = [
    (b"", b"GET", b"/", 404),
    (b"", b"POST", b"/", 405),
    (b"done", b"HEAD", b"/", 404),
    (b"path('/hi') -> response-code(204)", b"GET", b"/hi", 204),
    (b"path('/hi') -> response-code(204)", b"GET", b"/x", 404),
    (
        b"path(/a) -> response-code(201); response-code(202)",
        b"GET",
        b"/a",
        201,
    ),
    (
        b"path(/a) -> response-code(201); response-code(202)",
        b"GET",
        b"/b",
        202,
    ),
    (b"restart", b"GET", b"/", 500),
    (
        b"path(/a) -> { false -> response-code(410); response-code(201) } else done",
        b"GET",
        b"/a",
        201,
    ),
    (
        b"path(/a) -> { false -> response-code(410); response-code(201) } else done",
        b"GET",
        b"/b",
        404,
    ),
    (
        b"path(/a) -> { done; response-code(410) }; response-code(201)",
        b"GET",
        b"/a",
        404,
    ),
    // what a test binds, a later one sees
    (
        b"path-template('/{a}') and equals({'${a}', x}) -> response-code(201)",
        b"GET",
        b"/x",
        201,
    ),
    (
        b"path-template('/{a}') and equals({'${a}', x}) -> response-code(201)",
        b"GET",
        b"/y",
        404,
    ),
    // also where the condition does not hold
    (
        b"path-template('/{a}') and false -> done; exists('${a}') -> response-code(201)",
        b"GET",
        b"/x",
        201,
    ),
    (
        b"not path-template('/{a}') -> done else exists('${a}') -> response-code(201)",
        b"GET",
        b"/x",
        201,
    ),
    // what is not looked at binds nothing
    (
        b"false and path-template('/{a}') -> done; exists('${a}') -> response-code(201)",
        b"GET",
        b"/x",
        404,
    ),
    (
        b"true or path-template('/{a}') -> { exists('${a}') -> response-code(201) }",
        b"GET",
        b"/x",
        404,
    ),
    // a restart clears the context: else it would be 410
    (
        b"exists('${a}') -> response-code(410); path-template('/{a}') -> restart",
        b"GET",
        b"/x",
        500,
    ),
    // two patterns, the first match of each
    (
        b"regex('^/(b+)') and regex(pattern='(c)|d', value='${1}') -> done; equals({'${0}', '/bb'}) -> response-code(201)",
        b"GET",
        b"/bbd",
        201,
    ),
    (
        b"{ regex('^/(b+)') -> { regex(pattern='d(x)?$') -> response-code(201) } }",
        b"GET",
        b"/bbd",
        201,
    ),
    (
        b"{ regex('^/(b+)') -> { regex(pattern='d(x)?$') -> response-code(201) } }",
        b"GET",
        b"/bbdy",
        404,
    ),
];

/// Texts, and the fields that they make for a GET of `/a/b`.
const FIELDS: [(&[u8], &[(&[u8], &[u8])]); 5] = [
    (
        b"header(header=x, value=1); header(header=x, value=2, override=false)",
        &[(b"x", b"1"), (b"x", b"2")],
    ),
    (
        b"header(header=x, value=1); set(attribute='%{o,X}', value='%R'); clear('%{o,y}')",
        &[(b"x", b"/a/b")],
    ),
    (
        b"header(header=x, value=1); path-prefix(/a) -> rewrite('${remaining}'); redirect('%R c')",
        &[(b"x", b"1"), (b"location", b"/b%20c")],
    ),
    (b"header(header=x, value=1); restart", &[(b"x", b"1")]),
    (b"allowed-methods(PUT)", &[(b"allow", b"PUT")]),
];

/// What the text makes of the request.
fn record_of(alloc: Global, text: &[u8], method: &[u8], path: &[u8]) -> Result<Record, Fail> {
    let site = site(alloc, text)?;
    if !is_built(site.tree()) {
        return Err("not built".into());
    }
    let request = request(alloc, method, path)?;
    let mut scratch = Scratch::new(alloc, site.tests())?;
    Ok(outcome(alloc, &site, &mut scratch, &request, 0)?)
}

#[test]
fn statuses(rt: HostRuntime) -> Result<(), Fail> {
    for (text, method, path, status) in ROWS {
        let record = record_of(rt.alloc(), text, method, path)?;
        assert_eq!(rt; record.status, status);
        assert!(rt; matches!(&record.choice, Choice::Empty));
    }
    Ok(())
}

#[test]
fn a_method_that_is_not_allowed(rt: HostRuntime) -> Result<(), Fail> {
    let record = record_of(rt.alloc(), b"", b"POST", b"/")?;
    assert_eq!(rt; record.fields.len(), 1);
    let field = record.fields.get(0).ok_or("no field")?;
    assert_eq!(rt; field.name.as_slice(), b"allow".as_slice());
    assert_eq!(rt; field.value.as_slice(), b"GET, HEAD".as_slice());
    Ok(())
}

#[test]
fn fields(rt: HostRuntime) -> Result<(), Fail> {
    for (i, (text, fields)) in FIELDS.iter().enumerate() {
        let record = record_of(rt.alloc(), text, b"GET", b"/a/b")?;
        assert_eq!(rt; record.fields.len(), fields.len(), "row {i}");
        for (field, want) in record.fields.as_slice().iter().zip(fields.iter()) {
            assert!(rt; field.name.as_slice() == want.0, "row {i}");
            assert!(rt; field.value.as_slice() == want.1, "row {i}");
        }
    }
    Ok(())
}
