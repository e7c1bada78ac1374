use crate::{
    add_field, after, are_digits, before, bind, clear_field, copied_field, cut, digit_value,
    has_field, has_name, is_among, is_field_name, number_up_to, rooted, rooted_copy, set_field,
    trimmed, unbind,
};
use std::alloc::{AllocError, Global};
use tow_model::{Bytes, Field, List};

/// A text, what stands before its first `=`, and what follows it.
const CUTS: [(&[u8], &[u8], Option<&[u8]>); 5] = [
    (b"", b"", None),
    (b"a", b"a", None),
    (b"=", b"", Some(b"")),
    (b"a=b=c", b"a", Some(b"b=c")),
    (b"a=", b"a", Some(b"")),
];

/// Digits, and their number, but 1,000 if it is greater.
const NUMBERS: [(&[u8], u64); 6] = [
    (b"", 0),
    (b"007", 7),
    (b"999", 999),
    (b"1000", 1000),
    (b"1001", 1000),
    (b"99999999999999999999999999", 1000),
];

/// A path, and the path with a leading `/`.
const ROOTS: [(&[u8], &[u8]); 4] = [(b"", b"/"), (b"a", b"/a"), (b"/", b"/"), (b"//a", b"//a")];

#[test]
fn texts_are_cut(rt: HostRuntime) {
    for (text, front, rest) in CUTS {
        assert_eq!(rt; before(b'=', text), front);
        assert_eq!(rt; after(b'=', text), rest);
        assert_eq!(rt; cut(b'=', text), (front, rest));
    }
    assert_eq!(rt; trimmed(b" \ta b\t "), b"a b".as_slice());
}

#[test]
fn digits_are_read(rt: HostRuntime) {
    for (digits, number) in NUMBERS {
        assert!(rt; are_digits(digits));
        assert_eq!(rt; number_up_to(1000, digits), number);
    }
    assert!(rt; !are_digits(b"1a"));
    assert!(rt; !are_digits(b"-1"));
    assert_eq!(rt; digit_value(b'9'), 9);
}

#[test]
fn paths_get_a_root(rt: HostRuntime) -> Result<(), AllocError> {
    let alloc = rt.alloc();
    for (path, root) in ROOTS {
        let owned = rooted(Bytes::from_slice(alloc, path)?)?;
        assert_eq!(rt; owned.as_slice(), root);
        assert_eq!(rt; rooted_copy(alloc, path)?.as_slice(), root);
    }
    Ok(())
}

/// The fields as `name=value` with `;` after each.
fn shown(alloc: Global, fields: &List<Field>) -> Result<Vec<u8>, AllocError> {
    let mut out = Vec::new(alloc);
    for field in fields.as_slice() {
        out.extend_from_slice(field.name.as_slice())?;
        out.push(b'=')?;
        out.extend_from_slice(field.value.as_slice())?;
        out.push(b';')?;
    }
    Ok(out)
}

fn value(alloc: Global, text: &[u8]) -> Result<Bytes, AllocError> {
    Bytes::from_slice(alloc, text)
}

#[test]
fn fields_are_set(rt: HostRuntime) -> Result<(), AllocError> {
    let alloc = rt.alloc();
    let mut fields = List::new(alloc);
    add_field(alloc, &mut fields, b"A", value(alloc, b"1")?)?;
    add_field(alloc, &mut fields, b"b", value(alloc, b"2")?)?;
    add_field(alloc, &mut fields, b"a", value(alloc, b"3")?)?;
    assert_eq!(rt;
        shown(alloc, &fields)?.as_slice(),
        b"A=1;b=2;a=3;".as_slice()
    );
    assert!(rt; has_field(fields.as_slice(), b"B"));
    assert!(rt; !has_field(fields.as_slice(), b"c"));
    assert!(rt; has_name(&copied_field(alloc, b"A", b"1")?, b"a"));
    assert!(rt; is_field_name(b"Host", b"hOST"));
    set_field(alloc, &mut fields, b"a", value(alloc, b"4")?)?;
    assert_eq!(rt; shown(alloc, &fields)?.as_slice(), b"b=2;a=4;".as_slice());
    clear_field(alloc, &mut fields, b"B");
    assert_eq!(rt; shown(alloc, &fields)?.as_slice(), b"a=4;".as_slice());
    Ok(())
}

#[test]
fn names_are_bound(rt: HostRuntime) -> Result<(), AllocError> {
    let alloc = rt.alloc();
    let mut context = List::new(alloc);
    bind(alloc, &mut context, copied_field(alloc, b"a", b"4")?)?;
    bind(alloc, &mut context, copied_field(alloc, b"A", b"5")?)?;
    assert_eq!(rt; shown(alloc, &context)?.as_slice(), b"a=4;A=5;".as_slice());
    bind(alloc, &mut context, copied_field(alloc, b"a", b"6")?)?;
    assert_eq!(rt; shown(alloc, &context)?.as_slice(), b"A=5;a=6;".as_slice());
    unbind(alloc, &mut context, b"A");
    assert_eq!(rt; shown(alloc, &context)?.as_slice(), b"a=6;".as_slice());
    assert!(rt; is_among(b"b", &[value(alloc, b"a")?, value(alloc, b"b")?]));
    assert!(rt; !is_among(b"B", &[value(alloc, b"a")?, value(alloc, b"b")?]));
    Ok(())
}
