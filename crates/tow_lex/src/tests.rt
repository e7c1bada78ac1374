use crate::{LexFault, Token, TokenKind, tokens};
use std::alloc::{AllocError, Global};
use tow_language::TokenKind::{
    Arrow, CloseBrace, CloseRound, CloseSquare, Comma, Equals, Newline, OpenBrace, OpenRound,
    OpenSquare, Quoted, Semi, Word,
};

/// A kind, the place of the first byte and the place behind the last.
type Span = (TokenKind, usize, usize);

fn are(found: &[Token], wanted: &[Span]) -> bool {
    found.len() == wanted.len()
        && found
            .iter()
            .zip(wanted)
            .all(|(t, w)| t.kind == w.0 && t.from == w.1 && t.to == w.2)
}

fn is_cut(alloc: Global, text: &[u8], wanted: &[Span]) -> bool {
    match tokens(alloc, text) {
        Ok(found) => are(found.as_slice(), wanted),
        Err(_) => false,
    }
}

fn is_refused(alloc: Global, text: &[u8], wanted: LexFault) -> bool {
    match tokens(alloc, text) {
        Ok(_) => false,
        Err(fault) => fault == wanted,
    }
}

#[test]
fn cuts_each_token(rt: HostRuntime) {
    let alloc = rt.alloc();
    let rows: [(&[u8], &[Span]); 24] = [
        (b"", &[]),
        (b" \t\r", &[]),
        (b"\n", &[(Newline, 0, 1)]),
        (b" \n\r\n", &[(Newline, 1, 2), (Newline, 3, 4)]),
        (b";,=", &[(Semi, 0, 1), (Comma, 1, 2), (Equals, 2, 3)]),
        (
            b"()[]",
            &[
                (OpenRound, 0, 1),
                (CloseRound, 1, 2),
                (OpenSquare, 2, 3),
                (CloseSquare, 3, 4),
            ],
        ),
        (b"{ }", &[(OpenBrace, 0, 1), (CloseBrace, 2, 3)]),
        (b"->", &[(Arrow, 0, 2)]),
        (b"x", &[(Word, 0, 1)]),
        (b"a->b", &[(Word, 0, 1), (Arrow, 1, 3), (Word, 3, 4)]),
        (b"a-b -", &[(Word, 0, 3), (Word, 4, 5)]),
        (b"-->", &[(Word, 0, 1), (Arrow, 1, 3)]),
        (b"''", &[(Quoted, 0, 2)]),
        (b"'a \n\"b'", &[(Quoted, 0, 7)]),
        (b"\"it's\"x", &[(Quoted, 0, 6), (Word, 6, 7)]),
        (b"'it\\'s'", &[(Quoted, 0, 7)]),
        (b"'a\\\\b'", &[(Quoted, 0, 6)]),
        (b"'\xc3\xa9'", &[(Quoted, 0, 4)]),
        (b"a%{i,x y}b", &[(Word, 0, 10)]),
        (b"${a->(b}", &[(Word, 0, 8)]),
        (b"%{\xc3\xa9}", &[(Word, 0, 5)]),
        (b"%U$", &[(Word, 0, 3)]),
        (b"%{a}{b", &[(Word, 0, 4), (OpenBrace, 4, 5), (Word, 5, 6)]),
        (
            b"path('/a') -> done",
            &[
                (Word, 0, 4),
                (OpenRound, 4, 5),
                (Quoted, 5, 9),
                (CloseRound, 9, 10),
                (Arrow, 11, 13),
                (Word, 14, 18),
            ],
        ),
    ];
    for (i, (text, wanted)) in rows.iter().enumerate() {
        assert!(rt; is_cut(alloc, text, wanted), "row {i}");
    }
}

#[test]
fn names_the_first_fault(rt: HostRuntime) {
    let alloc = rt.alloc();
    let rows: [(&[u8], LexFault); 18] = [
        (b"a 'b", LexFault::UnclosedQuote(2)),
        (b"'", LexFault::UnclosedQuote(0)),
        (b"'a\\'", LexFault::UnclosedQuote(0)),
        (b"\"a'\n(", LexFault::UnclosedQuote(0)),
        (b"a%{b", LexFault::UnclosedBrace(1)),
        (b"a ${b\n}", LexFault::UnclosedBrace(2)),
        (b"%{a}${", LexFault::UnclosedBrace(4)),
        (b"\x01", LexFault::StrayByte(0)),
        (b"a \x7f", LexFault::StrayByte(2)),
        (b"a\xc3\xa9", LexFault::StrayByte(1)),
        (b"\xff", LexFault::StrayByte(0)),
        (b"'a\xffb'", LexFault::StrayByte(2)),
        (b"%{\xc3}", LexFault::StrayByte(2)),
        (b"a\n'b'\xe2\x82", LexFault::StrayByte(5)),
        (b"'\xff", LexFault::UnclosedQuote(0)),
        (b"'a'\xff'", LexFault::StrayByte(3)),
        (b"%{\xff", LexFault::UnclosedBrace(0)),
        (b"\x01\xff", LexFault::StrayByte(0)),
    ];
    for (i, (text, wanted)) in rows.iter().enumerate() {
        assert!(rt; is_refused(alloc, text, *wanted), "row {i}");
    }
}

#[test]
fn takes_65536_bytes(rt: HostRuntime) -> Result<(), AllocError> {
    let alloc = rt.alloc();
    let full = vec![in alloc; b'a'; 65_536]?;
    let long = vec![in alloc; b'a'; 65_537]?;
    let bad = vec![in alloc; 0xffu8; 65_537]?;
    assert!(rt; is_cut(alloc, full.as_slice(), &[(Word, 0, 65_536)]));
    assert!(rt; is_refused(alloc, long.as_slice(), LexFault::TooLong));
    assert!(rt; is_refused(alloc, bad.as_slice(), LexFault::TooLong));
    Ok(())
}
