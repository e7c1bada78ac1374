//! The line of a format.

ghost use Rattle.std.specs.Prelude.{◌≡◌, ◌<◌, ◌++◌, IfOk, OnOk, flat_map, take};
ghost use Rattle.tow_model.specs.Dates.{first_undated};
ghost use Rattle.tow_model.specs.declared.limits.TheConstants.{MAX_VALUE_LEN};
ghost use Rattle.tow_semantics.specs.Values.{line_of, logged, logged_piece};

use crate::answers::{is_decided, is_of_answer};
use crate::shown::show_from;
use std::alloc::{AllocError, Global};
use tow_attr::append_attribute;
use tow_model::limits::MAX_VALUE_LEN;
use tow_model::{Attribute, Bytes, NoMemory, Piece, Record, Request, Template};

/// How many bytes a line has room for before it has to grow. Most lines are shorter.
const USUAL_LEN: usize = 256;

/// The line of a log in this format, without its line end, cut to the first 65,536 bytes. It tells
/// of a request and the record of its exchange as it completes, at its moment in seconds since
/// 1970. Takes memory for the line, and for a copy of each attribute that has control bytes. Of the
/// pieces none is written after the cut but the rest of the one that reaches it, which is dropped.
pub fn line(
    alloc: Global,
    format: &Template,
    request: &Request,
    exchange: &Record,
    moment: u64,
) -> Result<Bytes, NoMemory>
    requires dated { moment < first_undated }
    ensures exact { IfOk result (λ text. text
        ≡ line_of format.now request.now exchange.now moment) }
{
    let mut out = Vec::with_capacity(alloc, USUAL_LEN)?;
    append_pieces(
        alloc,
        &mut out,
        format.as_slice(),
        request,
        exchange,
        moment,
    )?;
    out.truncate(MAX_VALUE_LEN);
    Ok(Bytes::from_vec(out))
}

/// Writes what a line has for the pieces, one after the other, up to the one that reaches the cut.
fn append_pieces(
    alloc: Global,
    out: &mut Vec<u8>,
    pieces: &[Piece],
    request: &Request,
    exchange: &Record,
    moment: u64,
) -> Result<(), AllocError>
    requires dated { moment < first_undated }
    ensures { OnOk result (take MAX_VALUE_LEN out.new.items
        ≡ take MAX_VALUE_LEN (out.old.items
        ++ flat_map (λ p. logged_piece p request.now exchange.now moment) pieces.now)) }
{
    for piece in pieces {
        if out.len() >= MAX_VALUE_LEN {
            return Ok(());
        }
        append_piece(alloc, out, piece, request, exchange, moment)?;
    }
    Ok(())
}

/// Writes what a line has for a piece. The bytes of a format stand for themselves, all of them.
fn append_piece(
    alloc: Global,
    out: &mut Vec<u8>,
    piece: &Piece,
    request: &Request,
    exchange: &Record,
    moment: u64,
) -> Result<(), AllocError>
    requires dated { moment < first_undated }
    ensures { OnOk result (out.new.items
        ≡ out.old.items ++ logged_piece piece.now request.now exchange.now moment) }
{
    match piece {
        Piece::Literal(bytes) => out.extend_from_slice(bytes.as_slice()),
        Piece::Value(attribute) => {
            append_logged(alloc, out, attribute, request, exchange, moment)
        }
    }
}

/// Writes an attribute as a line shows it: one of an answer as `-` if nothing was decided.
fn append_logged(
    alloc: Global,
    out: &mut Vec<u8>,
    attribute: &Attribute,
    request: &Request,
    exchange: &Record,
    moment: u64,
) -> Result<(), AllocError>
    requires dated { moment < first_undated }
    ensures { OnOk result (out.new.items
        ≡ out.old.items ++ logged attribute.now request.now exchange.now moment) }
{
    if is_of_answer(attribute) && !is_decided(&exchange.choice) {
        return out.extend_from_slice(b"-");
    }
    let start = out.len();
    append_attribute(out, attribute, request, exchange, moment)?;
    show_from(alloc, out, start)
}
