ghost use Rattle.std.specs.Prelude.{◌≡◌, ◌<◌, ◌++◌, IfOk, OnOk, flat_map, take};
ghost use Rattle.tow_model.specs.Dates.{first_undated};
ghost use Rattle.tow_semantics.specs.Values.{piece_of, value_of};
ghost use Rattle.tow_model.specs.declared.limits.TheConstants.{MAX_VALUE_LEN};

use crate::append::append_attribute;
use std::alloc::{AllocError, Global};
use tow_model::{Bytes, NoMemory, Piece, Record, Request, Template};

/// How many bytes a value has at most.
const LONGEST_VALUE: usize = 65_536;

/// What a template stands for under a request and the record of its exchange, cut to the first 65,536 bytes. The moment is in
/// seconds since 1970. Takes memory for the value alone; of the pieces none is written behind the cut but the rest of the one
/// that reaches it, which is dropped.
pub fn value(
    alloc: Global,
    template: &Template,
    request: &Request,
    exchange: &Record,
    moment: u64,
) -> Result<Bytes, NoMemory>
    requires dated { moment < first_undated }
    ensures exact { IfOk result (λ b. b ≡ value_of template.now request.now exchange.now moment) }
{
    let mut out = Vec::new(alloc);
    append_pieces(&mut out, template.as_slice(), request, exchange, moment)?;
    out.truncate(LONGEST_VALUE);
    Ok(Bytes::from_vec(out))
}

/// Writes what the pieces stand for, one after the other, up to the one that reaches the cut.
fn append_pieces(
    out: &mut Vec<u8>,
    pieces: &[Piece],
    request: &Request,
    exchange: &Record,
    moment: u64,
) -> Result<(), AllocError>
    requires dated { moment < first_undated }
    ensures { OnOk result (take MAX_VALUE_LEN out.new.items
        ≡ take MAX_VALUE_LEN (out.old.items
        ++ flat_map (λ p. piece_of p request.now exchange.now moment) pieces.now)) }
{
    for piece in pieces {
        if out.len() >= LONGEST_VALUE {
            return Ok(());
        }
        append_piece(out, piece, request, exchange, moment)?;
    }
    Ok(())
}

/// Writes what a piece stands for.
fn append_piece(
    out: &mut Vec<u8>,
    piece: &Piece,
    request: &Request,
    exchange: &Record,
    moment: u64,
) -> Result<(), AllocError>
    requires dated { moment < first_undated }
    ensures { OnOk result (out.new.items
        ≡ out.old.items ++ piece_of piece.now request.now exchange.now moment) }
{
    match piece {
        Piece::Literal(bytes) => out.extend_from_slice(bytes.as_slice()),
        Piece::Value(attribute) => append_attribute(out, attribute, request, exchange, moment),
    }
}
