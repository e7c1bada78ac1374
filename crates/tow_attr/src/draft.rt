ghost use Rattle.std.specs.Prelude.{◌≡◌, [], ◌∷◌, ◌++◌, OnOk, IfOk};
ghost use Rattle.tow_attr.specs.Reading.{literal_of};

use std::alloc::{AllocError, Global};
use std::mem;
use tow_model::{Attribute, Bytes, List, Piece, Template};

/// The pieces that were read, and behind them the bytes that stand for themselves.
#[derive(Drop)]
pub struct Draft {
    pub pieces: List<Piece>,
    pub literal: Vec<u8>,
    alloc: Global,
}

impl Draft {
    ghost use Rattle.tow_model.specs.declared.attribute.Piece.TheVariants.{Value};

    /// Takes no memory.
    pub fn new(alloc: Global) -> Draft
        ensures pieces { result.pieces ≡ [] }
        ensures literal { result.literal.items ≡ [] }
    {
        Draft {
            pieces: List::new(alloc),
            literal: Vec::new(alloc),
            alloc,
        }
    }

    /// Adds bytes that stand for themselves.
    pub fn put_bytes(&mut self, bytes: &[u8]) -> Result<(), AllocError>
        ensures pieces { OnOk result (self.new.pieces ≡ self.old.pieces) }
        ensures literal { OnOk result (self.new.literal.items
            ≡ self.old.literal.items ++ bytes.now) }
    {
        self.literal.extend_from_slice(bytes)?;
        Ok(())
    }

    /// Adds an attribute.
    pub fn put_value(&mut self, attribute: Attribute) -> Result<(), AllocError>
        ensures pieces { OnOk result (self.new.pieces
            ≡ self.old.pieces ++ (literal_of self.old.literal.items ++ Value attribute ∷ [])) }
        ensures literal { OnOk result (self.new.literal.items ≡ []) }
    {
        self.end_literal()?;
        self.pieces.push(Piece::Value(attribute))?;
        Ok(())
    }

    /// The template of all that was added.
    pub fn finish(mut self) -> Result<Template, AllocError>
        ensures { IfOk result (λ t. t ≡ self.pieces ++ literal_of self.literal.items) }
    {
        self.end_literal()?;
        let Draft { pieces, .. } = self;
        Ok(pieces)
    }

    /// Makes the bytes at the end a piece.
    fn end_literal(&mut self) -> Result<(), AllocError>
        ensures pieces { OnOk result (self.new.pieces
            ≡ self.old.pieces ++ literal_of self.old.literal.items) }
        ensures literal { OnOk result (self.new.literal.items ≡ []) }
    {
        if !self.literal.is_empty() {
            let literal = mem::replace(&mut self.literal, Vec::new(self.alloc));
            self.pieces.push(Piece::Literal(Bytes::from_vec(literal)))?;
        }
        Ok(())
    }
}
