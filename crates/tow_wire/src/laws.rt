//! Laws of the definitions, each the contract of a function without a body.

ghost use Rattle.tow_wire.specs.Answers.{BlocksAre, SortedAre};
ghost use Rattle.tow_wire.specs.Wire.{WiresGrow};

/// What is written under fewer verdicts is a front of what is written under more.
pub fn wires_grow()
    ensures { WiresGrow }
{}

/// Blocks are the bytes in order, in pieces of `BLOCK_LEN` bytes; the last one may be shorter.
pub fn blocks_are()
    ensures { BlocksAre }
{}

/// Sorted fields are in the order of their names, and each name has its fields in the order that they had.
pub fn sorted_are()
    ensures { SortedAre }
{}
