//! Laws of the definitions, each the contract of a function without a body.

ghost use Rattle.tow_sending.specs.Pieces.{PartsAreThere, PartsStay, PiecesAre, PutsKeep};

/// The pieces of an answer, one after the other, are its bytes.
pub fn pieces_are()
    ensures { PiecesAre }
{}

/// Files that have the file of an answer, to the length that it names, have all its pieces.
pub fn parts_are_there()
    ensures { PartsAreThere }
{}

/// Files that have all the pieces have those that a call leaves.
pub fn parts_stay()
    ensures { PartsStay }
{}

/// What the pipe holds with what is left to be put is the same after a call as before it.
pub fn puts_keep()
    ensures { PutsKeep }
{}
