//! Laws of the definitions, each the contract of a function without a body.

ghost use Rattle.tow_language.specs.Laws.{OneCut, OneDerivation, OneFault, NoTreeAtFault, HandlersAreNamed, PredicatesAreNamed};

/// A text is cut into tokens in one way.
pub fn one_cut()
    ensures { OneCut }
{}

/// A text has at most one derivation.
pub fn one_derivation()
    ensures { OneDerivation }
{}

/// A text has at most one fault.
pub fn one_fault()
    ensures { OneFault }
{}

/// A text with a fault has no tree.
pub fn no_tree_at_fault()
    ensures { NoTreeAtFault }
{}

/// Each handler is found by its name.
pub fn handlers_are_named()
    ensures { HandlersAreNamed }
{}

/// Each predicate is found by its name.
pub fn predicates_are_named()
    ensures { PredicatesAreNamed }
{}
