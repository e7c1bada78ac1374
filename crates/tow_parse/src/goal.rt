use tow_fit::{Call, WrittenPair, WrittenParameters, WrittenText, WrittenValue};
use tow_model::List;

/// What a call is read for.
#[derive(Clone, Copy)]
pub enum Role {
    /// A predicate.
    Test,
    /// The target of a predicate.
    Handler,
    /// The front of a statement with so many levels: a handler, or the first call of a predicate.
    Front(usize),
}

/// What joins the parts before it.
#[derive(Clone, Copy)]
pub enum Joint {
    Not,
    And,
    WhenElse,
    End,
}

/// Where the next value of a call stands, with the values or pairs before it.
#[derive(Drop)]
pub enum Slot {
    Unnamed(List<WrittenValue>),
    Named {
        pairs: List<WrittenPair>,
        name: WrittenText,
    },
}

/// An array up to here.
#[derive(Drop)]
pub struct Array {
    pub slot: Slot,
    /// The offset of the opening brace.
    pub place: usize,
    pub texts: List<WrittenText>,
}

/// A place between the brackets of a call.
#[derive(Drop)]
pub enum Phase {
    /// Behind the opening bracket.
    First,
    /// Behind a Word that is the first value or the first name.
    Word(WrittenText),
    /// Where a value has to follow.
    Value(Slot),
    /// Where a name has to follow.
    Name(List<WrittenPair>),
    /// Behind a name.
    Equals {
        pairs: List<WrittenPair>,
        name: WrittenText,
    },
    /// Behind a value.
    After(WrittenParameters),
    /// Behind the opening brace of an array.
    Texts(Array),
    /// Where a text of the array has to follow.
    Text(Array),
    /// Behind a text of the array.
    AfterText(Array),
}

/// A call up to its opening bracket.
#[derive(Drop)]
pub struct Heading {
    pub role: Role,
    pub name: WrittenText,
    /// Whether the bracket is a square one.
    pub square: bool,
}

/// What a place of the text wants. `levels` is how many more levels may be opened there.
#[derive(Drop)]
pub enum Goal {
    /// Further statements, up to a closing brace or the end of the text.
    Statements {
        levels: usize,
        nested: bool,
    },
    /// A statement, behind an optional Arrow or not.
    Statement {
        levels: usize,
        arrow: bool,
    },
    /// A factor of a predicate.
    Factor {
        levels: usize,
    },
    /// What follows a factor, up to a closing parenthesis or an Arrow. `pending` says that an `Or` is still to be told.
    Joined {
        levels: usize,
        pending: bool,
        grouped: bool,
    },
    /// The target of a predicate.
    Target {
        levels: usize,
    },
    /// An `else`, or the end of the statement.
    Else {
        levels: usize,
    },
    /// A part that is to be told, at no token.
    Told(Joint),
    /// What follows a call at the front of a statement.
    Called {
        levels: usize,
        call: Call,
    },
    /// What follows the name of a call.
    Named {
        role: Role,
        name: WrittenText,
    },
    /// What follows in the brackets of a call.
    Parameters {
        heading: Heading,
        phase: Phase,
    },
}
