use tow_fit::Call;

/// A step of building a tree. The parts of a text stand in the order of its calls; what joins things follows them.
#[derive(Debug, Drop)]
pub enum Part {
    /// A predicate's call.
    Test(Call),
    /// The predicate before it is negated.
    Not,
    /// The two predicates before it are joined.
    And,
    Or,
    /// A handler's call, which is a statement.
    Handler(Call),
    Restart,
    Done,
    /// The statements from here up to the matching `Close` are a block.
    Open,
    Close,
    /// The predicate and the statement before it are one statement.
    When,
    /// The predicate and the two statements before it are one statement.
    WhenElse,
    /// The statement before it is the next one of its list.
    End,
}
