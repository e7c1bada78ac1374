//! The trees whose walk is built so far.

ghost use Rattle.std.specs.Prelude.{◌≡◌};
ghost use Rattle.std.specs.List.{list_all};
ghost use Rattle.tow_site.specs.Built as built;

use tow_model::{Action, Statement, Tree};

/// Whether the walk of a tree is built: none of its actions waits for something or adds a listener. Takes no memory.
pub fn is_built(tree: &Tree) -> bool
    ensures { result ≡ built.is_built tree.now }
{
    are_built(tree.as_slice())
}

#[cycle(built)]
fn are_built(statements: &[Statement]) -> bool
    ensures { result ≡ list_all built.is_built_statement statements.now }
{
    for statement in statements {
        if !is_built_statement(statement) {
            return false;
        }
    }
    true
}

#[cycle(built)]
fn is_built_statement(statement: &Statement) -> bool
    ensures { result ≡ built.is_built_statement statement.now }
{
    match statement {
        Statement::When { yes, other, .. } => {
            is_built_statement(yes.get())
                && match other {
                    Some(other) => is_built_statement(other.get()),
                    None => true,
                }
        }
        Statement::Act(action) => is_built_action(action),
        Statement::Block(parts) => are_built(parts.as_slice()),
    }
}

fn is_built_action(action: &Action) -> bool
    ensures { result ≡ built.is_built_action action.now }
{
    !matches!(
        action,
        Action::RequestLimit { .. }
            | Action::Resource { .. }
            | Action::AccessLog { .. }
            | Action::Echo
    )
}
