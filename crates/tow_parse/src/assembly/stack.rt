ghost use Rattle.std.specs.Prelude.{◌≡◌, [], ◌∷◌, reverse, OnOk};

use std::alloc::AllocError;

/// Puts an item on top of the stack, whose top is its last item. Takes memory where the stack is full.
pub(crate) fn put<T: Drop>(stack: &mut Vec<T>, item: T) -> Result<(), AllocError>
    ensures { OnOk result (reverse stack.new.items ≡ item ∷ reverse stack.old.items) }
{
    stack.push(item)?;
    Ok(())
}

/// Takes the top of a stack that is not empty.
pub(crate) fn pop<T>(stack: &mut Vec<T>) -> T
    requires { reverse stack.old.items ≡ [] → ⊥ }
    ensures { reverse stack.old.items ≡ result ∷ reverse stack.new.items }
{
    match stack.pop() {
        Some(top) => top,
        None => unreachable!(),
    }
}
