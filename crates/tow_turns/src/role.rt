//! Whose turn it is.

ghost use Rattle.std.specs.Prelude.{◌↔◌, IsTrue};
ghost use Rattle.tow_turns.specs.Roles.{IsLoop};

use tow_model::Role;

/// Whether the role is an I/O loop's.
pub fn is_loop(role: Role) -> bool
    ensures { IsTrue result ↔ IsLoop role }
{
    matches!(role, Role::Loop(_))
}
