//! Laws of the rule, of the words and of the roles, each the contract of a function that does nothing.
ghost use Rattle.std.specs.Prelude.{◌≡◌, ◌≢◌, ◌≤◌, ℕ, Option};
ghost use Rattle.tow_model.specs.declared.account.Role.{Role};
ghost use Rattle.tow_board.specs.declared.owner.Owner.{Owner};
ghost use Rattle.tow_board.specs.declared.owner.To.{To};
ghost use Rattle.atomic_table.specs.Table.{State};
ghost use Rattle.tow_board.specs.declared.view.View.{View};
ghost use Rattle.tow_board.specs.Points.{Points};
ghost use Rattle.tow_board.specs.Rule.{BoardRule, kind_of};
ghost use Rattle.tow_board.specs.Owners.{code_of, to_at, word_of, owner_at, role_number};

use crate::held::Held;

/// Wherever the rule of a board holds, its points hold: of the words, of the places and of the views.
pub fn rule_gives_points<T: Held>()
    ensures { (loops : ℕ) (s : State (Option T) (View T.Origin T.Mark))
        → BoardRule (kind_of T.fits T.origin T.number T.loop_of T.mark T.fresh T.follows T.tells) loops s
        → Points (kind_of T.fits T.origin T.number T.loop_of T.mark T.fresh T.follows T.tells) s loops }
{}

/// Each word names one owner, and each owner has one word.
pub fn words_name_owners()
    ensures owner { (o : Owner) → owner_at (word_of o) ≡ o }
    ensures word { (n : ℕ) → word_of (owner_at n) ≡ n }
    ensures to { (to : To) → (to_at (code_of to) ≡ to) × (2 ≤ code_of to) }
    ensures code { (n : ℕ) → 2 ≤ n → code_of (to_at n) ≡ n }
{}

/// No two roles have one number, and none has the number of a seat that is spent.
pub fn numbers_name_roles()
    ensures one { (r q : Role) → role_number r ≡ role_number q → r ≡ q }
    ensures live { (r : Role) → role_number r ≢ 0 }
{}
