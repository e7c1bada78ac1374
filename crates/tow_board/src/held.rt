//! What a board holds.
ghost use Rattle.std.specs.Prelude.{◌≡◌, ◌<◌, ℕ, Bool, true, false};
ghost use Rattle.tow_model.specs.declared.account.Role.{Role};
ghost use Rattle.tow_board.specs.declared.owner.To.{To};
ghost use Rattle.tow_board.specs.declared.owner.To.TheVariants.{Loop};

use tow_model::Role;

/// What lies in a slot. Of it contracts see whom it may wait for, where it comes from and what has
/// been done with it.
pub trait Held: Drop {
    /// Where it comes from: plain data with a number, which no holder changes.
    type Origin;
    /// What has been done with it: plain data that its holders change.
    type Mark;

    // On a board of that many loops it may wait for these.
    ghost fits: { ℕ → To → Self → Type 0 };

    ghost origin: { Self → Self.Origin };

    ghost number: { Self.Origin → ℕ };

    // Of so many loops the one that it belongs to.
    ghost loop_of: { ℕ → Self.Origin → ℕ };

    ghost mark: { Self → Self.Mark };

    // Nothing has been done with it.
    ghost fresh: { Self.Mark → Type 0 };

    // The first mark may come of the second one by what workers do.
    ghost follows: { Self.Mark → Self.Mark → Type 0 };

    // Which of the faults 0 and 1 the mark tells.
    ghost tells: { Self.Mark → ℕ → Bool };

    // How many places for hops it has left.
    ghost spare: { Self → ℕ };

    // What `arrived` makes of it.
    ghost came: { Self → Role → Self → Type 0 };

    /// Adds the role to its hops, for which there is a place. Takes no memory.
    fn arrived(&mut self, role: Role)
        requires { 0 < spare self.old }
        ensures came { came self.old role self.new }
        ensures same { (origin self.new ≡ origin self.old) × (mark self.new ≡ mark self.old) };

    ghost fits_one_loop: { (n l : ℕ) (x : Self) → fits n (Loop l) x → l ≡ loop_of n (origin x) };

    ghost follows_itself: { (m : Self.Mark) → follows m m };

    ghost follows_on: { (a b c : Self.Mark) → follows a b → follows b c → follows a c };

    ghost fresh_tells_none: { (m : Self.Mark) (a : ℕ) → fresh m → tells m a ≡ false };
}
