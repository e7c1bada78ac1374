//! Who has a slot, and the word that says so.
ghost use Rattle.std.specs.Prelude.{◌≡◌, ◌<◌, ◌^◌};
ghost use Rattle.tow_board.specs.Owners.{code_of, word_of, owner_at, to_for, code_end};

use tow_model::Role;

/// For whom a slot's value waits.
#[derive(Clone, Copy, Debug, PartialEq, Eq)]
pub enum To {
    /// Any worker.
    Pool,
    /// The I/O loop of that number, from 0.
    Loop(u32),
    Main,
}

/// Who has a slot.
#[derive(Clone, Copy, Debug, PartialEq, Eq)]
pub enum Owner {
    Free,
    /// One seat has it in its hand.
    Hand,
    /// Its value is at its place, for those whom `To` names.
    Waiting(To),
}

impl To {
    /// The word of a slot whose value waits for these: 2 for the pool, 3 for main, 4 + i for loop
    /// i.
    pub fn code(self) -> u64
        ensures { result ≡ code_of self }
    {
        match self {
            To::Pool => 2,
            To::Main => 3,
            To::Loop(number) => 4 + number as u64,
        }
    }

    /// What that role may claim.
    pub fn claimed_by(role: Role) -> To
        ensures { result ≡ to_for role }
    {
        match role {
            Role::Main => To::Main,
            Role::Loop(number) => To::Loop(number),
            Role::Worker(_) => To::Pool,
        }
    }
}

impl Owner {
    /// The word of a slot that it has: 0 if it is free, 1 in a hand, else the code of its `To`.
    pub fn word(self) -> u64
        ensures { result ≡ word_of self }
    {
        match self {
            Owner::Free => 0,
            Owner::Hand => 1,
            Owner::Waiting(to) => to.code(),
        }
    }

    /// Who has a slot with that word.
    pub fn at(word: u64) -> Owner
        requires { word < code_end }
        ensures { result ≡ owner_at word }
    {
        match word {
            0 => Owner::Free,
            1 => Owner::Hand,
            2 => Owner::Waiting(To::Pool),
            3 => Owner::Waiting(To::Main),
            code => Owner::Waiting(To::Loop((code - 4) as u32)),
        }
    }
}
