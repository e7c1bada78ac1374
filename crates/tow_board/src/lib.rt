//! A board of slots: values that change hands between threads, each slot with one owner at any time.
//! A slot's word says who has it. A rule over all words, places and views holds between any two
//! atomic steps (`specs/Rule.antt`), and each call is one such step, or a plain access to a slot in
//! the caller's hand.
//!
//! - `owner`: who has a slot, and the word that says so;
//! - `held`: what lies in a slot;
//! - `view`, `rules`: what a seat knows, and the kinds of steps;
//! - `seat`, `bring`: a seat with the slots in its hand;
//! - `board`, `slots`, `hand`: the calls;
//! - `laws`: what the rule and the words say, in plain facts;
//! - `post`: hints by which workers find work sooner.
#![tactic(auto)]

mod board;
mod bring;
mod hand;
mod held;
mod laws;
mod owner;
mod post;
mod rules;
mod seat;
mod slots;
mod view;

pub use board::Board;
pub use hand::Claim;
pub use held::Held;
pub use laws::{numbers_name_roles, rule_gives_points, words_name_owners};
pub use owner::{Owner, To};
pub use post::Post;
pub use rules::Rules;
pub use seat::BoardSeat;
pub use slots::Open;
pub use view::View;

#[cfg(test)]
mod tests;
