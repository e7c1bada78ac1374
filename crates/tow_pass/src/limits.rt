//! The limits, and the calls of passes on them.

ghost use Rattle.std.specs.Prelude.{ℕ, suc, ◌≡◌, ◌+◌, ◌/◌, ◌%◌, ◌<◌, ◌≤◌, true, false, [], ◌∷◌, length, slice_get, Some, IfOk};
ghost use Rattle.tow_model.specs.declared.account.Verdict.{Verdict};
ghost use Rattle.tow_model.specs.declared.account.What.{What};
ghost use Rattle.tow_pass.specs.Calls.{call_at};
ghost use Rattle.tow_pass.specs.Views.{called, issues, keeps_calls, newcomer, opening_view};
ghost use Rattle.tow_pass.specs.Tells.{Entered, HasRoom, IsFull, Left, count_in};
ghost use Rattle.tow_pass.specs.Closing.{AllCollected, AreClosed, Closed, history_of};
ghost use Rattle.tow_model.specs.declared.account.Bound.{Bound};
ghost use Rattle.tow_pass.specs.Shown.{AreUpTo, FitWords, IsInside, IsIssued, IsMains, most_at};

use crate::pass::Pass;
use crate::past::Past;
use crate::rules::{Admits, Asked, Closes, Closing, Collects, Issues, Leaves, Refuses, Rules};
use crate::view::View;
use atomic_table::{Seat, Table};
use std::alloc::Global;
use std::marker::{Brand, Model};
use std::sync::Wait;
use tow_model::{Bound, NoMemory, Verdict};

/// What a word has more by an admission: one more of the count, and one more inside.
const ADMISSION: u64 = 65_537;

/// What a word has more by a leaving: one more of the count, and one less inside.
const LEAVING: u64 = 65_535;

/// Limits on how many exchanges are inside at a time, which threads share. Each decision is one
/// step on the limit's word. Only `new` takes memory.
#[derive(Drop)]
pub struct Limits {
    table: Table<(), View, Vec<Bound>, Rules, Global>,
    bounds: Vec<Bound>,
}

impl Model for Limits {
    ghost use Rattle.std.specs.Prelude.{suc, ◌≡◌, length};
    ghost use Rattle.tow_pass.specs.Shown.{FitWords, LimitsShown};

    ghost Value = { LimitsShown };

    ghost view = { λ l. record { name = l.table.shared.table_id; bounds = l.bounds.items } };

    ghost invariant = { λ l. (l.table.shared.table_id.words ≡ suc (length l.bounds.items))
        × (l.table.shared.key.items ≡ l.bounds.items) × FitWords l.bounds.items };
}

impl Limits {
    /// The limits of these bounds, at most 16, with nobody inside, and main's pass.
    pub fn new(alloc: Global, bounds: &[Bound]) -> Result<(Limits, Pass), NoMemory>
        requires few { length bounds.now ≤ 16 }
        requires fit { FitWords bounds.now }
        ensures limits { IfOk result (λ r. r.0.bounds ≡ bounds.now) }
        ensures pass { IfOk result (λ r. r.1 ≡ record { limits = r.0.name; view = opening_view }) }
    {
        let words: Vec<u64> = Vec::from_elem(alloc, 0, bounds.len() + 1)?;
        let bounds = Vec::from_slice(alloc, bounds)?;
        let (table, seat) = Table::of_words(alloc, &words, &bounds)?;
        Ok((Limits { table, bounds }, Pass { seat }))
    }

    /// A pass for the next connection. Its number is the count of passes that were issued before.
    pub fn issue(&self, main: &mut Pass) -> Pass
        requires limits { main.old.limits ≡ self.now.name }
        requires main { IsMains main.old.view }
        ensures main { main.new ≡ record main.old { view = issues main.old.view } }
        ensures pass { result ≡ record { limits = self.now.name; view = newcomer main.old.view } }
    {
        Pass {
            seat: self.table.shared.split_seat::<Issues>(&mut main.seat),
        }
    }

    /// Ends a connection's pass: main's keeps its calls, under its number.
    pub fn collect(&self, main: &mut Pass, pass: Pass)
        requires limits { (main.old.limits ≡ self.now.name) × (pass.limits ≡ self.now.name) }
        requires main { IsMains main.old.view }
        requires issued { IsIssued pass.view }
        ensures main { main.new ≡ record main.old { view = keeps_calls main.old.view pass.view } }
    {
        let Pass { seat } = pass;
        self.table
            .shared
            .join_seat::<Collects>(&mut main.seat, seat);
    }

    /// Asks for a place at a limit, for a request of the pass's connection. It tries again until
    /// one step decides: it refuses if the word of that step had as many inside as the limit
    /// admits, or a count of 2^47 or more. It may wait for ever while others enter and leave.
    pub fn enter<R: Wait>(&self, rt: &R, pass: &mut Pass, limit: u32, request: u32) -> Verdict
        requires limits { pass.old.limits ≡ self.now.name }
        requires limit { limit < length self.now.bounds }
        requires issued { IsIssued pass.old.view }
        requires request { AreUpTo request pass.old.view }
        ensures limits { pass.new.limits ≡ pass.old.limits }
        ensures entered { Entered (most_at self.now.bounds limit) limit request result
            pass.old.view pass.new.view }
        ensures inside { result ≡ Verdict.Admitted → IsInside limit request pass.new.view }
    {
        self.enter_as::<Brand, R>(rt, &mut pass.seat, limit, request)
    }

    /// Gives a place back, in one step.
    pub fn leave(&self, pass: &mut Pass, limit: u32, request: u32)
        requires limits { pass.old.limits ≡ self.now.name }
        requires limit { limit < length self.now.bounds }
        requires issued { IsIssued pass.old.view }
        requires inside { IsInside limit request pass.old.view }
        ensures limits { pass.new.limits ≡ pass.old.limits }
        ensures left { Left limit request pass.old.view pass.new.view }
    {
        self.leave_as::<Brand>(&mut pass.seat, limit, request)
    }

    /// Ends the limits, after main's pass has collected all that were issued. The history of each
    /// limit is what that pass has.
    pub fn close(self, main: Pass) -> Past
        requires limits { main.limits ≡ self.name }
        requires main { IsMains main.view }
        requires collected { AllCollected main.view }
        ensures kept { result.some ≡ true }
        ensures histories { AreClosed self.bounds main.view result.histories }
    {
        let Pass { mut seat } = main;
        self.close_as::<Brand>(&mut seat);
        Past {
            main: Some(Pass { seat }),
            limits: self.bounds.len(),
        }
    }

    fn enter_as<N: Asked, R: Wait>(
        &self,
        rt: &R,
        seat: &mut Seat<(), View>,
        limit: u32,
        request: u32,
    ) -> Verdict
        requires picked { (N.limit ≡ limit) × (N.most ≡ most_at self.now.bounds limit)
            × (N.request ≡ request) }
        requires limits { seat.old.table_id ≡ self.now.name }
        requires limit { limit < length self.now.bounds }
        requires issued { IsIssued seat.old.me.0 }
        requires request { AreUpTo request seat.old.me.0 }
        ensures limits { (seat.new.table_id ≡ seat.old.table_id) × (seat.new.me.1 ≡ seat.old.me.1) }
        ensures entered { Entered (most_at self.now.bounds limit) limit request result
            seat.old.me.0 seat.new.me.0 }
        ensures inside { result ≡ Verdict.Admitted → IsInside limit request seat.new.me.0 }
    {
        let most = self.most(limit);
        for _ in rt.forever() {
            let word = self.look::<N>(seat, limit, request);
            if word % 65_536 >= most as u64 || word / 65_536 >= 1 << 47 {
                return Verdict::Refused;
            }
            if self.admit::<N>(seat, limit, request, word) {
                return Verdict::Admitted;
            }
        }
        unreachable!()
    }

    // How many the limit admits.
    fn most(&self, limit: u32) -> u32
        requires { limit < length self.now.bounds }
        ensures { result ≡ most_at self.now.bounds limit }
    {
        self.bounds[limit as usize].most
    }

    // The limit's word. If it shows the limit full, the pass is refused by this very load.
    fn look<N: Asked>(&self, seat: &mut Seat<(), View>, limit: u32, request: u32) -> u64
        requires picked { (N.limit ≡ limit) × (N.most ≡ most_at self.now.bounds limit)
            × (N.request ≡ request) }
        requires limits { seat.old.table_id ≡ self.now.name }
        requires limit { limit < length self.now.bounds }
        requires issued { IsIssued seat.old.me.0 }
        requires request { AreUpTo request seat.old.me.0 }
        ensures limits { (seat.new.table_id ≡ seat.old.table_id) × (seat.new.me.1 ≡ seat.old.me.1) }
        ensures full { IsFull (most_at self.now.bounds limit) result → seat.new.me.0
            ≡ called seat.old.me.0 (call_at (count_in result) limit request (What.Enter Verdict.Refused)) }
        ensures room { HasRoom (most_at self.now.bounds limit) result
            → seat.new.me.0 ≡ seat.old.me.0 }
    {
        self.table
            .shared
            .load::<Refuses<N>>(seat, limit as usize + 1)
    }

    // Whether the pass was admitted, which it is if the word is still the one that had room.
    fn admit<N: Asked>(
        &self,
        seat: &mut Seat<(), View>,
        limit: u32,
        request: u32,
        word: u64,
    ) -> bool
        requires picked { (N.limit ≡ limit) × (N.request ≡ request) }
        requires limits { seat.old.table_id ≡ self.now.name }
        requires limit { limit < length self.now.bounds }
        requires issued { IsIssued seat.old.me.0 }
        requires request { AreUpTo request seat.old.me.0 }
        requires room { HasRoom (most_at self.now.bounds limit) word }
        ensures limits { (seat.new.table_id ≡ seat.old.table_id) × (seat.new.me.1 ≡ seat.old.me.1) }
        ensures yes { result ≡ true → seat.new.me.0
            ≡ called seat.old.me.0 (call_at (count_in word) limit request (What.Enter Verdict.Admitted)) }
        ensures inside { result ≡ true → IsInside limit request seat.new.me.0 }
        ensures no { result ≡ false → seat.new.me.0 ≡ seat.old.me.0 }
    {
        let found = self
            .table
            .shared
            .compare_exchange::<Admits<N>>(seat, limit as usize + 1, word, word + ADMISSION);
        found == word
    }

    fn leave_as<N: Asked>(&self, seat: &mut Seat<(), View>, limit: u32, request: u32)
        requires picked { (N.limit ≡ limit) × (N.request ≡ request) }
        requires limits { seat.old.table_id ≡ self.now.name }
        requires limit { limit < length self.now.bounds }
        requires issued { IsIssued seat.old.me.0 }
        requires inside { IsInside limit request seat.old.me.0 }
        ensures limits { (seat.new.table_id ≡ seat.old.table_id) × (seat.new.me.1 ≡ seat.old.me.1) }
        ensures left { Left limit request seat.old.me.0 seat.new.me.0 }
    {
        self.table
            .shared
            .fetch_add::<Leaves<N>>(seat, limit as usize + 1, LEAVING);
    }

    fn close_as<N: Closing>(&self, seat: &mut Seat<(), View>)
        requires picked { N.bounds ≡ self.now.bounds }
        requires limits { seat.old.table_id ≡ self.now.name }
        requires main { IsMains seat.old.me.0 }
        requires collected { AllCollected seat.old.me.0 }
        ensures same { (seat.new.table_id ≡ seat.old.table_id) × (seat.new.me ≡ seat.old.me) }
        ensures histories { (l : ℕ) (b : Bound) → slice_get self.now.bounds l ≡ Some b
            → Closed b seat.old.me.0 l (history_of seat.old.me.0 l) }
    {
        self.table.shared.load::<Closes<N>>(seat, 0);
    }
}
