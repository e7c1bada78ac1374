//! Laws of the definitions, each the contract of a function that does nothing.

ghost use Rattle.std.specs.Prelude.{◌≡◌, ◌+◌, ◌<◌, ◌≤◌, ◌++◌, ℕ, List, length, All};
ghost use Rattle.tow_history.specs.declared.entry.Entry.{Entry};
ghost use Rattle.tow_history.specs.Legal.{Who, legal, state_after, tickets, times, waiting};
ghost use Rattle.tow_history.specs.Histories.{of, verdicts, calls_at, entries_at, refusals, drawn_tickets, granted_tickets, rising, enterings, leavings};

/// At every point of a legal history at most `most` are inside, and at most `queue` wait. Those who
/// were admitted or queued left, are inside or wait.
pub fn few_inside()
    ensures inside { (h more : List Entry) (most queue : ℕ) → legal (h ++ more) most queue
        → length (state_after h).inside ≤ most }
    ensures line { (h more : List Entry) (most queue : ℕ) → legal (h ++ more) most queue
        → length (state_after h).line ≤ queue }
    ensures counts { (h : List Entry) (most queue : ℕ) → legal h most queue
        → (state_after h).drawn
        ≡ (state_after h).left + length (state_after h).inside + length (state_after h).line }
{}

/// Tickets are granted in the order in which they were drawn, each at most once. A ticket that was
/// granted is below the leavings and the places together; one that still waits is not.
pub fn granted_in_order()
    ensures once { (h : List Entry) (most queue : ℕ) → legal h most queue
        → rising (drawn_tickets h) }
    ensures order { (h : List Entry)
        → drawn_tickets h ≡ granted_tickets h ++ tickets (state_after h).line }
    ensures granted { (h : List Entry) (most queue : ℕ) → legal h most queue
        → All (λ t. t < (state_after h).left + most) (granted_tickets h) }
    ensures waiting { (h : List Entry) (most queue : ℕ) → legal h most queue
        → All (λ t. (state_after h).left + most ≤ t) (tickets (state_after h).line) }
{}

/// An exchange is inside or waits as often as it entered and did not leave.
pub fn inside_by_leavings()
    ensures { (h : List Entry) (most queue : ℕ) (w : Who) → legal h most queue
        → times w (state_after h).inside + times w (waiting (state_after h).line) + leavings w h
        ≡ enterings w h }
{}

/// The calls and the verdicts of one connection, from one piece of a history after another, and
/// from the entries of all limits together.
pub fn calls_of_pieces()
    ensures calls { (h more : List Entry) (k : ℕ) → of (h ++ more) k ≡ of h k ++ of more k }
    ensures verdicts { (h more : List Entry) (k : ℕ)
        → verdicts (of (h ++ more) k) ≡ verdicts (of h k) ++ verdicts (of more k) }
    ensures limits { (h : List Entry) (l k : ℕ) → calls_at l (of h k) ≡ of (entries_at l h) k }
{}

/// Each entry is a refusal, an admission or queuing, or a leaving.
pub fn every_entry_counts()
    ensures { (h : List Entry)
        → length h ≡ refusals h + (state_after h).drawn + (state_after h).left }
{}
