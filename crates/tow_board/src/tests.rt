ghost use Rattle.std.specs.Prelude.{◌≡◌, ◌+◌, ◌<◌, ℕ, All, []};
ghost use Rattle.tow_model.specs.declared.account.Role.TheVariants.{Loop, Main, Worker};
ghost use Rattle.tow_board.specs.Idle.{IsIdle};

use crate::{Board, BoardSeat, Claim, Held, Open, Owner, Post, To};
use std::sync::Wait;
use std::sync::atomic::{AtomicU64, Ordering};
use std::test::Fail;
use std::thread;
use std::thread::Threads;
use tow_model::Role;

// How often each value goes to a worker.
const PASSES: u32 = 1000;

// How many values there are.
const VALUES: u32 = 64;

// How often a thread goes over all slots at most.
const TURNS: u32 = 10_000_000;

// A value with a number, of the loop that the number gives, and with so many places for hops.
#[derive(Drop)]
struct Ball {
    number: u32,
    passes: u32,
    spare: u32,
}

impl Held for Ball {
    ghost use Rattle.std.specs.Prelude.{◌≡◌, ◌+◌, ◌<◌, ◌≤◌, ◌%◌, ℕ, false};
    ghost use Rattle.std.proofs.Common.{refl};
    ghost use Rattle.std.proofs.Math.Nat.{le_refl, le_trans};
    ghost use Rattle.tow_board.specs.declared.owner.To.TheVariants.{Loop};

    type Origin = u32;

    type Mark = u32;

    ghost fits = { λ n to x. (0 < x.spare) × ((l : ℕ) → to ≡ Loop l → l ≡ x.number % n) };

    ghost origin = { λ x. x.number };

    ghost number = { λ o. o };

    ghost loop_of = { λ n o. o % n };

    ghost mark = { λ x. x.passes };

    ghost fresh = { λ m. m ≡ 0 };

    ghost follows = { λ later earlier. earlier ≤ later };

    ghost tells = { λ m a. false };

    ghost spare = { λ x. x.spare };

    ghost fits_one_loop = { λ n l x fit. fit.1 l refl };

    ghost follows_itself = { λ m. le_refl m };

    ghost follows_on = { λ a b c first second. le_trans second first };

    ghost fresh_tells_none = { λ m a fresh. refl };

    ghost came = { λ before role after. (after.spare + 1 ≡ before.spare) };

    fn arrived(&mut self, _role: Role) {
        self.spare -= 1;
    }
}

#[test]
fn words_of_owners(rt: HostRuntime) -> Result<(), Fail> {
    let rows = [
        (Owner::Free, 0),
        (Owner::Hand, 1),
        (Owner::Waiting(To::Pool), 2),
        (Owner::Waiting(To::Main), 3),
        (Owner::Waiting(To::Loop(0)), 4),
        (Owner::Waiting(To::Loop(15)), 19),
    ];
    for (owner, word) in rows {
        assert_eq!(rt; owner.word(), word);
        assert_eq!(rt; Owner::at(word), owner);
    }
    assert_eq!(rt; To::claimed_by(Role::Main), To::Main);
    assert_eq!(rt; To::claimed_by(Role::Loop(3)), To::Loop(3));
    assert_eq!(rt; To::claimed_by(Role::Worker(3)), To::Pool);
    Ok(())
}

// A loop claims the slot, and sends its value to main after so many passes, else to the pool.
fn serve_loop(board: &Board<Ball>, seat: &mut BoardSeat<Ball>, slot: u32, number: u32) -> bool
    requires idle { IsIdle board.now.table.shared.table_id 2 (Loop number) seat.old.seat.table_id seat.old.role seat.old.seat.me.0 }
    requires slot { slot < board.now.slots }
    ensures { IsIdle board.now.table.shared.table_id 2 (Loop number) seat.new.seat.table_id seat.new.role seat.new.seat.me.0 }
{
    if board.claim(seat, slot, To::Loop(number).code()) != Claim::Yours {
        return false;
    }
    let mut ball = board.take(seat, slot);
    ball.spare = 2;
    let ends = ball.passes == PASSES;
    let to = if ends { To::Main } else { To::Pool };
    board.put(seat, slot, ball);
    board.publish(seat, slot, to);
    ends
}

// A worker claims the slot, and sends its value back to its loop.
fn serve_worker(board: &Board<Ball>, seat: &mut BoardSeat<Ball>, slot: u32, number: u32)
    requires idle { IsIdle board.now.table.shared.table_id 2 (Worker number) seat.old.seat.table_id seat.old.role seat.old.seat.me.0 }
    requires slot { slot < board.now.slots }
    requires loops { board.now.loops ≡ 2 }
    ensures { IsIdle board.now.table.shared.table_id 2 (Worker number) seat.new.seat.table_id seat.new.role seat.new.seat.me.0 }
{
    if board.claim(seat, slot, To::Pool.code()) != Claim::Yours {
        return;
    }
    let mut ball = board.take(seat, slot);
    ball.spare = 2;
    ball.passes = ball.passes.saturating_add(1);
    let to = To::Loop(ball.number % 2);
    board.put(seat, slot, ball);
    board.publish(seat, slot, to);
}

#[test]
fn one_slot_from_main_to_a_loop(rt: HostRuntime) -> Result<(), Fail> {
    let (board, mut main) = Board::<Ball>::new(rt.alloc(), 1, 1)?;
    assert_eq!(rt; board.slots(), 1);
    assert_eq!(rt; board.loops(), 1);
    assert_eq!(rt; board.open_new(&mut main), Open::Slot(0));
    assert_eq!(rt; board.open_new(&mut main), Open::Full);
    board.put(
        &mut main,
        0,
        Ball {
            number: 7,
            passes: 0,
            spare: 3,
        },
    );
    board.publish(&mut main, 0, To::Loop(0));
    let mut worker = board.split(&mut main, Role::Worker(0));
    let mut looper = board.split(&mut main, Role::Loop(0));
    assert_eq!(rt;
        board.claim(&mut worker, 0, To::Pool.code()),
        Claim::Missed(4)
    );
    assert_eq!(rt;
        board.claim(&mut looper, 0, To::Loop(0).code()),
        Claim::Yours
    );
    let ball = board.take(&mut looper, 0);
    assert_eq!(rt; ball.number, 7);
    assert_eq!(rt; ball.spare, 2);
    Ok(())
}

#[test]
fn a_slot_is_opened_again(rt: HostRuntime) -> Result<(), Fail> {
    let (board, mut main) = Board::<Ball>::new(rt.alloc(), 2, 1)?;
    assert_eq!(rt; board.open_new(&mut main), Open::Slot(0));
    assert_eq!(rt; board.open_new(&mut main), Open::Slot(1));
    board.retire(&mut main, 0);
    assert_eq!(rt; board.open_new(&mut main), Open::Slot(0));
    board.retire(&mut main, 1);
    board.retire(&mut main, 0);
    let worker = board.split(&mut main, Role::Worker(0));
    board.join(&mut main, worker);
    board.close(main);
    Ok(())
}

// A loop's thread, until all values went to main or its turns run out.
fn run_loop(
    board: &Board<Ball>,
    mut seat: BoardSeat<Ball>,
    number: u32,
    done: &AtomicU64,
) -> BoardSeat<Ball>
    requires idle { IsIdle board.now.table.shared.table_id 2 (Loop number) seat.seat.table_id seat.role seat.seat.me.0 }
    ensures { IsIdle board.now.table.shared.table_id 2 (Loop number) result.seat.table_id result.role result.seat.me.0 }
{
    for _ in 0..TURNS {
        if done.load(Ordering::SeqCst) == VALUES as u64 {
            break;
        }
        for slot in 0..board.slots() {
            if serve_loop(board, &mut seat, slot, number) {
                done.fetch_add(1, Ordering::SeqCst);
            }
        }
        thread::yield_now();
    }
    seat
}

// A worker's thread.
fn run_worker(
    board: &Board<Ball>,
    mut seat: BoardSeat<Ball>,
    number: u32,
    done: &AtomicU64,
) -> BoardSeat<Ball>
    requires idle { IsIdle board.now.table.shared.table_id 2 (Worker number) seat.seat.table_id seat.role seat.seat.me.0 }
    requires loops { board.now.loops ≡ 2 }
    ensures { IsIdle board.now.table.shared.table_id 2 (Worker number) result.seat.table_id result.role result.seat.me.0 }
{
    for _ in 0..TURNS {
        if done.load(Ordering::SeqCst) == VALUES as u64 {
            break;
        }
        for slot in 0..board.slots() {
            serve_worker(board, &mut seat, slot, number);
        }
        thread::yield_now();
    }
    seat
}

// Main opens a slot for the value with that number, and publishes it.
fn start(board: &Board<Ball>, main: &mut BoardSeat<Ball>, number: u32)
    requires idle { IsIdle board.now.table.shared.table_id 2 Main main.old.seat.table_id main.old.role main.old.seat.me.0 }
    requires above { All (λ n. n < number) main.old.seat.me.0.numbers }
    requires loops { board.now.loops ≡ 2 }
    ensures idle { IsIdle board.now.table.shared.table_id 2 Main main.new.seat.table_id main.new.role main.new.seat.me.0 }
    ensures above { All (λ n. n < number + 1) main.new.seat.me.0.numbers }
    ensures given { main.new.seat.me.0.given ≡ main.old.seat.me.0.given }
{
    let Open::Slot(slot) = board.open_new(main) else {
        return;
    };
    board.put(
        main,
        slot,
        Ball {
            number,
            passes: 0,
            spare: 2,
        },
    );
    board.publish(main, slot, To::Loop(number % 2));
}

// The number of the value that came back to main, and how often a worker had it.
fn collect(board: &Board<Ball>, main: &mut BoardSeat<Ball>, slot: u32) -> Option<(u32, u32)>
    requires idle { IsIdle board.now.table.shared.table_id 2 Main main.old.seat.table_id main.old.role main.old.seat.me.0 }
    requires slot { slot < board.now.slots }
    ensures { IsIdle board.now.table.shared.table_id 2 Main main.new.seat.table_id main.new.role main.new.seat.me.0 }
{
    if board.claim(main, slot, To::Main.code()) != Claim::Yours {
        return None;
    }
    let ball = board.take(main, slot);
    board.retire(main, slot);
    Some((ball.number, ball.passes))
}

// Both loops.
fn run_loops<R: Threads + Sync>(
    rt: &R,
    board: &Board<Ball>,
    one: BoardSeat<Ball>,
    two: BoardSeat<Ball>,
    done: &AtomicU64,
)
    requires one { IsIdle board.now.table.shared.table_id 2 (Loop 0) one.seat.table_id one.role one.seat.me.0 }
    requires two { IsIdle board.now.table.shared.table_id 2 (Loop 1) two.seat.table_id two.role two.seat.me.0 }
{
    thread::join(
        rt,
        move ||
            requires { IsIdle board.now.table.shared.table_id 2 (Loop 0) one.seat.table_id one.role one.seat.me.0 }
        {
            run_loop(board, one, 0, done);
        },
        move ||
            requires { IsIdle board.now.table.shared.table_id 2 (Loop 1) two.seat.table_id two.role two.seat.me.0 }
        {
            run_loop(board, two, 1, done);
        },
    );
}

// Both workers.
fn run_workers<R: Threads + Sync>(
    rt: &R,
    board: &Board<Ball>,
    one: BoardSeat<Ball>,
    two: BoardSeat<Ball>,
    done: &AtomicU64,
)
    requires one { IsIdle board.now.table.shared.table_id 2 (Worker 0) one.seat.table_id one.role one.seat.me.0 }
    requires two { IsIdle board.now.table.shared.table_id 2 (Worker 1) two.seat.table_id two.role two.seat.me.0 }
    requires loops { board.now.loops ≡ 2 }
{
    thread::join(
        rt,
        move ||
            requires { IsIdle board.now.table.shared.table_id 2 (Worker 0) one.seat.table_id one.role one.seat.me.0 × (board.now.loops ≡ 2) }
        {
            run_worker(board, one, 0, done);
        },
        move ||
            requires { IsIdle board.now.table.shared.table_id 2 (Worker 1) two.seat.table_id two.role two.seat.me.0 × (board.now.loops ≡ 2) }
        {
            run_worker(board, two, 1, done);
        },
    );
}

// The seats of two loops and of two workers.
#[derive(Drop)]
struct Seats {
    loops: (BoardSeat<Ball>, BoardSeat<Ball>),
    workers: (BoardSeat<Ball>, BoardSeat<Ball>),
}

// All values go round in four threads. Whether all came back to main.
fn run_all<R: Threads + Sync>(rt: &R, board: &Board<Ball>, seats: Seats) -> bool
    requires first { IsIdle board.now.table.shared.table_id 2 (Loop 0) seats.loops.0.seat.table_id seats.loops.0.role seats.loops.0.seat.me.0 }
    requires second { IsIdle board.now.table.shared.table_id 2 (Loop 1) seats.loops.1.seat.table_id seats.loops.1.role seats.loops.1.seat.me.0 }
    requires third { IsIdle board.now.table.shared.table_id 2 (Worker 0) seats.workers.0.seat.table_id seats.workers.0.role seats.workers.0.seat.me.0 }
    requires fourth { IsIdle board.now.table.shared.table_id 2 (Worker 1) seats.workers.1.seat.table_id seats.workers.1.role seats.workers.1.seat.me.0 }
    requires loops { board.now.loops ≡ 2 }
{
    let Seats {
        loops: (one, two),
        workers: (three, four),
    } = seats;
    let done = AtomicU64::new(0);
    let count = &done;
    thread::join(
        rt,
        move ||
            requires { (IsIdle board.now.table.shared.table_id 2 (Loop 0) one.seat.table_id one.role one.seat.me.0) × (IsIdle board.now.table.shared.table_id 2 (Loop 1) two.seat.table_id two.role two.seat.me.0) }
        {
            run_loops(rt, board, one, two, count);
        },
        move ||
            requires { (IsIdle board.now.table.shared.table_id 2 (Worker 0) three.seat.table_id three.role three.seat.me.0) × (IsIdle board.now.table.shared.table_id 2 (Worker 1) four.seat.table_id four.role four.seat.me.0) × (board.now.loops ≡ 2) }
        {
            run_workers(rt, board, three, four, count);
        },
    );
    done.load(Ordering::SeqCst) == VALUES as u64
}

// Main starts all values, in their order.
fn start_all(board: &Board<Ball>, main: &mut BoardSeat<Ball>)
    requires idle { IsIdle board.now.table.shared.table_id 2 Main main.old.seat.table_id main.old.role main.old.seat.me.0 }
    requires new { (main.old.seat.me.0.numbers ≡ []) × (main.old.seat.me.0.given ≡ []) }
    requires loops { board.now.loops ≡ 2 }
    ensures idle { IsIdle board.now.table.shared.table_id 2 Main main.new.seat.table_id main.new.role main.new.seat.me.0 }
    ensures given { main.new.seat.me.0.given ≡ [] }
{
    for number in 0..VALUES {
        start(board, main, number);
    }
}

// How often each value came back to main after all its passes.
fn collect_all(board: &Board<Ball>, main: &mut BoardSeat<Ball>, counts: &mut Vec<u32>)
    requires idle { IsIdle board.now.table.shared.table_id 2 Main main.old.seat.table_id main.old.role main.old.seat.me.0 }
    ensures idle { IsIdle board.now.table.shared.table_id 2 Main main.new.seat.table_id main.new.role main.new.seat.me.0 }
{
    for slot in 0..board.slots() {
        let Some((number, passes)) = collect(board, main, slot) else {
            continue;
        };
        if passes == PASSES {
            if let Some(count) = counts.get_mut(number as usize) {
                *count = count.saturating_add(1);
            }
        }
    }
}

#[test]
fn no_value_is_lost_or_doubled_between_four_threads(rt: HostRuntime) -> Result<(), Fail> {
    let (board, mut main) = Board::<Ball>::new(rt.alloc(), VALUES, 2)?;
    start_all(&board, &mut main);
    let seats = Seats {
        loops: (
            board.split(&mut main, Role::Loop(0)),
            board.split(&mut main, Role::Loop(1)),
        ),
        workers: (
            board.split(&mut main, Role::Worker(0)),
            board.split(&mut main, Role::Worker(1)),
        ),
    };
    assert!(rt; run_all(&rt, &board, seats));
    let mut counts = vec![in rt.alloc(); 0u32; VALUES as usize]?;
    collect_all(&board, &mut main, &mut counts);
    for count in counts {
        assert_eq!(rt; count, 1);
    }
    Ok(())
}

// Takes the hint of that slot, after at most 200 times of waiting.
fn wait_for<R: Wait>(rt: &R, post: &Post, slot: u32) -> bool {
    for _ in 0..200 {
        if let Some(hinted) = post.next_hint(rt) {
            return hinted == slot;
        }
    }
    false
}

// Gives the hint after a while.
fn hint_later<R: Wait>(rt: &R, post: &Post, slot: u32) {
    for _ in 0..1000 {
        thread::yield_now();
    }
    post.hint(rt, slot);
}

#[test]
fn a_worker_that_sleeps_wakes_by_a_hint(rt: HostRuntime) -> Result<(), Fail> {
    let post = Post::new(rt.alloc(), 2)?;
    let (shared, handle) = (&post, &rt);
    let (found, ()) = thread::join(
        &rt,
        move || wait_for(handle, shared, 7),
        move || hint_later(handle, shared, 7),
    );
    assert!(rt; found);
    Ok(())
}

#[test]
fn hints_come_in_their_order_and_end(rt: HostRuntime) -> Result<(), Fail> {
    let post = Post::new(rt.alloc(), 2)?;
    for slot in 3..6 {
        post.hint(&rt, slot);
    }
    // The third one found the post full.
    assert_eq!(rt; post.next_hint(&rt), Some(3));
    assert_eq!(rt; post.next_hint(&rt), Some(4));
    assert!(rt; !post.stopped());
    post.stop();
    assert!(rt; post.stopped());
    assert_eq!(rt; post.next_hint(&rt), None);
    Ok(())
}
