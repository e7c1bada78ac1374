//! Hints by which workers find work sooner. No answer rests on them: the words of a board's slots
//! decide.
ghost use Rattle.std.specs.Prelude.{◌<◌};

use crossbeam_queue::ArrayQueue;
use std::alloc::Global;
use std::sync::Wait;
use std::sync::atomic::{AtomicBool, AtomicU64, Ordering};
use std::thread;
use std::time::Duration;
use tow_model::NoMemory;

/// How often a worker that finds no hint looks again, and lets other threads run, before it sleeps.
const LOOKS: u32 = 20;

/// How many milliseconds a worker sleeps at most. After them it looks over all slots.
const NAP: u64 = 50;

/// Numbers of slots that were published for the pool, and whether the workers are to end.
#[derive(Drop)]
pub struct Post {
    hints: ArrayQueue<u32, Global>,
    // Rises with each hint, so that a worker does not fall asleep over one that it did not see.
    rung: AtomicU64,
    sleepers: AtomicU64,
    stopped: AtomicBool,
}

impl Post {
    /// A post for so many hints at a time. Takes memory for all of them.
    pub fn new(alloc: Global, slots: u32) -> Result<Post, NoMemory>
        requires { 0 < slots }
    {
        let hints = ArrayQueue::new(alloc, slots as usize)?;
        Ok(Post {
            hints,
            rung: AtomicU64::new(0),
            sleepers: AtomicU64::new(0),
            stopped: AtomicBool::new(false),
        })
    }

    /// Says that the slot waits for the pool, and wakes a worker. Where the post is full the hint is
    /// dropped.
    pub fn hint<R: Wait>(&self, rt: &R, slot: u32) {
        if self.hints.push(rt, slot).is_err() {
            return;
        }
        self.rung.fetch_add(1, Ordering::SeqCst);
        if self.sleepers.load(Ordering::SeqCst) > 0 {
            self.rung.wake_one();
        }
    }

    /// The oldest hint. Where there is none it sleeps until one comes, until `stop`, or for 50
    /// milliseconds.
    pub fn next_hint<R: Wait>(&self, rt: &R) -> Option<u32> {
        let seen = self.rung.load(Ordering::SeqCst);
        if let Some(slot) = self.look(rt) {
            return Some(slot);
        }
        if !self.stopped() {
            self.sleepers.fetch_add(1, Ordering::SeqCst);
            let low = (seen % 4_294_967_296) as u32;
            self.rung.park_timeout(rt, low, Duration::from_millis(NAP));
            self.sleepers.fetch_sub(1, Ordering::SeqCst);
        }
        self.hints.pop(rt)
    }

    // A hint that comes soon.
    fn look<R: Wait>(&self, rt: &R) -> Option<u32> {
        for _ in 0..LOOKS {
            if let Some(slot) = self.hints.pop(rt) {
                return Some(slot);
            }
            thread::yield_now();
        }
        None
    }

    /// Tells all workers to end, and wakes them.
    pub fn stop(&self) {
        self.stopped.store(true, Ordering::SeqCst);
        self.rung.fetch_add(1, Ordering::SeqCst);
        self.rung.wake_all();
    }

    /// Whether `stop` was called.
    pub fn stopped(&self) -> bool {
        self.stopped.load(Ordering::SeqCst)
    }
}
