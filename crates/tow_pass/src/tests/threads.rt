//! Ten threads at a limit of three.

ghost use Rattle.std.specs.Prelude.{◌≡◌, ◌<◌, ◌≤◌, length, All, IfOk};
ghost use Rattle.tow_pass.specs.Shown.{AreUpTo, IsIssued, IsMains};

use crate::{Limits, Pass};
use std::alloc::{AllocError, Global};
use std::sync::Wait;
use std::sync::atomic::{AtomicU64, Ordering};
use std::test::Fail;
use std::thread;
use tow_model::{Bound, Verdict};

const VISITS: u32 = 200;

/// A connection that comes again and again, and how often it was admitted.
#[derive(Drop)]
struct Visitor {
    pass: Pass,
    admitted: u64,
    crowded: bool,
}

impl Visitor {
    // Asks for a place, and gives it back. The counter shows how many are inside.
    fn visit<R: Wait>(&mut self, rt: &R, limits: &Limits, inside: &AtomicU64, request: u32)
        requires limits { self.old.pass.limits ≡ limits.now.name }
        requires limit { 0 < length limits.now.bounds }
        requires pass { IsIssued self.old.pass.view × AreUpTo request self.old.pass.view }
        ensures limits { self.new.pass.limits ≡ self.old.pass.limits }
        ensures pass { IsIssued self.new.pass.view × AreUpTo request self.new.pass.view }
    {
        if limits.enter(rt, &mut self.pass, 0, request) == Verdict::Refused {
            return;
        }
        self.admitted = self.admitted.wrapping_add(1);
        if inside.fetch_add(1, Ordering::SeqCst) >= 3 {
            self.crowded = true;
        }
        thread::yield_now();
        inside.fetch_sub(1, Ordering::SeqCst);
        limits.leave(&mut self.pass, 0, request);
    }

    fn visit_all<R: Wait>(&mut self, rt: &R, limits: &Limits, inside: &AtomicU64)
        requires limits { self.old.pass.limits ≡ limits.now.name }
        requires limit { 0 < length limits.now.bounds }
        requires pass { IsIssued self.old.pass.view × AreUpTo 0 self.old.pass.view }
        ensures limits { self.new.pass.limits ≡ self.old.pass.limits }
        ensures pass { IsIssued self.new.pass.view }
    {
        for request in 0..VISITS {
            self.visit(rt, limits, inside, request);
        }
    }
}

// So many visitors, each with a pass of its own.
fn visitors(alloc: Global, limits: &Limits, main: &mut Pass) -> Result<Vec<Visitor>, AllocError>
    requires limits { main.old.limits ≡ limits.now.name }
    requires main { IsMains main.old.view }
    ensures limits { main.new.limits ≡ main.old.limits }
    ensures main { IsMains main.new.view }
    ensures visitors { IfOk result (λ v. All (λ x. (x.pass.limits ≡ limits.now.name)
        × IsIssued x.pass.view × AreUpTo 0 x.pass.view) v.items) }
{
    let mut visitors = Vec::new(alloc);
    for _ in 0..10 {
        visitors.push(Visitor {
            pass: limits.issue(main),
            admitted: 0,
            crowded: false,
        })?;
    }
    Ok(visitors)
}

#[test]
fn at_most_three_of_ten_threads_are_inside(rt: HostRuntime) -> Result<(), Fail> {
    let (limits, mut main) = Limits::new(rt.alloc(), &[Bound { most: 3 }])?;
    let mut visitors = visitors(rt.alloc(), &limits, &mut main)?;
    let inside = AtomicU64::new(0);
    let (handle, shared, counter) = (&rt, &limits, &inside);
    let threads = visitors.len();
    if threads == 0 {
        return Ok(());
    }
    thread::for_each_mut(
        &rt,
        visitors.as_mut_slice(),
        threads,
        &|_, visitor: &mut Visitor|
            requires { (visitor.now.pass.limits ≡ shared.now.name) × (0 < length shared.now.bounds)
                × IsIssued visitor.now.pass.view × AreUpTo 0 visitor.now.pass.view }
            ensures { (visitor.exit.now.pass.limits ≡ shared.entry.now.name)
                × IsIssued visitor.exit.now.pass.view }
        { visitor.visit_all(handle, shared, counter) },
    );
    let mut admitted = 0u64;
    for visitor in visitors.as_slice() {
        assert!(rt; !visitor.crowded);
        admitted = admitted.wrapping_add(visitor.admitted);
    }
    assert!(rt; admitted > 0);
    assert_eq!(rt; inside.load(Ordering::SeqCst), 0);
    Ok(())
}
