//! Each call of limits and passes, on one thread.

use crate::{Limits, Pass};
use std::test::Fail;
use tow_model::{Bound, Verdict};

#[test]
fn a_place_is_given_again_after_a_leave(rt: HostRuntime) -> Result<(), Fail> {
    let (limits, mut main) = Limits::new(rt.alloc(), &[Bound { most: 1 }])?;
    let mut first = limits.issue(&mut main);
    let mut second = limits.issue(&mut main);
    let (one, two): (&mut Pass, &mut Pass) = (&mut first, &mut second);
    assert!(rt; limits.enter(&rt, one, 0, 1) == Verdict::Admitted);
    assert!(rt; limits.enter(&rt, two, 0, 1) == Verdict::Refused);
    limits.leave(one, 0, 1);
    assert!(rt; limits.enter(&rt, two, 0, 2) == Verdict::Admitted);
    assert!(rt; limits.enter(&rt, one, 0, 1) == Verdict::Refused);
    limits.leave(two, 0, 2);
    limits.collect(&mut main, first);
    limits.collect(&mut main, second);
    Ok(())
}
