//! Rows of calls of a count, at limits of none, of one place, of a few, and of the most places that a text gives.

use crate::Count;
use std::test::Fail;
use tow_model::{Verdict, What};

const IN: What = What::Enter(Verdict::Admitted);

const OUT: What = What::Leave;

const REFUSED: What = What::Enter(Verdict::Refused);

/// How many are admitted at a time, the calls with what is answered, and how many are inside then.
type Row = (u32, &'static [What], u32);

const ROWS: [Row; 12] = [
    (1, &[], 0),
    (1, &[IN], 1),
    (1, &[IN, REFUSED], 1),
    // an exchange that is restarted meets its limit of one again while it is inside: it is refused, and leaves once
    (1, &[IN, REFUSED, OUT], 0),
    (1, &[IN, REFUSED, OUT, IN], 1),
    (1, &[IN, OUT, IN, OUT, IN, REFUSED, REFUSED], 1),
    (2, &[IN, IN, REFUSED, OUT, IN, REFUSED], 2),
    (2, &[IN, IN, OUT, OUT, IN], 1),
    (3, &[IN, IN, IN, REFUSED, OUT, OUT, IN, IN, REFUSED], 3),
    (0, &[], 0),
    (0, &[REFUSED, REFUSED], 0),
    (65_535, &[IN, IN, IN, OUT], 2),
];

/// Whether the count answers a call so. One that is empty is left by nobody.
fn answers(count: &mut Count, call: What) -> bool {
    match call {
        What::Enter(verdict) => count.enter() == verdict,
        What::Leave => {
            let some_inside = count.inside() > 0;
            if some_inside {
                count.leave();
            }
            some_inside
        }
    }
}

/// The first call that a count answers in another way.
fn first_other(count: &mut Count, calls: &[What]) -> Option<usize> {
    for (i, call) in calls.iter().enumerate() {
        if !answers(count, *call) {
            return Some(i);
        }
    }
    None
}

#[test]
fn counts_answer_as_in_the_rows(rt: HostRuntime) -> Result<(), Fail> {
    for (i, (most, calls, inside)) in ROWS.iter().enumerate() {
        let mut count = Count::new(*most);
        assert_eq!(rt; first_other(&mut count, calls), None, "row {i}");
        assert_eq!(rt; count.inside(), *inside, "row {i}");
    }
    Ok(())
}

#[test]
fn the_most_places_of_a_text_are_all_given(rt: HostRuntime) -> Result<(), Fail> {
    let mut count = Count::new(65_535);
    for _ in 0..65_535 {
        assert_eq!(rt; count.enter(), Verdict::Admitted);
    }
    assert_eq!(rt; count.enter(), Verdict::Refused);
    assert_eq!(rt; count.inside(), 65_535);
    assert!(rt; answers(&mut count, What::Leave));
    assert_eq!(rt; count.enter(), Verdict::Admitted);
    assert_eq!(rt; count.enter(), Verdict::Refused);
    Ok(())
}
