//! Where paths lead to along tests that fail: places written by hand, each against a walk that asks one test after the
//! other, and many small programs against that walk.

use crate::{Instruction, Program};
use std::alloc::{AllocError, Global};
use std::process::Abort;
use std::test::Fail;
use tow_model::{Action, Bytes, List, NoMemory, Test};

/// An instruction, whose numbers say how many are passed over where the test holds, and where it fails.
#[derive(Clone, Copy)]
enum Step {
    Path(&'static [&'static str], usize, usize),
    Prefix(&'static [&'static str], usize, usize),
    Other(usize, usize),
    Act,
    Skip(usize),
}

/// `path`, `path-prefix` and again `path` statements one after the other, some of several values and some of equal ones.
const RUN: &[Step] = &[
    Step::Path(&["/a"], 0, 1),
    Step::Act,
    Step::Path(&["/b", "/c"], 0, 1),
    Step::Act,
    Step::Prefix(&["/d", "/e/f"], 0, 2),
    Step::Act,
    Step::Act,
    Step::Path(&["/b", "/d", "/g"], 0, 1),
    Step::Act,
    Step::Prefix(&["/d/x", ""], 0, 1),
    Step::Act,
    Step::Act,
];

/// A run, an `else` part that breaks it, and a run behind that.
const BROKEN: &[Step] = &[
    Step::Path(&["/a"], 0, 1),
    Step::Act,
    Step::Path(&["/b"], 0, 2),
    Step::Act,
    Step::Skip(1),
    Step::Act,
    Step::Path(&["/a"], 0, 1),
    Step::Act,
    Step::Path(&["/c"], 0, 1),
    Step::Act,
];

/// `else` parts that are statements of a path themselves.
const ELSE_IF: &[Step] = &[
    Step::Path(&["/a"], 0, 2),
    Step::Act,
    Step::Skip(7),
    Step::Prefix(&["/b"], 0, 2),
    Step::Act,
    Step::Skip(3),
    Step::Path(&["/c"], 0, 2),
    Step::Act,
    Step::Skip(0),
    Step::Act,
];

/// Conditions within conditions: each of the inner ones leads to the next outer one when the last one fails.
const NESTED: &[Step] = &[
    Step::Prefix(&["/a"], 0, 4),
    Step::Path(&["/a/b"], 0, 1),
    Step::Act,
    Step::Path(&["/a/c"], 0, 1),
    Step::Act,
    Step::Prefix(&["/b"], 0, 4),
    Step::Path(&["/b/b"], 0, 1),
    Step::Act,
    Step::Path(&["/b/c"], 0, 1),
    Step::Act,
    Step::Path(&["/c", "/a/d"], 0, 1),
    Step::Act,
];

/// `or`, `and` and `not` of paths, and tests of other kinds among them.
const MIXED: &[Step] = &[
    Step::Path(&["/a"], 1, 0),
    Step::Prefix(&["/b"], 0, 1),
    Step::Act,
    Step::Prefix(&["/c"], 0, 2),
    Step::Other(0, 1),
    Step::Act,
    Step::Path(&["/c/d"], 1, 0),
    Step::Act,
    Step::Other(0, 1),
    Step::Act,
    Step::Path(&[], 0, 1),
    Step::Act,
    Step::Prefix(&["/e"], 0, usize::MAX),
    Step::Act,
];

/// Instructions, a place, a path, and the place that it leads to.
type Row = (&'static [Step], usize, &'static str, usize);

const ROWS: &[Row] = &[
    (&[], 0, "/a", 0),
    (&[], 5, "/a", 5),
    (RUN, 0, "/a", 0),
    (RUN, 0, "/b", 2),
    (RUN, 0, "/c", 2),
    (RUN, 0, "/d", 4),
    (RUN, 0, "/d/x", 4),
    (RUN, 0, "/dx", 9),
    (RUN, 0, "/e", 9),
    (RUN, 0, "/e/f/g", 4),
    (RUN, 0, "/g", 7),
    (RUN, 0, "", 9),
    (RUN, 0, "*", 11),
    (RUN, 1, "/b", 1),
    (RUN, 2, "/a", 9),
    (RUN, 4, "/b", 7),
    (RUN, 7, "/d/x", 9),
    (RUN, 7, "/d", 7),
    (RUN, 8, "*", 8),
    (RUN, 9, "*", 11),
    (RUN, 10, "*", 10),
    (RUN, 12, "*", 12),
    (RUN, 99, "/a", 99),
    (BROKEN, 0, "/a", 0),
    (BROKEN, 0, "/b", 2),
    (BROKEN, 0, "/c", 5),
    (BROKEN, 6, "/a", 6),
    (BROKEN, 6, "/c", 8),
    (BROKEN, 6, "/b", 10),
    (ELSE_IF, 0, "/a", 0),
    (ELSE_IF, 0, "/b/x", 3),
    (ELSE_IF, 0, "/c", 6),
    (ELSE_IF, 0, "/d", 9),
    (ELSE_IF, 6, "/a", 9),
    (NESTED, 0, "/a/b", 0),
    (NESTED, 1, "/a/b", 1),
    (NESTED, 1, "/a/c", 3),
    (NESTED, 1, "/a/d", 10),
    (NESTED, 1, "/b/c", 5),
    (NESTED, 6, "/b/c", 8),
    (NESTED, 6, "/b/d", 12),
    (NESTED, 3, "/c", 10),
    (MIXED, 0, "/a", 0),
    (MIXED, 0, "/b", 1),
    (MIXED, 0, "/c", 3),
    (MIXED, 0, "/d", 7),
    (MIXED, 6, "/c/d", 6),
    (MIXED, 8, "/d", 8),
    (MIXED, 10, "/e/x", 12),
    (MIXED, 10, "/d", 14),
    (MIXED, 12, "/d", 14),
];

fn paths_of(alloc: Global, texts: &[&str]) -> Result<List<Bytes>, AllocError> {
    let mut paths = List::new(alloc);
    for text in texts {
        paths.push(Bytes::from_slice(alloc, text.as_bytes())?)?;
    }
    Ok(paths)
}

fn instruction(alloc: Global, step: Step) -> Result<Instruction, AllocError> {
    let (test, holds, fails) = match step {
        Step::Path(texts, holds, fails) => (Test::Path(paths_of(alloc, texts)?), holds, fails),
        Step::Prefix(texts, holds, fails) => (Test::Prefix(paths_of(alloc, texts)?), holds, fails),
        Step::Other(holds, fails) => (Test::Suffix(paths_of(alloc, &["/a"])?), holds, fails),
        Step::Act => return Ok(Instruction::Do(Action::Done)),
        Step::Skip(passed) => return Ok(Instruction::Skip(passed)),
    };
    Ok(Instruction::Ask { test, holds, fails })
}

fn program(alloc: Global, steps: &[Step]) -> Result<Program, NoMemory> {
    let mut instructions = List::new(alloc);
    for step in steps {
        instructions.push(instruction(alloc, *step)?)?;
    }
    Program::new(alloc, instructions)
}

fn lies_under(path: &[u8], prefix: &[u8]) -> bool {
    match path.strip_prefix(prefix) {
        Some(rest) => rest.is_empty() || rest.starts_with(b"/"),
        None => false,
    }
}

/// How many steps a test of literal paths passes over that fails for the path.
fn failing(step: Step, path: &[u8]) -> Option<usize> {
    let (holds, fails) = match step {
        Step::Path(texts, _, fails) => (texts.iter().any(|text| text.as_bytes() == path), fails),
        Step::Prefix(texts, _, fails) => (
            texts.iter().any(|text| lies_under(path, text.as_bytes())),
            fails,
        ),
        Step::Other(..) | Step::Act | Step::Skip(_) => return None,
    };
    if holds { None } else { Some(fails) }
}

/// Where a walk comes to that asks one test after the other.
fn walked(steps: &[Step], from: usize, path: &[u8]) -> usize {
    let mut at = from;
    for _ in steps {
        let Some(step) = steps.get(at) else {
            return at;
        };
        let Some(fails) = failing(*step, path) else {
            return at;
        };
        at = at.saturating_add(1).saturating_add(fails).min(steps.len());
    }
    at
}

fn expect_all(rt: &impl Abort, alloc: Global, rows: &[Row]) -> Result<(), Fail> {
    for (number, (steps, at, path, wanted)) in rows.iter().enumerate() {
        let program = program(alloc, steps)?;
        let path = path.as_bytes();
        assert_eq!(rt; program.skip(*at, path), *wanted, "row {number}");
        assert_eq!(rt; walked(steps, *at, path), *wanted, "row {number}, walked");
    }
    Ok(())
}

#[test]
fn each_path_leads_where_the_row_says(rt: HostRuntime) -> Result<(), Fail> {
    expect_all(&rt, rt.alloc(), ROWS)
}

const TEXTS: &[&[&str]] = &[
    &["/a"],
    &["/a", "/b"],
    &["/b"],
    &["/a/b"],
    &["/b/a", "/b", "/c"],
    &[],
    &["/c", "/c"],
    &["/c/a"],
];

const PATHS: &[&str] = &[
    "/a", "/b", "/c", "/a/b", "/b/a", "/a/b/c", "/d", "/c/a", "/ab",
];

/// Numbers that are the same in each run.
#[derive(Drop)]
struct Dice(u32);

impl Dice {
    fn roll(&mut self) -> usize {
        self.0 = self.0.wrapping_mul(1_664_525).wrapping_add(1_013_904_223);
        (self.0 >> 8) as usize
    }

    fn step(&mut self) -> Step {
        let (holds, fails) = (self.roll() % 3, self.roll() % 4);
        let texts = TEXTS.get(self.roll() % 8).copied().unwrap_or(&[]);
        match self.roll() % 8 {
            0 => Step::Act,
            1 => Step::Skip(fails),
            2 => Step::Other(holds, fails),
            3 | 4 => Step::Prefix(texts, holds, fails),
            _ => Step::Path(texts, holds, fails),
        }
    }

    fn steps(&mut self, alloc: Global) -> Result<Vec<Step>, AllocError> {
        let mut steps = Vec::new(alloc);
        for _ in 0..self.roll() % 16 {
            steps.push(self.step())?;
        }
        Ok(steps)
    }
}

/// Compares each place and each path of a program with the walk; how many were skipped.
fn compared(rt: &impl Abort, alloc: Global, steps: &[Step]) -> Result<usize, Fail> {
    let program = program(alloc, steps)?;
    let mut skipped = 0usize;
    for at in 0..steps.len() {
        for path in PATHS {
            let path = path.as_bytes();
            let found = program.skip(at, path);
            assert_eq!(rt; found, walked(steps, at, path), "from {at}");
            skipped = skipped.saturating_add(found.saturating_sub(at));
        }
    }
    Ok(skipped)
}

#[test]
fn many_programs_skip_as_a_walk_does(rt: HostRuntime) -> Result<(), Fail> {
    let alloc = rt.alloc();
    let mut dice = Dice(11);
    let mut skipped = 0usize;
    for _ in 0..200u32 {
        let steps = dice.steps(alloc)?;
        skipped = skipped.saturating_add(compared(&rt, alloc, steps.as_slice())?);
    }
    assert!(rt; skipped > 20_000, "{skipped} skipped");
    Ok(())
}

#[test]
fn a_thousand_lines_lead_to_the_last_one(rt: HostRuntime) -> Result<(), Fail> {
    let alloc = rt.alloc();
    let mut instructions = List::new(alloc);
    for n in 0..1_000u32 {
        let path = format!(in alloc; "/a{n}")?;
        let mut paths = List::new(alloc);
        paths.push(Bytes::from_slice(alloc, path.as_bytes())?)?;
        instructions.push(Instruction::Ask {
            test: Test::Path(paths),
            holds: 0,
            fails: 1,
        })?;
        instructions.push(Instruction::Do(Action::Done))?;
    }
    let program = Program::new(alloc, instructions)?;
    assert_eq!(rt; program.skip(0, b"/a0"), 0);
    assert_eq!(rt; program.skip(0, b"/a999"), 1_998);
    assert_eq!(rt; program.skip(4, b"/a1"), 2_000);
    assert_eq!(rt; program.skip(0, b"/b"), 2_000);
    Ok(())
}
