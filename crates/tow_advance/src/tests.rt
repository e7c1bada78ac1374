//! Exchanges that go on by small programs, under roles that change.

ghost use Rattle.std.specs.Prelude.{◌≡◌, ◌<◌, [], IfOk};
ghost use Rattle.tow_model.specs.Dates.{first_undated};
ghost use Rattle.tow_semantics.specs.Predicates.{AreAmong};
ghost use Rattle.tow_advance.specs.Knowing.{instruction_patterns, program_patterns};

use crate::{Next, advance};
use sqlite_items::Items;
use std::alloc::{AllocError, Global};
use std::process::Abort;
use std::test::Fail;
use tow_exchange::Exchange;
use tow_link::PackMaker;
use tow_model::{
    Action, Bytes, Content, Framing, List, NoMemory, Piece, Request, Role, Test, Verdict, Version,
};
use tow_pred::{Scratch, build};
use tow_program::{Instruction, Program};

const MOMENT: u64 = 784_111_777;

/// An instruction of a row.
#[derive(Clone, Copy)]
enum Step {
    /// A test that holds, or that fails and passes over one instruction.
    Ask(bool),
    /// A test of the path that passes over one instruction where it fails.
    Path(&'static str),
    Rewrite(&'static str),
    Skip(usize),
    Code(u16),
    Limit(u32),
    Log(u32),
    Page,
    Echo,
    Blocking,
    Restart,
    Done,
}

/// What an exchange needs, without what belongs to it.
#[derive(Clone, Copy, Debug, PartialEq, Eq)]
enum Need {
    Stop,
    Limit(u32),
    Content,
    Page,
    Worker,
    NoMemory,
}

/// A program; the roles of the calls, over and over; the verdicts; what each call needs; at the end the status and how many
/// listeners there are.
type Row = (
    &'static [Step],
    &'static [Role],
    &'static [Verdict],
    &'static [Need],
    u16,
    usize,
);

const LOOP: &[Role] = &[Role::Loop(0)];

const WORKER: &[Role] = &[Role::Worker(0)];

const BOTH: &[Role] = &[Role::Loop(0), Role::Worker(0)];

/// Paths that are not the request's, one that is, and one that would be too late.
const PATHS: &[Step] = &[
    Step::Path("/a"),
    Step::Code(403),
    Step::Path("/c"),
    Step::Code(403),
    Step::Path("/b"),
    Step::Code(204),
    Step::Path("/b"),
    Step::Code(403),
];

/// Paths of which none is the request's.
const NO_PATH: &[Step] = &[
    Step::Path("/a"),
    Step::Code(403),
    Step::Path("/c"),
    Step::Code(403),
];

/// Paths before a `blocking`, and after it.
const LATE_PATHS: &[Step] = &[
    Step::Path("/a"),
    Step::Code(403),
    Step::Blocking,
    Step::Path("/a"),
    Step::Code(403),
    Step::Path("/b"),
    Step::Code(204),
];

/// A path that becomes another one between two statements.
const REWRITTEN: &[Step] = &[
    Step::Path("/b"),
    Step::Rewrite("/c"),
    Step::Path("/b"),
    Step::Code(403),
    Step::Path("/c"),
    Step::Code(204),
];

const ROWS: &[Row] = &[
    (PATHS, LOOP, &[], &[Need::Stop], 204, 0),
    (NO_PATH, BOTH, &[], &[Need::Worker, Need::Page], 200, 0),
    (LATE_PATHS, BOTH, &[], &[Need::Worker, Need::Stop], 204, 0),
    (REWRITTEN, LOOP, &[], &[Need::Stop], 204, 0),
    (&[], WORKER, &[], &[Need::Page], 200, 0),
    (&[], BOTH, &[], &[Need::Worker, Need::Page], 200, 0),
    (&[Step::Code(204)], LOOP, &[], &[Need::Stop], 204, 0),
    (&[Step::Restart], LOOP, &[], &[Need::Stop], 500, 0),
    (
        &[Step::Ask(false), Step::Code(403), Step::Code(204)],
        LOOP,
        &[],
        &[Need::Stop],
        204,
        0,
    ),
    (
        &[Step::Ask(true), Step::Code(403), Step::Code(204)],
        LOOP,
        &[],
        &[Need::Stop],
        403,
        0,
    ),
    (
        &[Step::Skip(1), Step::Code(403), Step::Code(204)],
        WORKER,
        &[],
        &[Need::Stop],
        204,
        0,
    ),
    (
        &[Step::Skip(usize::MAX), Step::Code(403)],
        WORKER,
        &[],
        &[Need::Page],
        200,
        0,
    ),
    (
        &[Step::Ask(true), Step::Done, Step::Code(204)],
        WORKER,
        &[],
        &[Need::Page],
        200,
        0,
    ),
    (
        &[Step::Limit(3), Step::Restart],
        BOTH,
        &[Verdict::Admitted, Verdict::Refused],
        &[Need::Limit(3), Need::Limit(3), Need::Stop],
        503,
        1,
    ),
    (
        &[Step::Log(0), Step::Log(1), Step::Limit(0), Step::Code(204)],
        LOOP,
        &[Verdict::Admitted],
        &[Need::Limit(0), Need::Stop],
        204,
        3,
    ),
    (
        &[Step::Echo, Step::Code(204)],
        BOTH,
        &[],
        &[Need::Content, Need::Stop],
        200,
        0,
    ),
    (
        &[Step::Blocking, Step::Code(204)],
        BOTH,
        &[],
        &[Need::Worker, Need::Stop],
        204,
        0,
    ),
    (
        &[Step::Blocking, Step::Limit(0), Step::Restart],
        BOTH,
        &[Verdict::Admitted, Verdict::Refused],
        &[
            Need::Worker,
            Need::Limit(0),
            Need::Worker,
            Need::Limit(0),
            Need::Stop,
        ],
        503,
        1,
    ),
    (
        &[Step::Page],
        BOTH,
        &[],
        &[Need::Worker, Need::Page],
        200,
        0,
    ),
];

fn one_text(alloc: Global, text: &str) -> Result<List<Bytes>, AllocError> {
    let mut texts = List::new(alloc);
    texts.push(Bytes::from_slice(alloc, text.as_bytes())?)?;
    Ok(texts)
}

fn template(alloc: Global, text: &str) -> Result<List<Piece>, AllocError> {
    let mut pieces = List::new(alloc);
    pieces.push(Piece::Literal(Bytes::from_slice(alloc, text.as_bytes())?))?;
    Ok(pieces)
}

fn instruction(alloc: Global, step: Step) -> Result<Instruction, AllocError>
    ensures { IfOk result (λ i. instruction_patterns i ≡ []) }
{
    let action = match step {
        Step::Ask(holds) => {
            return Ok(Instruction::Ask {
                test: if holds { Test::True } else { Test::False },
                holds: 0,
                fails: 1,
            });
        }
        Step::Path(text) => {
            return Ok(Instruction::Ask {
                test: Test::Path(one_text(alloc, text)?),
                holds: 0,
                fails: 1,
            });
        }
        Step::Rewrite(text) => Action::Rewrite(template(alloc, text)?),
        Step::Skip(passed) => return Ok(Instruction::Skip(passed)),
        Step::Code(status) => Action::ResponseCode(status),
        Step::Limit(number) => Action::RequestLimit { number, most: 1 },
        Step::Log(number) => Action::AccessLog {
            number,
            format: List::new(alloc),
        },
        Step::Page => Action::Resource {
            location: Bytes::from_vec(Vec::new(alloc)),
            listing: false,
        },
        Step::Echo => Action::Echo,
        Step::Blocking => Action::Blocking,
        Step::Restart => Action::Restart,
        Step::Done => Action::Done,
    };
    Ok(Instruction::Do(action))
}

fn program(alloc: Global, steps: &[Step]) -> Result<Program, NoMemory>
    ensures { IfOk result (λ program. program_patterns program ≡ []) }
{
    let mut instructions = List::new(alloc);
    for step in steps {
        instructions.push(instruction(alloc, *step)?)?;
    }
    Program::new(alloc, instructions)
}

fn no_bytes(alloc: Global) -> Bytes {
    Bytes::from_vec(Vec::new(alloc))
}

fn opened(alloc: Global) -> Result<Exchange, NoMemory>
    ensures { IfOk result (λ exchange. exchange.moment < first_undated) }
{
    let request = Request {
        method: no_bytes(alloc),
        target: no_bytes(alloc),
        version: Version::V11,
        fields: List::new(alloc),
        url: no_bytes(alloc),
        path: Bytes::from_slice(alloc, b"/b")?,
        query: None,
        framing: Framing::Empty,
        expects: false,
        keep: true,
        peer: 0,
    };
    Exchange::new(alloc, 0, 1, request, MOMENT)
}

/// One call, after which the exchange is given what it needs, but for a page.
fn go_on(
    alloc: Global,
    scratch: &mut Scratch<'_>,
    program: &Program,
    exchange: &mut Exchange,
    role: Role,
    verdict: Option<Verdict>,
) -> Need
    requires dated { exchange.old.moment < first_undated }
    requires among { AreAmong (program_patterns program.now) scratch.old }
    ensures moment { exchange.new.moment ≡ exchange.old.moment }
    ensures scratch { scratch.new ≡ scratch.old }
{
    match advance(alloc, scratch, program, exchange, role) {
        Next::Stop => Need::Stop,
        Next::AskLimit(number) => {
            exchange.give_verdict(verdict.unwrap_or(Verdict::Refused));
            Need::Limit(number)
        }
        Next::NeedContent => {
            exchange.give_content(Content::Whole(no_bytes(alloc)));
            Need::Content
        }
        Next::NeedFolder { .. } => Need::Page,
        Next::NeedWorker => Need::Worker,
        Next::NoMemory => Need::NoMemory,
    }
}

/// The role of a call, which is one of these in turn.
fn role_of(roles: &[Role], turn: usize) -> Role {
    match turn.checked_rem(roles.len()) {
        Some(at) => roles.get(at).copied().unwrap_or(Role::Main),
        None => Role::Main,
    }
}

/// Goes on by the row's calls, each with what it needs.
fn expect(rt: &impl Abort, alloc: Global, row: &Row, number: usize) -> Result<(), Fail> {
    let (steps, roles, verdicts, needs, status, listeners) = *row;
    let Ok(tests) = build(alloc, &Items::new(alloc), &mut PackMaker::new()) else {
        return Err(NoMemory.into());
    };
    let mut scratch = Scratch::new(alloc, &tests)?;
    let program = program(alloc, steps)?;
    let mut exchange = opened(alloc)?;
    let mut verdicts = verdicts.iter();
    for (turn, wanted) in needs.iter().enumerate() {
        let role = role_of(roles, turn);
        let verdict = match wanted {
            Need::Limit(_) => verdicts.next().copied(),
            _ => None,
        };
        let needed = go_on(alloc, &mut scratch, &program, &mut exchange, role, verdict);
        assert_eq!(rt; needed, *wanted, "row {number}");
    }
    assert_eq!(rt; exchange.state().status, status, "row {number}");
    assert_eq!(rt; exchange.state().listeners.len(), listeners, "row {number}");
    Ok(())
}

fn expect_all(rt: &impl Abort, alloc: Global, rows: &[Row]) -> Result<(), Fail> {
    for (number, row) in rows.iter().enumerate() {
        expect(rt, alloc, row, number)?;
    }
    Ok(())
}

#[test]
fn each_row_needs_what_it_says(rt: HostRuntime) -> Result<(), Fail> {
    expect_all(&rt, rt.alloc(), ROWS)
}
