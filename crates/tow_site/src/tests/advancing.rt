//! Exchanges that go on under sites, each under loops, under workers and under both in turn.

ghost use Rattle.std.specs.Prelude.{◌≢◌, IfOk};

use crate::tests::rows::{Chosen, End, Looked, MANY, Need, ROWS, Row, Sent};
use crate::tests::{request, site};
use crate::{Site, advance};
use std::alloc::{AllocError, Global};
use std::process::Abort;
use std::test::Fail;
use tow_advance::Next;
use tow_exchange::Exchange;
use tow_model::{Bytes, Choice, Content, Field, List, NoMemory, Page, Record, Role};
use tow_pred::Scratch;

const MOMENT: u64 = 784_111_777;

const LOOP: Role = Role::Loop(0);

const WORKER: Role = Role::Worker(0);

/// Who goes on with an exchange, call by call.
#[derive(Clone, Copy)]
enum Roles {
    /// A loop, and a worker for what that hands on.
    Loops,
    Workers,
    /// The other one at each call.
    InTurn,
}

/// Who goes on first, and who then.
const ORDERS: &[(Role, Roles)] = &[
    (LOOP, Roles::Loops),
    (WORKER, Roles::Workers),
    (LOOP, Roles::InTurn),
    (WORKER, Roles::InTurn),
];

/// Who goes on after this call, which needed a worker or not.
fn next_role(roles: Roles, role: Role, needed_worker: bool) -> Role {
    let is_worker = match roles {
        Roles::Loops => needed_worker,
        Roles::Workers => true,
        Roles::InTurn => role == LOOP,
    };
    if is_worker { WORKER } else { LOOP }
}

fn content(alloc: Global, sent: Sent) -> Result<Content, AllocError> {
    match sent {
        Sent::Whole(bytes) => Ok(Content::Whole(Bytes::from_slice(alloc, bytes)?)),
        Sent::Bad => Ok(Content::Bad),
        Sent::TooLong => Ok(Content::TooLong),
    }
}

fn page(alloc: Global, looked: Looked) -> Result<Page, AllocError>
    ensures no_fault { IfOk result (λ page. page ≢ Page.FolderFault) }
    ensures no_want { IfOk result (λ page. page ≢ Page.NoMemory) }
{
    match looked {
        Looked::File(path, len) => {
            let path = Bytes::from_slice(alloc, path)?;
            Ok(Page::Serve {
                path,
                len,
                second: 0,
            })
        }
        Looked::Moved(to) => Ok(Page::Redirect(Bytes::from_slice(alloc, to)?)),
        Looked::Listing(bytes) => Ok(Page::Listing(Bytes::from_slice(alloc, bytes)?)),
        Looked::Forbidden => Ok(Page::Forbidden),
        Looked::NotModified => Ok(Page::NotModified { second: 0 }),
        Looked::NotFound => Ok(Page::NotFound),
        Looked::BadMethod => Ok(Page::BadMethod),
    }
}

/// Whether a call of the role needs what is wanted, which the exchange is given then.
fn needs(
    alloc: Global,
    site: &Site,
    exchange: &mut Exchange,
    role: Role,
    wanted: Need,
) -> Result<bool, Fail> {
    if exchange.moment() != MOMENT {
        return Err("another moment".into());
    }
    let mut scratch = Scratch::new(alloc, site.tests())?;
    match advance(alloc, site, &mut scratch, exchange, role) {
        Next::Stop => Ok(matches!(wanted, Need::Stop)),
        Next::AskLimit(number) => {
            let Need::Limit(limit, verdict) = wanted else {
                return Ok(false);
            };
            exchange.give_verdict(verdict);
            Ok(number == limit)
        }
        Next::NeedContent => {
            let Need::Content(sent) = wanted else {
                return Ok(false);
            };
            exchange.give_content(content(alloc, sent)?);
            Ok(true)
        }
        Next::NeedFolder { location, listing } => {
            let Need::Page(at, lists, looked) = wanted else {
                return Ok(false);
            };
            exchange.give_page(alloc, page(alloc, looked)?)?;
            Ok(location.as_slice() == at && listing == lists)
        }
        Next::NeedWorker => Ok(matches!(wanted, Need::Worker)),
        Next::NoMemory => Err(NoMemory.into()),
    }
}

fn is_choice(choice: &Choice, wanted: Chosen) -> bool {
    match (choice, wanted) {
        (Choice::Empty, Chosen::Empty) => true,
        (Choice::Whole(bytes), Chosen::Whole(want)) => bytes.as_slice() == want,
        (Choice::Listing(bytes), Chosen::Listing(want)) => bytes.as_slice() == want,
        (Choice::File { path, len }, Chosen::File(want, most)) => {
            path.as_slice() == want && *len == most
        }
        _ => false,
    }
}

fn are_fields(fields: &[Field], wanted: &[(&[u8], &[u8])]) -> bool {
    for (field, want) in fields.iter().zip(wanted.iter()) {
        if field.name.as_slice() != want.0 || field.value.as_slice() != want.1 {
            return false;
        }
    }
    fields.len() == wanted.len()
}

fn expect_end(rt: &impl Abort, record: &Record, end: &End, number: usize) {
    let (status, fields, choice, listeners) = *end;
    assert_eq!(rt; record.status, status, "row {number}");
    assert!(rt;
        are_fields(record.fields.as_slice(), fields),
        "row {number}"
    );
    assert!(rt; is_choice(&record.choice, choice), "row {number}");
    assert_eq!(rt; record.listeners.as_slice(), listeners, "row {number}");
}

/// The row under these roles. What a loop hands on, a worker does at once.
fn expect(
    rt: &impl Abort,
    alloc: Global,
    site: &Site,
    row: &Row,
    number: usize,
    order: (Role, Roles),
) -> Result<(), Fail> {
    let (_text, method, path, wanted, end) = *row;
    let request = request(alloc, method, path)?;
    let mut exchange = Exchange::new(alloc, 0, 1, request, MOMENT)?;
    let (mut role, roles) = order;
    for need in wanted {
        let is_worker = matches!(need, Need::Worker);
        if is_worker && role == WORKER {
            continue;
        }
        let as_wanted = needs(alloc, site, &mut exchange, role, *need)?;
        assert!(rt; as_wanted, "row {number}");
        role = next_role(roles, role, is_worker);
    }
    expect_end(rt, exchange.state(), &end, number);
    Ok(())
}

fn expect_orders(
    rt: &impl Abort,
    alloc: Global,
    site: &Site,
    row: &Row,
    number: usize,
) -> Result<(), Fail> {
    for order in ORDERS {
        expect(rt, alloc, site, row, number, *order)?;
    }
    Ok(())
}

fn expect_all(rt: &impl Abort, alloc: Global, rows: &[Row]) -> Result<(), Fail> {
    for (number, row) in rows.iter().enumerate() {
        expect_orders(rt, alloc, &site(alloc, row.0)?, row, number)?;
    }
    Ok(())
}

#[test]
fn exchanges_go_on_under_sites(rt: HostRuntime) -> Result<(), Fail> {
    expect_all(&rt, rt.alloc(), ROWS)
}

/// A text of so many paths, each answered 204, and then a prefix that is answered 410.
fn many_paths(alloc: Global, count: u32) -> Result<String, Fail> {
    let mut text = String::new(alloc);
    for number in 0..count {
        text.push_str(&format!(in alloc; "path(/a{number}) -> response-code(204)\n")?)?;
    }
    text.push_str("path-prefix(/a7) -> response-code(410)")?;
    Ok(text)
}

fn expect_each(rt: &impl Abort, alloc: Global, site: &Site, rows: &[Row]) -> Result<(), Fail> {
    for (number, row) in rows.iter().enumerate() {
        expect_orders(rt, alloc, site, row, number)?;
    }
    Ok(())
}

#[test]
fn one_of_a_thousand_paths(rt: HostRuntime) -> Result<(), Fail> {
    let text = many_paths(rt.alloc(), 1_000)?;
    let site = site(rt.alloc(), text.as_bytes())?;
    expect_each(&rt, rt.alloc(), &site, MANY)
}
