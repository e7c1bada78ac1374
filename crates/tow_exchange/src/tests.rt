//! Exchanges from their beginning to their last listener.

ghost use Rattle.std.specs.Prelude.{◌≡◌, ◌≢◌, IfOk};
ghost use Rattle.tow_exchange.specs.Exchanges.{with_state};

use crate::{Completed, Dispatch, Exchange, Phase, Place};
use std::alloc::{AllocError, Global};
use std::process::Abort;
use std::test::Fail;
use tow_model::limits::MAX_RESTARTS;
use tow_model::{
    Action, Bytes, Choice, Content, Framing, List, Listener, NoMemory, Page, Record, Request,
    Verdict, Version,
};

const MOMENT: u64 = 784_111_777;

fn no_bytes(alloc: Global) -> Bytes {
    Bytes::from_vec(Vec::new(alloc))
}

fn request(alloc: Global) -> Result<Request, AllocError> {
    let path = Bytes::from_slice(alloc, b"/a")?;
    let query = Bytes::from_slice(alloc, b"x=1")?;
    Ok(Request {
        method: no_bytes(alloc),
        target: no_bytes(alloc),
        version: Version::V11,
        fields: List::new(alloc),
        url: no_bytes(alloc),
        path,
        query: Some(query),
        framing: Framing::Empty,
        expects: false,
        keep: true,
        peer: 0,
    })
}

fn opened(alloc: Global) -> Result<Exchange, NoMemory>
    ensures { IfOk result (λ exchange. exchange.phase ≡ Phase.Running) }
{
    let request = request(alloc)?;
    Exchange::new(alloc, 3, 2, request, MOMENT)
}

/// Listeners in the order in which they are added.
const ADDED: &[&[Listener]] = &[
    &[],
    &[Listener::Log(0)],
    &[Listener::Leave(0), Listener::Log(0), Listener::Leave(1)],
    &[Listener::Leave(7), Listener::Leave(7)],
    &[
        Listener::Log(2),
        Listener::Log(1),
        Listener::Log(0),
        Listener::Leave(3),
        Listener::Log(1),
    ],
];

fn add_all(alloc: Global, exchange: &mut Exchange, listeners: &[Listener]) -> Result<(), NoMemory> {
    for listener in listeners {
        exchange.add_listener(alloc, *listener)?;
    }
    Ok(())
}

/// The exchange with these listeners, completed.
fn completed(alloc: Global, added: &[Listener]) -> Result<Completed, NoMemory> {
    let mut exchange = opened(alloc)?;
    add_all(alloc, &mut exchange, added)?;
    Ok(exchange.complete())
}

fn expect_runs(rt: &impl Abort, completed: &mut Completed, added: &[Listener]) {
    for listener in added.iter().rev() {
        assert_eq!(rt; completed.next(), Some(*listener));
    }
}

fn expect_ended(rt: &impl Abort, completed: &mut Completed) {
    assert_eq!(rt; completed.next(), None);
    assert_eq!(rt; completed.next(), None);
}

fn expect_once(rt: &impl Abort, alloc: Global, added: &[Listener]) -> Result<(), Fail> {
    let mut completed = completed(alloc, added)?;
    expect_runs(rt, &mut completed, added);
    expect_ended(rt, &mut completed);
    assert_eq!(rt; completed.state().listeners.as_slice(), added);
    Ok(())
}

fn expect_each_once(rt: &impl Abort, alloc: Global, rows: &[&[Listener]]) -> Result<(), Fail> {
    for added in rows {
        expect_once(rt, alloc, added)?;
    }
    Ok(())
}

#[test]
fn each_listener_runs_once_last_added_first(rt: HostRuntime) -> Result<(), Fail> {
    expect_each_once(&rt, rt.alloc(), ADDED)
}

fn expect_taken(rt: &impl Abort, alloc: Global, added: &[Listener]) -> Result<(), Fail> {
    let mut completed = completed(alloc, added)?;
    expect_beginning(rt, &completed.take_record(alloc));
    assert_eq!(rt; completed.state().path.len(), 0);
    assert_eq!(rt; completed.request().path.as_slice(), b"/a".as_slice());
    expect_runs(rt, &mut completed, added);
    expect_ended(rt, &mut completed);
    Ok(())
}

fn expect_each_taken(rt: &impl Abort, alloc: Global, rows: &[&[Listener]]) -> Result<(), Fail> {
    for added in rows {
        expect_taken(rt, alloc, added)?;
    }
    Ok(())
}

#[test]
fn listeners_run_once_the_record_is_taken(rt: HostRuntime) -> Result<(), Fail> {
    expect_each_taken(&rt, rt.alloc(), ADDED)
}

#[test]
fn a_completed_exchange_keeps_its_request(rt: HostRuntime) -> Result<(), Fail> {
    let completed = completed(rt.alloc(), &[])?;
    assert_eq!(rt; completed.request().path.as_slice(), b"/a".as_slice());
    assert_eq!(rt; completed.connection(), 3);
    assert_eq!(rt; completed.number(), 2);
    assert_eq!(rt; completed.moment(), MOMENT);
    Ok(())
}

fn expect_beginning(rt: &impl Abort, state: &Record) {
    assert_eq!(rt; state.path.as_slice(), b"/a".as_slice());
    assert_eq!(rt; state.status, 200);
    assert_eq!(rt; state.fields.len(), 0);
    assert_eq!(rt; state.context.len(), 0);
    assert_eq!(rt; state.listeners.len(), 0);
    assert!(rt; matches!(state.choice, Choice::Undecided));
}

fn expect_place(rt: &impl Abort, exchange: &Exchange, place: Place, left: usize) {
    assert_eq!(rt; exchange.place(), place);
    assert_eq!(rt; exchange.restarts_left(), left);
}

fn expect_request(rt: &impl Abort, exchange: &Exchange) {
    assert_eq!(rt; exchange.request().path.as_slice(), b"/a".as_slice());
    assert_eq!(rt; exchange.connection(), 3);
    assert_eq!(rt; exchange.number(), 2);
    assert_eq!(rt; exchange.moment(), MOMENT);
}

#[test]
fn an_exchange_begins_with_its_request(rt: HostRuntime) -> Result<(), Fail> {
    let exchange = opened(rt.alloc())?;
    expect_beginning(&rt, exchange.state());
    expect_place(&rt, &exchange, Place::InText(0), MAX_RESTARTS);
    expect_request(&rt, &exchange);
    assert!(rt; matches!(exchange.phase(), Phase::Running));
    Ok(())
}

/// What an exchange that waits is given.
enum Given {
    Verdict(Verdict),
    Whole(&'static [u8]),
    Bad,
    TooLong,
}

/// What is given; then the status, whether it is stopped, and the listeners.
type Row = (Given, u16, bool, &'static [Listener]);

const GIVEN: &[Row] = &[
    (
        Given::Verdict(Verdict::Admitted),
        200,
        false,
        &[Listener::Log(0), Listener::Log(1), Listener::Leave(5)],
    ),
    (
        Given::Verdict(Verdict::Refused),
        503,
        true,
        &[Listener::Log(0), Listener::Log(1)],
    ),
    (
        Given::Whole(b"ab"),
        200,
        true,
        &[Listener::Log(0), Listener::Log(1)],
    ),
    (Given::Bad, 400, true, &[Listener::Log(0), Listener::Log(1)]),
    (
        Given::TooLong,
        413,
        true,
        &[Listener::Log(0), Listener::Log(1)],
    ),
];

fn content(alloc: Global, given: &Given) -> Result<Content, AllocError> {
    match given {
        Given::Whole(bytes) => Ok(Content::Whole(Bytes::from_slice(alloc, bytes)?)),
        Given::Bad => Ok(Content::Bad),
        _ => Ok(Content::TooLong),
    }
}

/// The exchange once it waited and was given this. Its second listener is added while it waits.
fn after_wait(alloc: Global, given: &Given) -> Result<Exchange, NoMemory> {
    let mut exchange = opened(alloc)?;
    exchange.add_listener(alloc, Listener::Log(0))?;
    if let Given::Verdict(verdict) = given {
        exchange.await_verdict(alloc, 5, Place::InText(1))?;
        exchange.add_listener(alloc, Listener::Log(1))?;
        exchange.give_verdict(*verdict);
        return Ok(exchange);
    }
    let content = content(alloc, given)?;
    exchange.await_content(Place::InText(1));
    exchange.add_listener(alloc, Listener::Log(1))?;
    exchange.give_content(content);
    Ok(exchange)
}

fn expect_goes_on(rt: &impl Abort, alloc: Global, row: &Row) -> Result<(), Fail> {
    let (given, status, stopped, listeners) = row;
    let exchange = after_wait(alloc, given)?;
    assert_eq!(rt; exchange.state().status, *status);
    assert_eq!(rt; matches!(exchange.phase(), Phase::Stopped), *stopped);
    assert_eq!(rt; exchange.state().listeners.as_slice(), *listeners);
    assert_eq!(rt; exchange.place(), Place::InText(1));
    Ok(())
}

fn expect_each_goes_on(rt: &impl Abort, alloc: Global, rows: &[Row]) -> Result<(), Fail> {
    for row in rows {
        expect_goes_on(rt, alloc, row)?;
    }
    Ok(())
}

#[test]
fn an_exchange_goes_on_by_what_it_is_given(rt: HostRuntime) -> Result<(), Fail> {
    expect_each_goes_on(&rt, rt.alloc(), GIVEN)
}

// What a step of a text writes is all that changes.
fn write_status(exchange: &mut Exchange, status: u16)
    requires running { exchange.old.phase ≡ Phase.Running }
    ensures { exchange.new
        ≡ with_state (record exchange.old.stand.state { status = status }) exchange.old }
{
    let (_request, state) = exchange.under_way();
    state.status = status;
}

#[test]
fn a_step_writes_the_record(rt: HostRuntime) -> Result<(), Fail> {
    let mut exchange = opened(rt.alloc())?;
    write_status(&mut exchange, 404);
    assert_eq!(rt; exchange.state().status, 404);
    Ok(())
}

#[test]
fn a_blocking_dispatches_to_a_worker(rt: HostRuntime) -> Result<(), Fail> {
    let mut exchange = opened(rt.alloc())?;
    exchange.note_test();
    assert!(rt; !exchange.dispatch().is_for_worker());
    exchange.note_action(&Action::Blocking);
    assert_eq!(rt; exchange.dispatch(), Dispatch::Passed);
    exchange.note_action(&Action::Done);
    assert_eq!(rt; exchange.dispatch(), Dispatch::Worked);
    Ok(())
}

fn expect_restart(rt: &impl Abort, alloc: Global, exchange: &mut Exchange) {
    exchange.go_to(Place::InText(4));
    exchange.begin_again(alloc);
    assert_eq!(rt; exchange.state().status, 200);
}

fn expect_restarts(rt: &impl Abort, alloc: Global, exchange: &mut Exchange, count: usize) {
    for _ in 0..count {
        expect_restart(rt, alloc, exchange);
    }
}

fn expect_answered_500(rt: &impl Abort, exchange: &Exchange) {
    assert_eq!(rt; exchange.state().status, 500);
    assert!(rt; matches!(exchange.phase(), Phase::Stopped));
}

#[test]
fn the_seventeenth_restart_is_answered_500(rt: HostRuntime) -> Result<(), Fail> {
    let mut exchange = opened(rt.alloc())?;
    expect_restarts(&rt, rt.alloc(), &mut exchange, MAX_RESTARTS);
    expect_place(&rt, &exchange, Place::InText(0), 0);
    exchange.begin_again(rt.alloc());
    expect_answered_500(&rt, &exchange);
    Ok(())
}

#[test]
fn a_page_is_waited_for(rt: HostRuntime) -> Result<(), Fail> {
    let mut exchange = opened(rt.alloc())?;
    let location = Bytes::from_slice(rt.alloc(), b"/docs")?;
    exchange.await_page(location, true, Place::AtDefault);
    assert!(rt; matches!(exchange.phase(), Phase::AwaitsPage { listing: true, .. }));
    exchange.stop();
    assert!(rt; matches!(exchange.phase(), Phase::Stopped));
    Ok(())
}

/// The exchange once it waited for a page and was given this one.
fn after_page(alloc: Global, page: Page) -> Result<Exchange, NoMemory>
    requires no_fault { page ≢ Page.FolderFault }
    requires no_want { page ≢ Page.NoMemory }
{
    let mut exchange = opened(alloc)?;
    exchange.await_page(Bytes::from_slice(alloc, b"/docs")?, true, Place::InText(1));
    exchange.give_page(alloc, page)?;
    Ok(exchange)
}

fn expect_page(rt: &impl Abort, exchange: &Exchange, is_stopped: bool, status: u16) {
    assert_eq!(rt; matches!(exchange.phase(), Phase::Stopped), is_stopped);
    assert_eq!(rt; matches!(exchange.phase(), Phase::Running), !is_stopped);
    assert_eq!(rt; exchange.state().status, status);
    assert_eq!(rt; exchange.place(), Place::InText(1));
}

#[test]
fn an_exchange_goes_on_by_its_page(rt: HostRuntime) -> Result<(), Fail> {
    let alloc = rt.alloc();
    expect_page(&rt, &after_page(alloc, Page::NotFound)?, false, 200);
    expect_page(&rt, &after_page(alloc, Page::Forbidden)?, true, 403);
    let path = Bytes::from_slice(alloc, b"/docs/a.css")?;
    let served = after_page(
        alloc,
        Page::Serve {
            path,
            len: 3,
            second: 0,
        },
    )?;
    expect_page(&rt, &served, true, 200);
    assert!(rt; matches!(served.state().choice, Choice::File { len: 3, .. }));
    assert_eq!(rt; served.state().fields.len(), 2);
    Ok(())
}

fn sendable<T: Send + Drop>(_value: T) {}

#[test]
fn an_exchange_moves_to_another_thread(rt: HostRuntime) -> Result<(), Fail> {
    sendable(opened(rt.alloc())?);
    sendable(opened(rt.alloc())?.complete());
    Ok(())
}
