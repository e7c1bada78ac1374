//! How an exchange goes on when what it waits for is given.

ghost use Rattle.std.specs.Prelude.{◌≡◌, ◌≢◌, ℕ, OnErr, OnOk};
ghost use Rattle.tow_semantics.specs.Pages.{Found, page_for};
ghost use Rattle.tow_found.specs.Applied.{step_of};
ghost use Rattle.tow_exchange.specs.Exchanges.{content_given, mark_after, mark_of, page_given, step_taken, verdict_given, with_fields};
ghost use Rattle.tow_exchange.specs.Waiting.{AwaitsSomePage, AwaitsSomeVerdict};

use crate::exchange::Exchange;
use crate::phase::Phase;
use crate::place::Place;
use std::alloc::Global;
use std::mem;
use tow_found::{End, apply};
use tow_model::{Choice, Content, NoMemory, Page, Verdict};

impl Exchange {
    /// Goes on by the verdict of the limit that it waits for: an admission adds the listener that leaves the limit, a
    /// refusal is answered 503. Takes no memory.
    pub fn give_verdict(&mut self, verdict: Verdict)
        requires waits { AwaitsSomeVerdict self.old.phase }
        ensures { (limit : ℕ) → self.old.phase ≡ Phase.AwaitsVerdict limit
            → self.new ≡ verdict_given limit verdict self.old }
    {
        self.note_given();
        match verdict {
            Verdict::Admitted => {
                mem::swap(&mut self.state.listeners, &mut self.admitted);
                self.phase = Phase::Running;
            }
            Verdict::Refused => self.stop_with(503),
        }
    }

    /// Goes on by the content of its request: a whole one is its answer, a bad one is answered 400, and one that is too
    /// long 413. Takes no memory.
    pub fn give_content(&mut self, content: Content)
        requires waits { self.old.phase ≡ Phase.AwaitsContent }
        ensures { self.new ≡ content_given content self.old }
    {
        self.note_given();
        match content {
            Content::Whole(bytes) => {
                self.state.choice = Choice::Whole(bytes);
                self.phase = Phase::Stopped;
            }
            Content::Bad => self.stop_with(400),
            Content::TooLong => self.stop_with(413),
        }
    }

    /// Goes on by the page that it waits for, which is none of the two faults: it is answered by what was found, or its text
    /// goes on. Takes memory for fields; if it is short, nothing but the fields of the record may have changed.
    pub fn give_page(&mut self, alloc: Global, page: Page) -> Result<(), NoMemory>
        requires waits { AwaitsSomePage self.old.phase }
        requires no_fault { page ≢ Page.FolderFault }
        requires no_want { page ≢ Page.NoMemory }
        ensures ok { OnOk result ((found : Found) → page ≡ page_for found
            → self.new ≡ page_given found self.old) }
        ensures err { OnErr result (self.new
            ≡ with_fields self.new.stand.state.fields self.old) }
    {
        let end = apply(alloc, page, &mut self.state)?;
        self.go_on_by(end);
        Ok(())
    }

    /// Goes on as its page wants it, which its record has already. Takes no memory.
    fn go_on_by(&mut self, end: End)
        ensures { self.new ≡ step_taken (step_of end self.old.stand.state) self.old }
    {
        self.note_given();
        match end {
            End::Stops => self.phase = Phase::Stopped,
            End::Answers(status) => self.stop_with(status),
            End::GoesOn => self.phase = Phase::Running,
        }
    }

    /// Notes that the step is taken which was waited for.
    pub(crate) fn note_given(&mut self)
        ensures { self.new ≡ (record self.old {
          stand = record self.old.stand {
            mark = mark_after self.old.place self.old.stand.mark;
          };
        }) }
    {
        if let Place::InText(_) = self.place {
            self.dispatch = self.dispatch.after_step();
        }
    }
}
