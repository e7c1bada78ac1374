//! The outcome of a request under a site.

ghost use Rattle.std.specs.Prelude.{◌≡◌, ◌<◌, IfOk, IsTrue};
ghost use Rattle.tow_model.specs.Dates.{first_undated};
ghost use Rattle.tow_semantics.specs.Predicates.{AreAmong};
ghost use Rattle.tow_semantics.specs.Steps as model;
ghost use Rattle.tow_pred.specs.Numbering.{tree_patterns};
ghost use Rattle.tow_site.specs.Built.{is_built, is_built_statement};
ghost use Rattle.tow_site.specs.Compiled.{pattern_texts};
ghost use Rattle.tow_site.specs.Decided.{Decides};
ghost use Rattle.tow_site.specs.Walking.{Leads};
ghost use Rattle.std.specs.List.{list_all};

use crate::default::answer_by_default;
use crate::site::Site;
use crate::walk::{Walked, walk_list};
use std::alloc::{AllocError, Global};
use tow_effect::answer;
use tow_model::limits::MAX_RESTARTS;
use tow_model::{Bytes, Choice, List, NoMemory, Record, Request, Statement};
use tow_pred::Scratch;

/// Who answers after the walks.
#[derive(Clone, Copy, Debug, PartialEq, Eq)]
pub enum Answerer {
    Text,
    DefaultHandler,
}

/// The record that the exchange of a request, at a moment in seconds since 1970, ends with under this site, over an empty
/// folder. The scratch was made of the site's tests. Takes memory for the record, the values and
/// the bindings of its tests, and what its actions write.
pub fn outcome(
    alloc: Global,
    site: &Site,
    scratch: &mut Scratch<'_>,
    request: &Request,
    moment: u64,
) -> Result<Record, NoMemory>
    requires built { IsTrue (is_built site.now.tree) }
    requires scratch { scratch.old ≡ pattern_texts site.now.tree }
    requires dated { moment < first_undated }
    ensures decides { IfOk result (λ x. Decides site.now.tree request.now moment x) }
    ensures empty { IfOk result (λ x. x.choice ≡ Choice.Empty) }
    ensures scratch { scratch.new ≡ scratch.old }
{
    let tree = site.tree().as_slice();
    let mut record = start(alloc, request)?;
    match walk_again(
        alloc,
        scratch,
        tree,
        request,
        &mut record,
        moment,
        MAX_RESTARTS,
    )? {
        Answerer::Text => {}
        Answerer::DefaultHandler => answer_by_default(alloc, request, &mut record)?,
    }
    Ok(record)
}

/// Walks over the text, and again if it asks for that, `left` times at most. One more answers 500.
fn walk_again(
    alloc: Global,
    scratch: &mut Scratch<'_>,
    statements: &[Statement],
    request: &Request,
    state: &mut Record,
    moment: u64,
    left: usize,
) -> Result<Answerer, NoMemory>
    requires built { IsTrue (list_all is_built_statement statements.now) }
    requires among { AreAmong (tree_patterns statements.now) scratch.old }
    requires dated { moment < first_undated }
    ensures leads { IfOk result (λ who. Leads request.now moment statements.now left state.old who
        state.new) }
    ensures empty { IfOk result (λ who. who ≡ Answerer.Text → state.new.choice ≡ Choice.Empty) }
    ensures scratch { scratch.new ≡ scratch.old }
{
    match walk_list(alloc, scratch, statements, request, state, moment)? {
        Walked::Next | Walked::ToDefault => Ok(Answerer::DefaultHandler),
        Walked::Stopped => Ok(Answerer::Text),
        Walked::Restarted => {
            if left == 0 {
                answer(500, state);
                return Ok(Answerer::Text);
            }
            state.context = List::new(alloc);
            walk_again(alloc, scratch, statements, request, state, moment, left - 1)
        }
    }
}

/// The record of a request, before its text begins.
fn start(alloc: Global, request: &Request) -> Result<Record, AllocError>
    ensures { IfOk result (λ x. x ≡ model.start request.now) }
{
    let path = Bytes::from_slice(alloc, request.path.as_slice())?;
    let query = match &request.query {
        Some(query) => Some(Bytes::from_slice(alloc, query.as_slice())?),
        None => None,
    };
    Ok(Record {
        path,
        query,
        status: 200,
        fields: List::new(alloc),
        context: List::new(alloc),
        listeners: List::new(alloc),
        choice: Choice::Undecided,
    })
}
