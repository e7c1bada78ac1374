ghost use Rattle.std.specs.Prelude.{◌≡◌, OnOk, IfErr};
ghost use Rattle.tow_parse.specs.Builders.{built_of, Has, Takes};
ghost use Rattle.tow_parse.specs.Building.{nothing, step, FailsAt};
ghost use Rattle.tow_fit.specs.Calls.{call_of};
ghost use Rattle.tow_parse.specs.Parts as parts;

use crate::assembly::stack::{pop, put};
use crate::parsed::Parsed;
use crate::part::Part;
use sqlite_items::{Boxed, Items};
use std::alloc::{AllocError, Global};
use std::mem;
use tow_fit::{Call, Counts, ParseFault, fitted_action, fitted_test};
use tow_model::{Action, List, Predicate, Statement};

/// What is built of a tree so far.
#[derive(Debug, Drop)]
pub(crate) struct Builder {
    /// The predicates that are no part of anything yet.
    pub(crate) predicates: Vec<Predicate>,
    /// The statements that are no part of anything yet.
    pub(crate) targets: Vec<Statement>,
    /// The statements of the innermost open list.
    pub(crate) list: Items<Statement>,
    /// The lists around it, from the outside in.
    pub(crate) outer: Vec<Items<Statement>>,
    pub(crate) counts: Counts,
}

impl Builder {
    /// Takes no memory.
    pub(crate) fn new(alloc: Global) -> Builder
        ensures { built_of result ≡ nothing }
    {
        Builder {
            predicates: Vec::new(alloc),
            targets: Vec::new(alloc),
            list: Items::new(alloc),
            outer: Vec::new(alloc),
            counts: Counts {
                limits: 0,
                logs: 0,
                patterns: List::new(alloc),
            },
        }
    }

    /// The tree of the statements, and the places of the patterns.
    pub(crate) fn finish(self) -> Parsed
        ensures tree { result.tree ≡ self.list }
        ensures patterns { result.patterns ≡ self.counts.patterns }
    {
        Parsed {
            tree: self.list,
            patterns: self.counts.patterns,
        }
    }

    /// Takes one part. Takes memory for what it makes of it.
    pub(crate) fn take(&mut self, alloc: Global, part: Part) -> Result<(), ParseFault>
        requires has { Has self.old (parts.raw_part part) }
        ensures ok { OnOk result (Takes (parts.raw_part part) self.old self.new) }
        ensures err { IfErr result (λ e. FailsAt e (step (parts.raw_part part) (built_of self.old))) }
    {
        match part {
            Part::Test(call) => self.take_test(alloc, call),
            Part::Handler(call) => self.take_handler(alloc, call),
            Part::Not => Ok(self.negate(alloc)?),
            Part::And => Ok(self.join_and(alloc)?),
            Part::Or => Ok(self.join_or(alloc)?),
            Part::Restart => Ok(self.put_restart()?),
            Part::Done => Ok(self.put_done()?),
            Part::Open => Ok(self.open_list(alloc)?),
            Part::Close => Ok(self.close_list()?),
            Part::When => Ok(self.join_when(alloc)?),
            Part::WhenElse => Ok(self.join_when_else(alloc)?),
            Part::End => Ok(self.end_statement()?),
        }
    }

    fn take_test(&mut self, alloc: Global, call: Call) -> Result<(), ParseFault>
        ensures ok { OnOk result (Takes (parts.a_test (call_of call)) self.old self.new) }
        ensures err { IfErr result (λ e. FailsAt e
            (step (parts.a_test (call_of call)) (built_of self.old))) }
    {
        let test = fitted_test(alloc, call, &mut self.counts)?;
        put(&mut self.predicates, Predicate::Is(test))?;
        Ok(())
    }

    fn take_handler(&mut self, alloc: Global, call: Call) -> Result<(), ParseFault>
        ensures ok { OnOk result (Takes (parts.a_handler (call_of call)) self.old self.new) }
        ensures err { IfErr result (λ e. FailsAt e
            (step (parts.a_handler (call_of call)) (built_of self.old))) }
    {
        let action = fitted_action(alloc, call, &mut self.counts)?;
        put(&mut self.targets, Statement::Act(action))?;
        Ok(())
    }

    fn negate(&mut self, alloc: Global) -> Result<(), AllocError>
        requires { Has self.old parts.a_not }
        ensures { OnOk result (Takes parts.a_not self.old self.new) }
    {
        let predicate = pop(&mut self.predicates);
        let negated = Predicate::Not(Boxed::new(alloc, predicate)?);
        put(&mut self.predicates, negated)
    }

    fn join_and(&mut self, alloc: Global) -> Result<(), AllocError>
        requires { Has self.old parts.an_and }
        ensures { OnOk result (Takes parts.an_and self.old self.new) }
    {
        let right = pop(&mut self.predicates);
        let left = pop(&mut self.predicates);
        let left = Boxed::new(alloc, left)?;
        let right = Boxed::new(alloc, right)?;
        put(&mut self.predicates, Predicate::And(left, right))
    }

    fn join_or(&mut self, alloc: Global) -> Result<(), AllocError>
        requires { Has self.old parts.an_or }
        ensures { OnOk result (Takes parts.an_or self.old self.new) }
    {
        let right = pop(&mut self.predicates);
        let left = pop(&mut self.predicates);
        let left = Boxed::new(alloc, left)?;
        let right = Boxed::new(alloc, right)?;
        put(&mut self.predicates, Predicate::Or(left, right))
    }

    fn put_restart(&mut self) -> Result<(), AllocError>
        ensures { OnOk result (Takes parts.a_restart self.old self.new) }
    {
        put(&mut self.targets, Statement::Act(Action::Restart))
    }

    fn put_done(&mut self) -> Result<(), AllocError>
        ensures { OnOk result (Takes parts.a_done self.old self.new) }
    {
        put(&mut self.targets, Statement::Act(Action::Done))
    }

    fn open_list(&mut self, alloc: Global) -> Result<(), AllocError>
        ensures { OnOk result (Takes parts.an_open self.old self.new) }
    {
        let around = mem::replace(&mut self.list, Items::new(alloc));
        put(&mut self.outer, around)
    }

    fn close_list(&mut self) -> Result<(), AllocError>
        requires { Has self.old parts.a_close }
        ensures { OnOk result (Takes parts.a_close self.old self.new) }
    {
        let around = pop(&mut self.outer);
        let list = mem::replace(&mut self.list, around);
        put(&mut self.targets, Statement::Block(list))
    }

    fn join_when(&mut self, alloc: Global) -> Result<(), AllocError>
        requires { Has self.old parts.a_when }
        ensures { OnOk result (Takes parts.a_when self.old self.new) }
    {
        let test = pop(&mut self.predicates);
        let yes = Boxed::new(alloc, pop(&mut self.targets))?;
        put(
            &mut self.targets,
            Statement::When {
                test,
                yes,
                other: None,
            },
        )
    }

    fn join_when_else(&mut self, alloc: Global) -> Result<(), AllocError>
        requires { Has self.old parts.a_when_else }
        ensures { OnOk result (Takes parts.a_when_else self.old self.new) }
    {
        let test = pop(&mut self.predicates);
        let other = pop(&mut self.targets);
        let yes = pop(&mut self.targets);
        let yes = Boxed::new(alloc, yes)?;
        let other = Some(Boxed::new(alloc, other)?);
        put(&mut self.targets, Statement::When { test, yes, other })
    }

    fn end_statement(&mut self) -> Result<(), AllocError>
        requires { Has self.old parts.an_end }
        ensures { OnOk result (Takes parts.an_end self.old self.new) }
    {
        let statement = pop(&mut self.targets);
        self.list.push(statement)
    }
}
