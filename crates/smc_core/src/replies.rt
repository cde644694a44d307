//! Reports and replies.

ghost use Rattle.std.specs.Prelude.{◌≡◌, ◌<◌, [], IfOk, OnErr};
ghost use Rattle.smc_core.specs.Answers.{turn_of};
ghost use Rattle.smc_core.specs.Inputs.{Takes};
ghost use Rattle.smc_core.specs.Replies.{first_error, outcome_text, kept, settled, reply};
ghost use Rattle.smc_core.specs.Reports.{learning, report};
ghost use Rattle.smc_rules.specs.Reports.{asked_for};

use crate::input::Output;
use crate::plan::Plan;
use crate::smc::Smc;
use mr_base::{Errno, Memory};
use mr_model::{Kind, Reply, Told};
use smc_rules::Learned;
use smc_words::write_number;
use std::alloc::{AllocError, Global};

/// The first error among replies.
fn first_error(refused: Option<Errno>, reply: Reply) -> Option<Errno>
    ensures { result ≡ first_error refused reply }
{
    match (refused, reply) {
        (Some(errno), _) => Some(errno),
        (None, Reply::Refused(errno)) => Some(errno),
        (None, _) => None,
    }
}

/// The text of a command with its last reply.
fn outcome_text(alloc: Global, refused: Option<Errno>) -> Result<Vec<u8>, AllocError>
    ensures { IfOk result (λ v. v.items ≡ outcome_text refused) }
{
    let mut text = Vec::new(alloc);
    match refused {
        None => text.extend_from_slice(b"ok\n")?,
        Some(errno) => {
            text.extend_from_slice(b"error ")?;
            write_number(&mut text, errno.number())?;
            text.push(b'\n')?;
        }
    }
    Ok(text)
}

/// A route that the kernel refuses is taken off the learned ones again.
fn keep_learned(refused: Option<Errno>, learned: &mut Vec<Learned>)
    ensures { learned.new.items ≡ kept refused learned.old.items }
{
    if refused.is_some() {
        learned.pop();
    }
}

/// No requests and no text.
fn nothing(alloc: Global) -> Output
    ensures requests { result.requests.items ≡ [] }
    ensures text { result.text.items ≡ [] }
{
    Output {
        requests: Vec::new(alloc),
        text: Vec::new(alloc),
    }
}

impl Smc {
    /// What a reply makes the machine say.
    pub(crate) fn reply(&mut self, answer: Reply) -> Result<Output, Memory>
        requires { 0 < self.old.plan.left }
        ensures { Takes result self.old self.new (reply self.old answer) }
    {
        let plan = Plan {
            left: self.plan.left - 1,
            refused: first_error(self.plan.refused, answer),
            learning: self.plan.learning,
        };
        if plan.left > 0 {
            self.plan = plan;
            return Ok(nothing(self.alloc));
        }
        self.settle(plan)
    }

    /// The last reply of a plan.
    fn settle(&mut self, plan: Plan) -> Result<Output, Memory>
        ensures { Takes result self.old self.new
            (settled (record self.old { plan = plan }) plan.learning plan.refused) }
    {
        if plan.learning {
            self.plan = plan;
            keep_learned(plan.refused, &mut self.learned.0);
            return Ok(nothing(self.alloc));
        }
        let Ok(text) = outcome_text(self.alloc, plan.refused) else {
            return Err(Memory);
        };
        self.plan = plan;
        Ok(Output {
            requests: Vec::new(self.alloc),
            text,
        })
    }

    /// What a report makes the machine ask.
    pub(crate) fn report(&mut self, told: Told) -> Result<Output, Memory>
        ensures { Takes result self.old self.new (report self.old told) }
    {
        match told.kind {
            Kind::NoCache => self.miss(told).map_err(|_| Memory),
            Kind::WrongVif | Kind::WholePkt => Ok(nothing(self.alloc)),
        }
    }

    /// A packet had no route.
    fn miss(&mut self, told: Told) -> Result<Output, AllocError>
        ensures ok { IfOk result
            (λ o. turn_of self.new o ≡ learning self.old (asked_for self.old.settings told)) }
        ensures err { OnErr result (self.new ≡ self.old) }
    {
        let Some((request, learned)) = self.settings.asked_for(told) else {
            return Ok(nothing(self.alloc));
        };
        let mut requests = Vec::new(self.alloc);
        requests.push(request)?;
        self.learned.0.push(learned)?;
        self.plan = Plan {
            left: 1,
            refused: None,
            learning: true,
        };
        Ok(Output {
            requests,
            text: Vec::new(self.alloc),
        })
    }
}
