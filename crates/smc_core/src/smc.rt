ghost use Rattle.std.specs.Prelude.{◌≡◌, min, IfOk};
ghost use Rattle.smc_core.specs.Inputs.{IsDue, Takes, turn};
ghost use Rattle.smc_core.specs.Smc.{first_machine};

use crate::input::{Input, Output};
use crate::plan::Plan;
use mr_base::{FileName, List, Memory};
use smc_conf::Conf;
use smc_rules::{Learned, Settings};
use std::alloc::Global;
use std::marker::Model;

/// The routing machine: what a daemon does for its commands and for the kernel's reports.
///
/// A step's requests are a plan that is worked off reply by reply: they are all made, in order, and
/// each reply is given to the machine before its next command or report.
#[derive(Drop)]
pub struct Smc {
    pub(crate) alloc: Global,
    /// The devices in order.
    pub(crate) names: List<FileName>,
    pub(crate) confs: List<Conf>,
    /// The configuration that was taken last.
    pub(crate) place: usize,
    pub(crate) running: bool,
    pub(crate) settings: Settings,
    /// The routes that were made for reports, oldest first.
    pub(crate) learned: List<Learned>,
    pub(crate) plan: Plan,
}

impl Model for Smc {
    ghost use Rattle.smc_core.specs.Machine.{Machine};

    ghost Value = { Machine };

    ghost view = { λ s. record {
      names = s.names;
      confs = s.confs;
      place = s.place;
      running = s.running;
      settings = s.settings;
      learned = s.learned;
      plan = s.plan;
    } };
}

impl Smc {
    /// A machine that isn't running, with the first of these configurations. `names` are the
    /// devices in order: their numbers are 1, 2, and so on.
    ///
    /// # Errors
    ///
    /// Where memory runs out.
    pub fn new(alloc: Global, names: Vec<FileName>, confs: Vec<Conf>) -> Result<Smc, Memory>
        ensures { IfOk result (λ smc. smc ≡ first_machine names.items confs.items) }
    {
        match Settings::at(alloc, names.as_slice(), confs.as_slice(), 0) {
            Ok(settings) => Ok(Smc {
                alloc,
                names: List(names),
                confs: List(confs),
                place: 0,
                running: false,
                settings,
                learned: List(Vec::new(alloc)),
                plan: Plan {
                    left: 0,
                    refused: None,
                    learning: false,
                },
            }),
            Err(_) => Err(Memory),
        }
    }

    /// How many replies are waited for; 4,294,967,295 stands for that number and all above.
    pub fn pending(&self) -> u32
        ensures { result ≡ min self.now.plan.left 4294967295 }
    {
        u32::try_from(self.plan.left).unwrap_or(u32::MAX)
    }

    /// What an input makes the machine ask and say. A reply is given exactly while one is waited
    /// for.
    ///
    /// # Errors
    ///
    /// Where memory runs out; the machine is then as before.
    pub fn step(&mut self, input: Input<'_>) -> Result<Output, Memory>
        requires due { IsDue self.old input }
        ensures { Takes result self.old self.new (turn self.old input.entry) }
    {
        match input {
            Input::Command(words) => self.command(words),
            Input::Reply(reply) => self.reply(reply),
            Input::Upcall(told) => self.report(told),
        }
    }
}
