//! Commands: which one it is, and those without an address.

ghost use Rattle.std.specs.Prelude.{◌≡◌, [], false, None, length, IfOk};
ghost use Rattle.smc_core.specs.Answers.{Steps};
ghost use Rattle.smc_core.specs.Ending.{flush, kill, poll};
ghost use Rattle.smc_core.specs.Inputs.{Takes};
ghost use Rattle.smc_core.specs.Machine.{text_at_once};
ghost use Rattle.smc_core.specs.Smc.{command, by_state, by_word, while_running, while_stopped};
ghost use Rattle.smc_core.specs.Starting.{start, reload, next_place};
ghost use Rattle.smc_core.specs.Mistakes.{mistake_line};
ghost use Rattle.smc_words.specs.Words.{command_words};

use crate::input::Output;
use crate::mistake::Mistake;
use crate::plan::Plan;
use crate::ranges::nothing_behind;
use crate::smc::Smc;
use crate::stop::Stop;
use mr_base::{List, Memory};
use mr_model::Request;
use smc_rules::{Settings, push_del_learned};
use smc_words::next_word;
use std::alloc::{AllocError, Global};

/// The text of a mistake.
fn mistake_text(mistake: Mistake) -> &'static [u8]
    ensures { result.now ≡ mistake_line mistake }
{
    match mistake {
        Mistake::NotRunning => b"error not running\n",
        Mistake::Running => b"error running\n",
        Mistake::Usage => b"error usage\n",
        Mistake::Address => b"error address\n",
        Mistake::Interface => b"error interface\n",
        Mistake::NoRoute => b"error no such route\n",
        Mistake::NoGroup => b"error no such group\n",
    }
}

/// A text at once, and no requests.
pub(crate) fn saying(alloc: Global, text: &[u8]) -> Result<Output, AllocError>
    ensures requests { IfOk result (λ o. o.requests.items ≡ []) }
    ensures text { IfOk result (λ o. o.text.items ≡ text.now) }
{
    Ok(Output {
        requests: Vec::new(alloc),
        text: Vec::from_slice(alloc, text)?,
    })
}

/// These requests, and `ok` at once where there is none.
pub(crate) fn asking(alloc: Global, requests: Vec<Request>) -> Result<Output, AllocError>
    ensures requests { IfOk result (λ o. o.requests.items ≡ requests.items) }
    ensures text { IfOk result (λ o. o.text.items ≡ text_at_once requests.items) }
{
    let text = if requests.is_empty() {
        Vec::from_slice(alloc, b"ok\n")?
    } else {
        Vec::new(alloc)
    };
    Ok(Output { requests, text })
}

impl Plan {
    /// The plan of a command's requests.
    pub(crate) fn of(output: &Output) -> Plan
        ensures { result ≡ record {
          left = length output.now.requests.items;
          refused = None;
          learning = false;
        } }
    {
        Plan {
            left: output.requests.as_slice().len(),
            refused: None,
            learning: false,
        }
    }
}

impl Smc {
    /// What a command line makes the machine ask and say.
    pub(crate) fn command(&mut self, bytes: &[u8]) -> Result<Output, Memory>
        ensures { Takes result self.old self.new (command self.old bytes.now) }
    {
        match self.by_state(bytes) {
            Ok(output) => Ok(output),
            Err(Stop::Memory) => Err(Memory),
            Err(Stop::Bad(mistake)) => {
                saying(self.alloc, mistake_text(mistake)).map_err(|_| Memory)
            }
        }
    }

    fn by_state(&mut self, bytes: &[u8]) -> Result<Output, Stop>
        ensures { Steps result self.old self.new (by_state self.old (command_words bytes.now)) }
    {
        if self.running {
            self.while_running(bytes)
        } else {
            self.while_stopped(bytes)
        }
    }

    fn while_running(&mut self, bytes: &[u8]) -> Result<Output, Stop>
        ensures { Steps result self.old self.new
            (while_running self.old (command_words bytes.now)) }
    {
        match next_word(bytes) {
            Some((word, rest)) => self.by_word(word, rest),
            None => Err(Stop::Bad(Mistake::Usage)),
        }
    }

    fn while_stopped(&mut self, bytes: &[u8]) -> Result<Output, Stop>
        ensures { Steps result self.old self.new
            (while_stopped self.old (command_words bytes.now)) }
    {
        match next_word(bytes) {
            Some((word, rest)) if word == b"start".as_slice() => self.start(rest),
            _ => Err(Stop::Bad(Mistake::NotRunning)),
        }
    }

    fn by_word(&mut self, word: &[u8], rest: &[u8]) -> Result<Output, Stop>
        ensures { Steps result self.old self.new
            (by_word self.old word.now (command_words rest.now)) }
    {
        if word == b"start".as_slice() {
            Err(Stop::Bad(Mistake::Running))
        } else if word == b"add".as_slice() {
            self.add(rest)
        } else if word == b"remove".as_slice() {
            self.remove(rest)
        } else if word == b"join".as_slice() {
            self.join(rest)
        } else if word == b"leave".as_slice() {
            self.leave(rest)
        } else if word == b"flush".as_slice() {
            self.flush(rest)
        } else if word == b"show".as_slice() {
            self.show(rest)
        } else if word == b"reload".as_slice() {
            self.reload(rest)
        } else if word == b"poll".as_slice() {
            self.poll(rest)
        } else if word == b"kill".as_slice() {
            self.kill(rest)
        } else {
            Err(Stop::Bad(Mistake::Usage))
        }
    }

    /// `start`: Init, then vifs and routes.
    fn start(&mut self, words: &[u8]) -> Result<Output, Stop>
        ensures { Steps result self.old self.new (start self.old (command_words words.now)) }
    {
        nothing_behind(words)?;
        let mut requests = Vec::new(self.alloc);
        requests.push(Request::Init)?;
        self.settings.push_makings(&mut requests)?;
        let output = asking(self.alloc, requests)?;
        self.running = true;
        self.plan = Plan::of(&output);
        Ok(output)
    }

    /// `reload`: all is removed, and the next configuration is taken.
    fn reload(&mut self, words: &[u8]) -> Result<Output, Stop>
        ensures { Steps result self.old self.new (reload self.old (command_words words.now)) }
    {
        nothing_behind(words)?;
        let place = self.next_place();
        let names = self.names.0.as_slice();
        let settings = Settings::at(self.alloc, names, self.confs.0.as_slice(), place)?;
        let mut requests = Vec::new(self.alloc);
        let learned = self.learned.0.as_slice();
        self.settings.push_clearings(learned, &mut requests)?;
        settings.push_makings(&mut requests)?;
        let output = asking(self.alloc, requests)?;
        self.place = place;
        self.settings = settings;
        self.learned = List(Vec::new(self.alloc));
        self.plan = Plan::of(&output);
        Ok(output)
    }

    /// The place of the next configuration; behind the last one it is the last one again.
    fn next_place(&self) -> usize
        ensures { result ≡ next_place self.now }
    {
        let count = self.confs.0.as_slice().len();
        if self.place < count && self.place + 1 < count {
            self.place + 1
        } else {
            self.place
        }
    }

    /// `flush`: each learned route goes, oldest first.
    fn flush(&mut self, words: &[u8]) -> Result<Output, Stop>
        ensures { Steps result self.old self.new (flush self.old (command_words words.now)) }
    {
        nothing_behind(words)?;
        let mut requests = Vec::new(self.alloc);
        push_del_learned(self.learned.0.as_slice(), &mut requests)?;
        let output = asking(self.alloc, requests)?;
        self.learned.0.clear();
        self.plan = Plan::of(&output);
        Ok(output)
    }

    /// `kill`: Finish, and the machine isn't running.
    fn kill(&mut self, words: &[u8]) -> Result<Output, Stop>
        ensures { Steps result self.old self.new (kill self.old (command_words words.now)) }
    {
        nothing_behind(words)?;
        let mut requests = Vec::new(self.alloc);
        requests.push(Request::Finish)?;
        let output = asking(self.alloc, requests)?;
        self.running = false;
        self.plan = Plan::of(&output);
        Ok(output)
    }

    /// `poll` does nothing by itself.
    fn poll(&mut self, words: &[u8]) -> Result<Output, Stop>
        ensures { Steps result self.old self.new (poll self.old (command_words words.now)) }
    {
        nothing_behind(words)?;
        let output = asking(self.alloc, Vec::new(self.alloc))?;
        self.plan = Plan::of(&output);
        Ok(output)
    }
}
