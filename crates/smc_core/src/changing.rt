//! The commands with a source and a group: `add`, `remove`, `join` and `leave`.

ghost use Rattle.std.specs.Prelude.{◌≡◌, ◌<◌, ◌^◌, map, filter, not, IfOk};
ghost use Rattle.smc_core.specs.Answers.{Steps};
ghost use Rattle.smc_core.specs.Changing.{add, remove, is_of, undoing, left_by};
ghost use Rattle.smc_core.specs.Joining.{group_in, join, leave};
ghost use Rattle.smc_rules.specs.Requests.{del_learned as removal};
ghost use Rattle.smc_words.specs.Words.{command_words};

use crate::commands::asking;
use crate::input::Output;
use crate::mistake::Mistake;
use crate::plan::Plan;
use crate::ranges::{active_key, active_names, nothing_behind, range_of, something_behind};
use crate::smc::Smc;
use crate::stop::Stop;
use mr_model::Request;
use smc_rules::{Key, Learned, del_learned, del_route, is_exact};
use std::alloc::{AllocError, Global};

/// Whether a learned route is the rule's of this key, whose input has this vif.
fn is_of(vif: usize, key: &Key, learned: &Learned) -> bool
    ensures { result ≡ is_of vif key.now learned.now }
{
    usize::from(learned.vif) == vif && learned.source == key.source && learned.group == key.group
}

/// The removals of the routes that a rule learned, oldest first.
fn unlearning(
    alloc: Global,
    vif: usize,
    key: &Key,
    learned: &[Learned],
) -> Result<Vec<Request>, AllocError>
    ensures { IfOk result (λ v. v.items ≡ map removal (filter (is_of vif key.now) learned.now)) }
{
    let mut requests = Vec::new(alloc);
    for entry in learned {
        if is_of(vif, key, entry) {
            requests.push(del_learned(entry))?;
        }
    }
    Ok(requests)
}

/// The removals of what was made for a rule.
fn undoing(
    alloc: Global,
    vif: usize,
    key: &Key,
    learned: &[Learned],
) -> Result<Vec<Request>, AllocError>
    requires { vif < 2 ^ 16 }
    ensures { IfOk result (λ v. v.items ≡ undoing vif key.now learned.now) }
{
    if !is_exact(key) {
        return unlearning(alloc, vif, key, learned);
    }
    let mut requests = Vec::new(alloc);
    requests.push(del_route(vif, key.source.addr, key.group.addr))?;
    Ok(requests)
}

/// The routes that a rule learned leave the list.
fn unlearn(vif: usize, key: &Key, learned: &mut Vec<Learned>)
    ensures { learned.new.items ≡ filter (λ l. not (is_of vif key.now l)) learned.old.items }
{
    learned.retain(|entry| !is_of(vif, key, entry));
}

/// Learned routes leave the list where their removal is asked.
fn forget(vif: usize, key: &Key, learned: &mut Vec<Learned>)
    ensures { learned.new.items ≡ left_by vif key.now learned.old.items }
{
    if !is_exact(key) {
        unlearn(vif, key, learned);
    }
}

impl Smc {
    /// `add IF [A[/LEN]] G[/LEN] OUT ..`
    pub(crate) fn add(&mut self, words: &[u8]) -> Result<Output, Stop>
        ensures { Steps result self.old self.new (add self.old (command_words words.now)) }
    {
        let range = range_of(words)?;
        something_behind(range.behind)?;
        let interfaces = self.settings.interfaces();
        let (_vif, key) = active_key(interfaces, range.input, range.source, range.group)?;
        let outs = active_names(self.alloc, interfaces, range.behind)?;
        let mut requests = Vec::new(self.alloc);
        self.settings
            .push_rule(&key, outs.0.as_slice(), &mut requests)?;
        let output = asking(self.alloc, requests)?;
        self.settings.set_rule(key, outs)?;
        self.plan = Plan::of(&output);
        Ok(output)
    }

    /// `remove IF [A[/LEN]] G[/LEN]`
    pub(crate) fn remove(&mut self, words: &[u8]) -> Result<Output, Stop>
        ensures { Steps result self.old self.new (remove self.old (command_words words.now)) }
    {
        let range = range_of(words)?;
        nothing_behind(range.behind)?;
        let interfaces = self.settings.interfaces();
        let (vif, key) = active_key(interfaces, range.input, range.source, range.group)?;
        if !self.settings.has_rule(&key) {
            return Err(Stop::Bad(Mistake::NoRoute));
        }
        let requests = undoing(self.alloc, vif, &key, self.learned.0.as_slice())?;
        let output = asking(self.alloc, requests)?;
        self.settings.remove_rule(&key);
        forget(vif, &key, &mut self.learned.0);
        self.plan = Plan::of(&output);
        Ok(output)
    }

    /// The key of a group in a command.
    fn group_in(&self, words: &[u8]) -> Result<Key, Mistake>
        ensures { result ≡ group_in self.now.settings.interfaces (command_words words.now) }
    {
        let range = range_of(words)?;
        nothing_behind(range.behind)?;
        let interfaces = self.settings.interfaces();
        let (_vif, key) = active_key(interfaces, range.input, range.source, range.group)?;
        Ok(key)
    }

    /// `join IF [A[/LEN]] G[/LEN]`
    pub(crate) fn join(&mut self, words: &[u8]) -> Result<Output, Stop>
        ensures { Steps result self.old self.new (join self.old (command_words words.now)) }
    {
        let key = self.group_in(words)?;
        let output = asking(self.alloc, Vec::new(self.alloc))?;
        self.settings.join(key)?;
        self.plan = Plan::of(&output);
        Ok(output)
    }

    /// `leave IF [A[/LEN]] G[/LEN]`
    pub(crate) fn leave(&mut self, words: &[u8]) -> Result<Output, Stop>
        ensures { Steps result self.old self.new (leave self.old (command_words words.now)) }
    {
        let key = self.group_in(words)?;
        if !self.settings.has_group(&key) {
            return Err(Stop::Bad(Mistake::NoGroup));
        }
        let output = asking(self.alloc, Vec::new(self.alloc))?;
        self.settings.leave(&key);
        self.plan = Plan::of(&output);
        Ok(output)
    }
}
