ghost use Rattle.std.specs.Prelude.{◌≡◌, ◌≤◌, ◌++◌, length, slice_get, IfOk, OnOk, OnErr};
ghost use Rattle.smc_rules.specs.Groups.{has_group, with_group, without_group};
ghost use Rattle.smc_rules.specs.Reports.{asked_by, asked_for};
ghost use Rattle.smc_rules.specs.Requests.{rule_requests};
ghost use Rattle.smc_rules.specs.Rules.{has_rule, with_rule, without_rule};
ghost use Rattle.smc_rules.specs.Settings.{settings_of, makings, clearings};
ghost use Rattle.smc_rules.specs.declared.aim.Aim.TheVariants as aim;

use crate::aim::Aim;
use crate::interface::Interface;
use crate::interfaces::interfaces_of;
use crate::key::Key;
use crate::learned::Learned;
use crate::requests::{add_route, push_del_learned, push_rule, push_rules, push_vifs};
use crate::rules::{Groups, Rules, first_serving, groups_of, rules_of};
use indexmap::{IndexMap, IndexSet};
use mr_base::{FileName, List};
use mr_model::{Request, Told};
use smc_conf::Conf;
use std::alloc::{AllocError, Global};
use std::marker::Model;

/// What a configuration sets, and commands change. A rule and a group are found by their key in
/// constant time.
#[derive(Drop)]
pub struct Settings {
    /// The active interfaces, at most 32.
    interfaces: Vec<Interface>,
    rules: Rules,
    groups: Groups,
}

impl Model for Settings {
    ghost use Rattle.std.specs.Prelude.{◌≤◌, length};
    ghost use Rattle.smc_rules.specs.Settings.{SettingsValue};

    ghost Value = { SettingsValue };

    ghost view = { λ s. record {
      interfaces = s.interfaces.items;
      rules = s.rules.entries;
      groups = s.groups.keys;
    } };

    ghost invariant = { λ s. length s.interfaces.items ≤ 32 };
}

/// What a rule asks for a packet that had no route, and how the route is learned.
fn asked_by(
    interfaces: &[Interface],
    told: Told,
    key: &Key,
    outs: &[FileName],
) -> (Request, Learned)
    requires { length interfaces.now ≤ 32 }
    ensures { result ≡ asked_by interfaces.now told (key.now, outs.now) }
{
    let request = add_route(interfaces, usize::from(told.vif), told.src, told.dst, outs);
    let learned = Learned {
        vif: told.vif,
        src: told.src,
        dst: told.dst,
        source: key.source,
        group: key.group,
    };
    (request, learned)
}

impl Settings {
    /// The settings of the configuration at a place, from 0; none where there is none. `names` are
    /// the devices in order: their numbers are 1, 2, and so on.
    ///
    /// # Errors
    ///
    /// Where memory runs out.
    pub fn at(
        alloc: Global,
        names: &[FileName],
        confs: &[Conf],
        place: usize,
    ) -> Result<Settings, AllocError>
        ensures { IfOk result (λ s. s ≡ settings_of names.now (slice_get confs.now place)) }
    {
        match confs.get(place) {
            Some(conf) => Ok(Settings {
                interfaces: interfaces_of(alloc, names, conf.phyints.0.as_slice())?,
                rules: rules_of(alloc, conf.rules.0.as_slice())?,
                groups: groups_of(alloc, conf.groups.0.as_slice())?,
            }),
            None => Ok(Settings {
                interfaces: Vec::new(alloc),
                rules: IndexMap::new(alloc),
                groups: IndexSet::new(alloc),
            }),
        }
    }

    /// The active interfaces, at most 32. Their vifs are 0, 1, and so on.
    pub fn interfaces(&self) -> &[Interface]
        ensures value { result.now ≡ self.now.interfaces }
        ensures within { length result.now ≤ 32 }
    {
        self.interfaces.as_slice()
    }

    /// The outputs of each rule, by its key, in order.
    pub fn rules(&self) -> &Rules
        ensures { result.now.entries ≡ self.now.rules }
    {
        &self.rules
    }

    /// The keys of the groups, in the order of joining.
    pub fn groups(&self) -> &Groups
        ensures { result.now.keys ≡ self.now.groups }
    {
        &self.groups
    }

    /// Whether there is a rule of this key.
    pub fn has_rule(&self, key: &Key) -> bool
        ensures { result ≡ has_rule self.now.rules key.now }
    {
        self.rules.contains_key(key)
    }

    /// A rule of this key has these outputs from now on; a new one goes last.
    ///
    /// # Errors
    ///
    /// Where memory runs out; all is then as before.
    pub fn set_rule(&mut self, key: Key, outs: List<FileName>) -> Result<(), AllocError>
        ensures ok { OnOk result
            (self.new ≡ record self.old { rules = with_rule self.old.rules key outs }) }
        ensures err { OnErr result (self.new ≡ self.old) }
    {
        self.rules.insert(key, outs)?;
        Ok(())
    }

    /// The rule of this key goes; the others keep their order.
    pub fn remove_rule(&mut self, key: &Key)
        ensures { self.new ≡ record self.old { rules = without_rule self.old.rules key.now } }
    {
        self.rules.shift_remove(key);
    }

    /// Whether there is a group of this key.
    pub fn has_group(&self, key: &Key) -> bool
        ensures { result ≡ has_group self.now.groups key.now }
    {
        self.groups.contains(key)
    }

    /// A group of this key is there from now on; a new one goes last.
    ///
    /// # Errors
    ///
    /// Where memory runs out; all is then as before.
    pub fn join(&mut self, key: Key) -> Result<(), AllocError>
        ensures ok { OnOk result
            (self.new ≡ record self.old { groups = with_group self.old.groups key }) }
        ensures err { OnErr result (self.new ≡ self.old) }
    {
        self.groups.insert(key)?;
        Ok(())
    }

    /// The group of this key goes; the others keep their order.
    pub fn leave(&mut self, key: &Key)
        ensures { self.new ≡ record self.old { groups = without_group self.old.groups key.now } }
    {
        self.groups.shift_remove(key);
    }

    /// The route of a rule, if it is exact and its input is active, behind these requests.
    ///
    /// # Errors
    ///
    /// Where memory runs out.
    pub fn push_rule(
        &self,
        key: &Key,
        outs: &[FileName],
        requests: &mut Vec<Request>,
    ) -> Result<(), AllocError>
        ensures { OnOk result (requests.new.items ≡ requests.old.items
            ++ rule_requests aim.Add self.now.interfaces (key.now, outs.now)) }
    {
        push_rule(Aim::Add, self.interfaces.as_slice(), key, outs, requests)
    }

    /// A vif per active interface, then a route per exact rule with an active input, behind these
    /// requests.
    ///
    /// # Errors
    ///
    /// Where memory runs out.
    pub fn push_makings(&self, requests: &mut Vec<Request>) -> Result<(), AllocError>
        ensures { OnOk result (requests.new.items ≡ requests.old.items ++ makings self.now) }
    {
        let interfaces = self.interfaces.as_slice();
        push_vifs(Aim::Add, interfaces, requests)?;
        push_rules(Aim::Add, interfaces, &self.rules, requests)?;
        Ok(())
    }

    /// The removals of the routes of exact rules, of learned routes, and then of each vif, rising,
    /// behind these requests.
    ///
    /// # Errors
    ///
    /// Where memory runs out.
    pub fn push_clearings(
        &self,
        learned: &[Learned],
        requests: &mut Vec<Request>,
    ) -> Result<(), AllocError>
        ensures { OnOk result (requests.new.items
            ≡ requests.old.items ++ clearings self.now learned.now) }
    {
        let interfaces = self.interfaces.as_slice();
        push_rules(Aim::Delete, interfaces, &self.rules, requests)?;
        push_del_learned(learned, requests)?;
        push_vifs(Aim::Delete, interfaces, requests)?;
        Ok(())
    }

    /// What is asked for a packet that had no route, and how the route is learned: by the first
    /// rule in order that serves it, if there is one.
    pub fn asked_for(&self, told: Told) -> Option<(Request, Learned)>
        ensures { result ≡ asked_for self.now told }
    {
        let interfaces = self.interfaces.as_slice();
        let interface = interfaces.get(usize::from(told.vif))?;
        let name = interface.name.as_str().as_bytes();
        let (key, outs) = first_serving(name, told, &self.rules)?;
        Some(asked_by(interfaces, told, key, outs.0.as_slice()))
    }
}
