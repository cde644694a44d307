//! The rules and the groups, each in order and found by its key in constant time.

ghost use Rattle.std.specs.Map.Iter.{deref_pair};
ghost use Rattle.std.specs.Prelude.{◌≡◌, [], IfOk, option_map};
ghost use Rattle.smc_rules.specs.Groups.{groups_from, key_of_group};
ghost use Rattle.smc_rules.specs.Keys.{is_in};
ghost use Rattle.smc_rules.specs.Rules.{key_of, rules_from, serves, first_serving};

use crate::key::Key;
use crate::requests::is_exact;
use indexmap::{IndexMap, IndexSet};
use mr_base::{Addr, FileName, List};
use mr_model::Told;
use smc_conf::{Group, Prefix, Rule};
use std::alloc::{AllocError, Global};

/// The outputs of each rule, by its key, in the order of the rules.
pub type Rules = IndexMap<Key, List<FileName>>;

/// The keys of the groups, in the order of joining.
pub type Groups = IndexSet<Key>;

/// How many bits an address has.
const BITS: u8 = 32;

/// These names once more.
fn names_again(alloc: Global, names: &[FileName]) -> Result<List<FileName>, AllocError>
    ensures { IfOk result (λ l. l ≡ names.now) }
{
    let mut copy = Vec::new(alloc);
    for name in names {
        copy.push(FileName::new(name.as_str()))?;
    }
    Ok(List(copy))
}

/// The rules of a configuration's lines.
pub(crate) fn rules_of(alloc: Global, lines: &[Rule]) -> Result<Rules, AllocError>
    ensures { IfOk result (λ m. m.entries ≡ rules_from [] lines.now) }
{
    let mut rules = IndexMap::new(alloc);
    for line in lines {
        let outs = names_again(alloc, line.outs.0.as_slice())?;
        rules.insert(key_of(line), outs)?;
    }
    Ok(rules)
}

/// The key of a rule's line.
fn key_of(line: &Rule) -> Key
    ensures { result ≡ key_of line.now }
{
    Key {
        input: FileName::new(line.input.as_str()),
        source: line.source,
        group: line.group,
    }
}

/// The groups of a configuration's lines.
pub(crate) fn groups_of(alloc: Global, lines: &[Group]) -> Result<Groups, AllocError>
    ensures { IfOk result (λ s. s.keys ≡ groups_from [] lines.now) }
{
    let mut groups = IndexSet::new(alloc);
    for line in lines {
        groups.insert(key_of_group(line))?;
    }
    Ok(groups)
}

/// The key of a group's line.
fn key_of_group(line: &Group) -> Key
    ensures { result ≡ key_of_group line.now }
{
    Key {
        input: FileName::new(line.input.as_str()),
        source: line.source,
        group: line.group,
    }
}

/// Whether an address begins with the bits of a prefix.
fn is_in(prefix: Prefix, addr: Addr) -> bool
    ensures { result ≡ is_in prefix addr.0 }
{
    let size = 1u64 << BITS.saturating_sub(prefix.len);
    u64::from(addr.0) / size == u64::from(prefix.addr.0) / size
}

/// Whether a rule that isn't exact has this input and matches the source and the group.
fn serves(name: &[u8], told: Told, key: &Key, outs: &[FileName]) -> bool
    ensures { result ≡ serves name.now told (key.now, outs.now) }
{
    !is_exact(key)
        && key.input.as_str().as_bytes() == name
        && is_in(key.source, told.src)
        && is_in(key.group, told.dst)
}

/// The first rule that serves what came in on the interface with this name.
pub(crate) fn first_serving<'a>(
    name: &[u8],
    told: Told,
    rules: &'a Rules,
) -> Option<(&'a Key, &'a List<FileName>)>
    ensures { option_map deref_pair result ≡ first_serving name.now told rules.now.entries }
{
    let mut rest = rules.as_slice();
    'rules: while let Some(((key, outs), after)) = rest.split_first() {
        if serves(name, told, key, outs.0.as_slice()) {
            return Some((key, outs));
        }
        rest = after;
    }
    None
}
