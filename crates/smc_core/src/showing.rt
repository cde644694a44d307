//! What `show` shows.

ghost use Rattle.std.specs.Prelude.{◌≡◌, ◌≤◌, ◌++◌, ◌∷◌, [], decimal, flat_map, length, OnOk};
ghost use Rattle.smc_core.specs.Showing.{group_text, source_text, route_line};
ghost use Rattle.smc_core.specs.Showing.{learned_line, group_line, interface_lines};
ghost use Rattle.smc_rules.specs.Interfaces.{name_of};
ghost use Rattle.smc_words.specs.Words.{line};

use mr_base::FileName;
use smc_conf::Prefix;
use smc_rules::{Groups, Interface, Key, Learned, Rules};
use smc_words::{write_address, write_name, write_names, write_number};
use std::alloc::AllocError;

/// `A`, or `A/LEN` where it isn't 32.
fn write_group(out: &mut Vec<u8>, prefix: Prefix) -> Result<(), AllocError>
    ensures { OnOk result (out.new.items ≡ out.old.items ++ group_text prefix) }
{
    write_address(out, prefix.addr)?;
    if prefix.len == 32 {
        return Ok(());
    }
    out.push(b'/')?;
    write_number(out, u32::from(prefix.len))?;
    Ok(())
}

/// The same, but `*` for all sources.
fn write_source(out: &mut Vec<u8>, prefix: Prefix) -> Result<(), AllocError>
    ensures { OnOk result (out.new.items ≡ out.old.items ++ source_text prefix) }
{
    if prefix.len == 0 {
        out.push(b'*')?;
        return Ok(());
    }
    write_group(out, prefix)?;
    Ok(())
}

/// The interface, the source and the group.
fn write_range(out: &mut Vec<u8>, key: &Key) -> Result<(), AllocError>
    ensures { OnOk result (out.new.items ≡ out.old.items ++ key.now.input ++ 32
        ∷ source_text key.now.source ++ 32 ∷ group_text key.now.group) }
{
    write_name(out, &key.input)?;
    out.push(b' ')?;
    write_source(out, key.source)?;
    out.push(b' ')?;
    write_group(out, key.group)?;
    Ok(())
}

/// The line of a rule.
fn write_route(out: &mut Vec<u8>, key: &Key, outs: &[FileName]) -> Result<(), AllocError>
    ensures { OnOk result (out.new.items ≡ out.old.items ++ route_line (key.now, outs.now)) }
{
    out.extend_from_slice(b"route ")?;
    write_range(out, key)?;
    out.push(b' ')?;
    write_names(out, outs)?;
    out.push(b'\n')?;
    Ok(())
}

/// A line per rule, in order.
pub(crate) fn write_routes(out: &mut Vec<u8>, rules: &Rules) -> Result<(), AllocError>
    ensures { OnOk result (out.new.items
        ≡ out.old.items ++ flat_map route_line rules.now.entries) }
{
    let mut rest = rules.as_slice();
    'rules: while let Some(((key, outs), after)) = rest.split_first() {
        write_route(out, key, outs.0.as_slice())?;
        rest = after;
    }
    Ok(())
}

/// The name of the interface with this vif.
fn write_vif(out: &mut Vec<u8>, interfaces: &[Interface], vif: u8) -> Result<(), AllocError>
    ensures { OnOk result (out.new.items ≡ out.old.items ++ name_of interfaces.now vif) }
{
    if let Some(interface) = interfaces.get(usize::from(vif)) {
        write_name(out, &interface.name)?;
    }
    Ok(())
}

/// The line of a learned route.
fn write_one_learned(
    out: &mut Vec<u8>,
    interfaces: &[Interface],
    learned: Learned,
) -> Result<(), AllocError>
    ensures { OnOk result (out.new.items ≡ out.old.items ++ learned_line interfaces.now learned) }
{
    out.extend_from_slice(b"learned ")?;
    write_vif(out, interfaces, learned.vif)?;
    out.push(b' ')?;
    write_address(out, learned.src)?;
    out.push(b' ')?;
    write_address(out, learned.dst)?;
    out.push(b'\n')?;
    Ok(())
}

/// A line per learned route.
pub(crate) fn write_learned(
    out: &mut Vec<u8>,
    interfaces: &[Interface],
    learned: &[Learned],
) -> Result<(), AllocError>
    ensures { OnOk result (out.new.items
        ≡ out.old.items ++ flat_map (learned_line interfaces.now) learned.now) }
{
    for entry in learned {
        write_one_learned(out, interfaces, *entry)?;
    }
    Ok(())
}

/// The line of a group.
fn write_one_group(out: &mut Vec<u8>, key: &Key) -> Result<(), AllocError>
    ensures { OnOk result (out.new.items ≡ out.old.items ++ group_line key.now) }
{
    out.extend_from_slice(b"group ")?;
    write_range(out, key)?;
    out.push(b'\n')?;
    Ok(())
}

/// A line per group, in order of joining.
pub(crate) fn write_groups(out: &mut Vec<u8>, groups: &Groups) -> Result<(), AllocError>
    ensures { OnOk result (out.new.items ≡ out.old.items ++ flat_map group_line groups.now.keys) }
{
    for key in groups.as_slice() {
        write_one_group(out, key)?;
    }
    Ok(())
}

/// The line of an active interface.
fn write_interface(out: &mut Vec<u8>, vif: u32, interface: &Interface) -> Result<(), AllocError>
    ensures { OnOk result (out.new.items ≡ out.old.items
        ++ line (decimal vif ∷ interface.now.name ∷ decimal interface.now.threshold ∷ [])) }
{
    write_number(out, vif)?;
    out.push(b' ')?;
    write_name(out, &interface.name)?;
    out.push(b' ')?;
    write_number(out, u32::from(interface.threshold))?;
    out.push(b'\n')?;
    Ok(())
}

/// A line per active interface.
pub(crate) fn write_interfaces(
    out: &mut Vec<u8>,
    interfaces: &[Interface],
) -> Result<(), AllocError>
    requires { length interfaces.now ≤ 32 }
    ensures { OnOk result (out.new.items ≡ out.old.items ++ interface_lines 0 interfaces.now) }
{
    let mut vif = 0u32;
    for interface in interfaces {
        write_interface(out, vif, interface)?;
        vif += 1;
    }
    Ok(())
}
