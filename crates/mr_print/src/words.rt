//! Words that are put behind a text.

ghost use Rattle.std.specs.Prelude.{◌≡◌, ◌++◌, ◌∷◌, [], decimal, OnOk};
ghost use Rattle.mr_lines.specs.Forms.{address, mask, vif_or_none, local_word, thresholds};
ghost use Rattle.mr_print.specs.Written.{led};

use itoa::Buffer;
use mr_base::{Addr, Mask};
use mr_model::VifCtl;
use mr_records::put_mask;
use std::alloc::AllocError;

/// A number.
pub fn write_number(out: &mut Vec<u8>, number: u64) -> Result<(), AllocError>
    ensures { OnOk result (out.new.items ≡ out.old.items ++ decimal number) }
{
    let mut buffer = Buffer::new();
    out.extend_from_slice(buffer.format(number).as_bytes())?;
    Ok(())
}

/// A space and a number.
pub fn write_spaced(out: &mut Vec<u8>, number: u64) -> Result<(), AllocError>
    ensures { OnOk result (out.new.items ≡ out.old.items ++ 32 ∷ decimal number) }
{
    out.extend_from_slice(b" ")?;
    write_number(out, number)?;
    Ok(())
}

/// A byte and a number.
fn write_part(out: &mut Vec<u8>, byte: u8, number: u32) -> Result<(), AllocError>
    ensures { OnOk result (out.new.items ≡ out.old.items ++ byte ∷ decimal number) }
{
    out.push(byte)?;
    write_number(out, u64::from(number))?;
    Ok(())
}

/// A space, and an address as a.b.c.d.
#[tactic(auto, unfolding(mr_lines::specs::Forms::address))]
pub fn write_address(out: &mut Vec<u8>, addr: Addr) -> Result<(), AllocError>
    ensures { OnOk result (out.new.items ≡ out.old.items ++ 32 ∷ address addr) }
{
    write_part(out, b' ', addr.0 / 16_777_216)?;
    write_part(out, b'.', addr.0 / 65_536 % 256)?;
    write_part(out, b'.', addr.0 / 256 % 256)?;
    write_part(out, b'.', addr.0 % 256)?;
    Ok(())
}

/// A space and `V:T`, for a threshold T that isn't 0.
fn write_threshold(out: &mut Vec<u8>, vif: u8, ttl: u8) -> Result<(), AllocError>
    ensures { OnOk result (out.new.items ≡ out.old.items ++ led (thresholds vif (ttl ∷ []))) }
{
    if ttl == 0 {
        return Ok(());
    }
    write_part(out, b' ', u32::from(vif))?;
    write_part(out, b':', u32::from(ttl))?;
    Ok(())
}

/// A space and `V:T` for each threshold that isn't 0.
pub fn write_thresholds(out: &mut Vec<u8>, ttls: &[u8; 32]) -> Result<(), AllocError>
    ensures { OnOk result (out.new.items ≡ out.old.items ++ led (thresholds 0 ttls.now)) }
{
    let mut vif = 0u8;
    for ttl in ttls {
        write_threshold(out, vif, *ttl)?;
        vif += 1;
    }
    Ok(())
}

/// A space, and the vifs of a mask or `-`.
pub fn write_mask(out: &mut Vec<u8>, outs: Mask) -> Result<(), AllocError>
    ensures { OnOk result (out.new.items ≡ out.old.items ++ 32 ∷ mask outs) }
{
    let mut row = [0u8; 144];
    let at = put_mask(&mut row, 144, outs);
    out.extend_from_slice(&row[at..])?;
    Ok(())
}

/// A space, and a vif or `-`.
#[tactic(auto, unfolding(mr_lines::specs::Forms::vif_or_none))]
pub fn write_vif_or_none(out: &mut Vec<u8>, vif: Option<u8>) -> Result<(), AllocError>
    ensures { OnOk result (out.new.items ≡ out.old.items ++ 32 ∷ vif_or_none vif) }
{
    match vif {
        Some(vif) => write_part(out, b' ', u32::from(vif)),
        None => {
            out.extend_from_slice(b" -")?;
            Ok(())
        }
    }
}

/// A space and the local field of a vif: `@N` with flags 8, else an address.
#[tactic(auto, unfolding(mr_lines::specs::Forms::local_word))]
pub fn write_local(out: &mut Vec<u8>, ctl: &VifCtl) -> Result<(), AllocError>
    ensures { OnOk result (out.new.items ≡ out.old.items ++ 32 ∷ local_word ctl.now) }
{
    if ctl.flags == 8 {
        out.extend_from_slice(b" @")?;
        write_number(out, u64::from(ctl.local))?;
        Ok(())
    } else {
        write_address(out, Addr(ctl.local))
    }
}
