//! What the lines of answers are made of. Each function writes behind what the buffer has.

ghost use Rattle.std.specs.Prelude.{◌≡◌, ◌++◌, ◌∷◌, decimal, flat_map, OnOk};
ghost use Rattle.std.specs.List.{join_with_byte};
ghost use Rattle.smc_words.specs.Words.{address};

use itoa::Buffer;
use mr_base::{Addr, FileName};
use std::alloc::AllocError;

/// A number in decimal digits.
///
/// # Errors
///
/// Where memory runs out.
pub fn write_number(out: &mut Vec<u8>, number: u32) -> Result<(), AllocError>
    ensures { OnOk result (out.new.items ≡ out.old.items ++ decimal number) }
{
    let mut buffer = Buffer::new();
    out.extend_from_slice(buffer.format(number).as_bytes())?;
    Ok(())
}

/// A dot and a number.
fn write_part(out: &mut Vec<u8>, number: u32) -> Result<(), AllocError>
    ensures { OnOk result (out.new.items ≡ out.old.items ++ 46 ∷ decimal number) }
{
    out.push(b'.')?;
    write_number(out, number)?;
    Ok(())
}

/// An address as a.b.c.d.
///
/// # Errors
///
/// Where memory runs out.
#[tactic(auto, unfolding(crate::specs::Words::address))]
pub fn write_address(out: &mut Vec<u8>, addr: Addr) -> Result<(), AllocError>
    ensures { OnOk result (out.new.items ≡ out.old.items ++ address addr) }
{
    write_number(out, addr.0 / 16_777_216)?;
    write_part(out, addr.0 / 65_536 % 256)?;
    write_part(out, addr.0 / 256 % 256)?;
    write_part(out, addr.0 % 256)?;
    Ok(())
}

/// A name of a device.
///
/// # Errors
///
/// Where memory runs out.
pub fn write_name(out: &mut Vec<u8>, name: &FileName) -> Result<(), AllocError>
    ensures { OnOk result (out.new.items ≡ out.old.items ++ name.now) }
{
    out.extend_from_slice(name.as_str().as_bytes())?;
    Ok(())
}

/// Names, each behind a comma.
fn write_further(out: &mut Vec<u8>, names: &[FileName]) -> Result<(), AllocError>
    ensures { OnOk result (out.new.items ≡ out.old.items ++ flat_map (λ w. 44 ∷ w) names.now) }
{
    for name in names {
        out.push(b',')?;
        write_name(out, name)?;
    }
    Ok(())
}

/// Names, parted by commas.
///
/// # Errors
///
/// Where memory runs out.
pub fn write_names(out: &mut Vec<u8>, names: &[FileName]) -> Result<(), AllocError>
    ensures { OnOk result (out.new.items ≡ out.old.items ++ join_with_byte 44 names.now) }
{
    if let [first, further @ ..] = names {
        write_name(out, first)?;
        write_further(out, further)?;
    }
    Ok(())
}
