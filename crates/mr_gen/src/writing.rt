//! The summary of a history as a text.

ghost use Rattle.std.specs.Prelude.{◌≡◌, ◌+◌, ◌<◌, ◌^◌, ◌++◌, ◌∷◌, codes, decimal, IfOk, OnOk};
ghost use Rattle.mr_gen.specs.Adding.{six_lines};
ghost use Rattle.mr_gen.specs.Summary.{line, line_of_two, summary};

use crate::summing::{Busy, Walked, busiest_of, bytes_of, walk};
use itoa::Buffer;
use mr_base::Memory;
use mr_kernel::Kernel;
use mr_model::Ending;
use std::alloc::{AllocError, Global};

/// Room for six lines; more is taken where their numbers are longer than those of any run.
const ROOM: usize = 256;

/// A space and a number, behind what a text has.
fn write_number(out: &mut Vec<u8>, number: u128) -> Result<(), AllocError>
    ensures { OnOk result (out.new.items ≡ out.old.items ++ 32 ∷ decimal number) }
{
    let mut buffer = Buffer::new();
    out.push(b' ')?;
    out.extend_from_slice(buffer.format(number).as_bytes())?;
    Ok(())
}

/// A word and a number as a line.
fn write_line(out: &mut Vec<u8>, word: &[u8], number: u128) -> Result<(), AllocError>
    ensures { OnOk result (out.new.items ≡ out.old.items ++ line word.now number) }
{
    out.extend_from_slice(word)?;
    write_number(out, number)?;
    out.push(b'\n')?;
    Ok(())
}

/// The line of the busiest (S,G) entry.
fn write_busiest(out: &mut Vec<u8>, busiest: &Busy) -> Result<(), AllocError>
    ensures { OnOk result (out.new.items ≡ out.old.items
        ++ line_of_two (codes "busiest") busiest.now.number busiest.now.packets) }
{
    out.extend_from_slice(b"busiest")?;
    write_number(out, u128::from(busiest.number))?;
    write_number(out, u128::from(busiest.packets))?;
    out.push(b'\n')?;
    Ok(())
}

/// The lines of what the packets come to.
fn write_walked(out: &mut Vec<u8>, sums: &Walked) -> Result<(), AllocError>
    requires { sums.now.fast + sums.now.slow < 2 ^ 128 }
    ensures { OnOk result (out.new.items ≡ out.old.items
        ++ line (codes "packets") (sums.now.fast + sums.now.slow)
        ++ line (codes "fast") sums.now.fast
        ++ line (codes "slow") sums.now.slow
        ++ line (codes "copies") sums.now.copies) }
{
    write_line(out, b"packets", sums.fast + sums.slow)?;
    write_line(out, b"fast", sums.fast)?;
    write_line(out, b"slow", sums.slow)?;
    write_line(out, b"copies", sums.copies)?;
    Ok(())
}

/// All six lines.
fn summary_of(alloc: Global, sums: &Walked, ending: &Ending) -> Result<Vec<u8>, AllocError>
    requires { sums.now.fast + sums.now.slow < 2 ^ 128 }
    ensures { IfOk result (λ t. t.items ≡ six_lines sums.now ending.now.routes) }
{
    let mut out = Vec::with_capacity(alloc, ROOM)?;
    let routes = ending.routes.0.as_slice();
    write_walked(&mut out, sums)?;
    write_line(&mut out, b"bytes", bytes_of(routes))?;
    write_busiest(&mut out, &busiest_of(routes))?;
    Ok(out)
}

/// The summary of a machine's history: one pass over it for the packets and their copies, and what
/// the live (S,G) entries have counted for the bytes and the busiest.
///
/// # Errors
///
/// [`Memory`] where memory runs out.
pub fn write_summary(alloc: Global, kernel: &Kernel) -> Result<Vec<u8>, Memory>
    ensures { IfOk result (λ t. t.items ≡ summary kernel.now.limits kernel.now.history) }
{
    let ending = kernel.ending(alloc)?;
    let sums = walk(kernel.journal());
    match summary_of(alloc, &sums, &ending) {
        Ok(text) => Ok(text),
        Err(AllocError) => Err(Memory),
    }
}
