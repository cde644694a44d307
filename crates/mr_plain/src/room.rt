//! Memory for an entry, taken before anything changes.

ghost use Rattle.std.specs.Prelude.{◌≡◌, ◌+◌, ◌<◌, ◌≤◌, OnOk};
ghost use Rattle.std.specs.Vec.{vec_len, vec_capacity};
ghost use Rattle.mr_plain.specs.Room.{HasRoom, SameLists, size_of};

use mr_model::{Entry, FateLine};
use mr_plain_lists::{Known, Meeting};
use std::alloc::{AllocError, Global};

/// How many packets an entry decides.
fn size_of(entry: &Entry) -> usize
    ensures { result ≡ size_of entry.now }
{
    match entry {
        Entry::Call { released, .. } => released.0.as_slice().len(),
        Entry::Slow { .. } => 1,
        Entry::Settle { records, .. } => records.0.as_slice().len(),
        Entry::Tick { .. } | Entry::Recv { .. } | Entry::EndPhase => 0,
    }
}

/// Room in the lists of the state.
fn make_room_in(known: &mut Known, size: usize) -> Result<(), AllocError>
    ensures same { SameLists known.old known.new }
    ensures room { OnOk result (HasRoom size known.new) }
{
    known.vifs.reserve(1)?;
    known.routes.reserve()?;
    known.waiting.reserve(1)?;
    known.unread.reserve(size)?;
    known.attempts.reserve(size)
}

/// Room for what an entry adds to the lists, which stay as they are.
///
/// # Errors
///
/// Where memory runs out.
pub(crate) fn make_room(
    known: &mut Known,
    mets: &mut Vec<Meeting>,
    lines: &mut Vec<FateLine>,
    entry: &Entry,
) -> Result<(), AllocError>
    ensures same { SameLists known.old known.new }
    ensures mets { mets.new.items ≡ mets.old.items }
    ensures lines { lines.new.items ≡ lines.old.items }
    ensures room { OnOk result (HasRoom (size_of entry.now) known.new) }
    ensures room_met { OnOk result
        (vec_len mets.new + size_of entry.now ≤ vec_capacity mets.new) }
    ensures room_line { OnOk result (vec_len lines.new < vec_capacity lines.new) }
{
    let size = size_of(entry);
    mets.reserve(size)?;
    lines.reserve(1)?;
    make_room_in(known, size)
}
