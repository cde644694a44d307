//! How much the traces of a scenario may be.

ghost use Rattle.std.specs.Prelude.{◌≡◌, if◌then◌else◌, Some, None};
ghost use Rattle.mr_load.specs.Refusals.{are_few, with_trace};

use mr_base::MOST_ITEMS;

/// The bytes of all trace files of a scenario together.
pub const MOST_TRACE_BYTES: u64 = 1_073_741_824;

/// The items of all lanes, and the bytes of the trace files, as far as files are read.
#[derive(Clone, Copy, Debug)]
pub(crate) struct Totals {
    pub items: u64,
    pub bytes: u64,
}

/// The totals with one file more, of so many records and bytes, which so many lines name: none
/// where that is too much.
pub(crate) fn with_file(totals: Totals, lines: u64, records: u64, bytes: u64) -> Option<Totals>
    ensures { result ≡ (if are_few (with_trace totals lines records bytes)
        then Some (with_trace totals lines records bytes) else None) }
{
    let items = totals.items.saturating_add(lines.saturating_mul(records));
    let bytes = totals.bytes.saturating_add(bytes);
    if items <= MOST_ITEMS as u64 && bytes <= MOST_TRACE_BYTES {
        Some(Totals { items, bytes })
    } else {
        None
    }
}
