//! Laws of the definitions.
ghost use Rattle.std.specs.Prelude.{◌≡◌, ℕ, zero, Ok, All, List, flat_map};
ghost use Rattle.mr_pcap.specs.declared.order.Order.{Order};
ghost use Rattle.mr_pcap.specs.Places.{AreBytes, Fits};
ghost use Rattle.mr_pcap.specs.Traces.{Capture, Captured, capture_of, file_bytes, record_in};
ghost use Rattle.mr_pcap.specs.Traces.{records_behind};

/// What is written, read, is the trace: its contract says so of each trace whose numbers fit in 32
/// bits. It does nothing.
pub fn written_is_read()
    ensures { (c : Capture) → All Fits c.records → capture_of (file_bytes c) ≡ Ok c }
{}

/// Records are read of just those bytes that spell them, one behind another, in either order of
/// their numbers. It does nothing.
pub fn records_are_spelled()
    ensures read { (order : Order) (n : ℕ) (bs : List ℕ) (rs : List Captured) → AreBytes bs
        → records_behind order n zero bs ≡ Ok rs → bs ≡ flat_map (record_in order) rs }
    ensures spelled { (order : Order) (n : ℕ) (rs : List Captured) → All Fits rs
        → records_behind order n zero (flat_map (record_in order) rs) ≡ Ok rs }
{}
