ghost use Rattle.std.specs.Prelude.{◌≡◌, slice_index};
ghost use Rattle.mr_model.specs.declared.message.Kind.TheVariants as kind;
ghost use Rattle.mr_upcall.specs.WorkedReports as worked;
ghost use Rattle.mr_upcall.specs.WorkedReports.{on_packet, on_option, on_long};

/// Worked rows of the definition of reports: its contract says what it gives for a packet of 28
/// bytes, for one with an option, and where the total length passes 65,535. It does nothing.
pub fn worked_reports()
    ensures no_cache { on_packet kind.NoCache 0 ≡ worked.no_cache }
    ensures wrong_vif { on_option kind.WrongVif 31 ≡ worked.wrong_vif }
    ensures whole_pkt { on_packet kind.WholePkt 2 ≡ worked.whole_pkt }
    ensures whole_with_option { on_option kind.WholePkt 0 ≡ worked.whole_with_option }
    ensures high_byte { slice_index (on_long 300) 2 ≡ 1 }
    ensures low_byte { slice_index (on_long 300) 3 ≡ 64 }
    ensures past_high { slice_index (on_long 65535) 2 ≡ 0 }
    ensures past_low { slice_index (on_long 65535) 3 ≡ 19 }
{}
