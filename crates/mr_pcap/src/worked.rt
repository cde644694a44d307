ghost use Rattle.std.specs.Prelude.{◌≡◌, [], ◌∷◌, ◌++◌, Some, None, Ok, Err, take, replicate};
ghost use Rattle.mr_pcap.specs.declared.link_type.LinkType.TheVariants as link;
ghost use Rattle.mr_pcap.specs.declared.pcap_error.PcapError.TheVariants as error;
ghost use Rattle.mr_pcap.specs.Traces.{capture_of, file_bytes, ip_part_of};
ghost use Rattle.mr_pcap.specs.WorkedTraces as worked;

/// Worked rows of the definitions of traces: its contract says what files say, which bytes are
/// written, and which packets frames hold. It does nothing.
pub fn worked_traces()
    ensures nothing_sent { file_bytes (worked.egress []) ≡ worked.empty_file }
    ensures one_sent { file_bytes (worked.egress (worked.sent_packet ∷ [])) ≡ worked.egress_file }
    ensures one_read { capture_of worked.egress_file
        ≡ Ok (worked.egress (worked.sent_packet ∷ [])) }
    ensures two_read { capture_of (worked.egress_file ++ worked.packet_head ++ worked.packet)
        ≡ Ok (worked.egress (worked.sent_packet ∷ worked.sent_packet ∷ [])) }
    ensures big_endian { capture_of worked.big_file ≡ Ok worked.big_capture }
    ensures nanoseconds { capture_of worked.nanos_file ≡ Ok worked.nanos_capture }
    ensures big_nanoseconds { capture_of worked.big_nanos_file ≡ Ok worked.nanos_capture }
    ensures no_bytes { capture_of [] ≡ Err error.CutHeader }
    ensures cut_header { capture_of (take 23 worked.egress_file) ≡ Err error.CutHeader }
    ensures cut_first { capture_of (take 23 (worked.next_generation 20)) ≡ Err error.CutHeader }
    ensures next_generation { capture_of (worked.next_generation 20) ≡ Err error.Magic }
    ensures other_link { capture_of worked.other_link ≡ Err error.LinkType }
    ensures cut_head { capture_of (worked.empty_file ++ take 15 worked.packet_head)
        ≡ Err (error.CutRecord 1) }
    ensures head_alone { capture_of (worked.empty_file ++ worked.packet_head)
        ≡ Err (error.CutRecord 1) }
    ensures cut_bytes { capture_of (worked.third_with 41) ≡ Err (error.CutRecord 3) }
    ensures byte_behind { capture_of (worked.third_with 43) ≡ Err (error.CutRecord 4) }
    ensures ethernet { ip_part_of link.Ethernet worked.ethernet_frame ≡ Some worked.packet }
    ensures address_resolution { ip_part_of link.Ethernet (replicate 12 1 ++ 8 ∷ 6 ∷ worked.packet)
        ≡ None }
    ensures cut_frame { ip_part_of link.Ethernet (take 13 worked.ethernet_frame) ≡ None }
    ensures raw { ip_part_of link.RawIp worked.packet ≡ Some worked.packet }
    ensures version_six { ip_part_of link.RawIp (96 ∷ 0 ∷ []) ≡ None }
    ensures nothing { ip_part_of link.RawIp [] ≡ None }
    ensures cooked { ip_part_of link.LinuxCooked worked.cooked_frame ≡ Some worked.packet }
    ensures cooked_as_ethernet { ip_part_of link.Ethernet worked.cooked_frame ≡ None }
    ensures raw_four { ip_part_of link.RawIpv4 [] ≡ Some [] }
    ensures cooked_two { ip_part_of link.LinuxCooked2 worked.cooked2_frame ≡ Some worked.packet }
    ensures cut_cooked_two { ip_part_of link.LinuxCooked2 (take 19 worked.cooked2_frame) ≡ None }
{}
