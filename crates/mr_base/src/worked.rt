ghost use Rattle.std.specs.Prelude.{◌≡◌, true, false, Some, None, take};
ghost use Rattle.std.specs.List.{list_all, list_any};
ghost use Rattle.mr_base.specs.Heads.{cause_of, sent, is_bad_source, is_multicast, is_link_local};
ghost use Rattle.mr_base.specs.WorkedHeads as worked;
ghost use Rattle.mr_base.specs.declared.head_error.HeadError.TheVariants as cause;

/// Worked rows of the definitions of heads: its contract says what they give for a packet that is
/// accepted, how that is sent on, and for changes of it that are refused. It does nothing.
#[tactic(auto, unfolding(crate::specs::Heads::cause_in))]
pub fn worked_heads()
    ensures accepted { cause_of worked.packet ≡ None }
    ensures sent_on { sent (take 20 worked.packet) ≡ worked.sent_on }
    ensures option { cause_of worked.with_option ≡ None }
    ensures option_sent_on { sent (take 24 worked.with_option) ≡ worked.option_sent_on }
    ensures short { cause_of worked.short ≡ Some cause.Short }
    ensures version { cause_of worked.wrong_version ≡ Some cause.Version }
    ensures short_head { cause_of worked.short_head ≡ Some cause.HeaderLength }
    ensures long_head { cause_of worked.long_head ≡ Some cause.HeaderLength }
    ensures checksum { cause_of worked.wrong_checksum ≡ Some cause.Checksum }
    ensures cut { cause_of worked.cut ≡ Some cause.TotalLength }
    ensures to_one { cause_of worked.to_one ≡ Some cause.NotMulticast }
    ensures to_local { cause_of worked.to_local ≡ Some cause.LinkLocal }
    ensures from_loopback { cause_of worked.from_loopback ≡ Some cause.BadSource }
    ensures bad_sources { list_all is_bad_source worked.bad_sources ≡ true }
    ensures good_sources { list_any is_bad_source worked.good_sources ≡ false }
    ensures groups { list_all is_multicast worked.groups ≡ true }
    ensures no_groups { list_any is_multicast worked.no_groups ≡ false }
    ensures local_groups { list_all is_link_local worked.local_groups ≡ true }
    ensures no_local_groups { list_any is_link_local worked.no_local_groups ≡ false }
{}
