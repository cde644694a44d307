ghost use Rattle.std.specs.Prelude.{◌≡◌, ◌++◌, [], ◌∷◌, codes, Ok, Err};
ghost use Rattle.std.specs.Prelude.{IsOk};
ghost use Rattle.smc_conf.specs.Spelled.{spelled};
ghost use Rattle.smc_conf.specs.WorkedConfigurations as worked;
ghost use Rattle.smc_conf.specs.declared.stop.ConfError.TheVariants.{Bad};
ghost use Rattle.smc_conf.specs.declared.stop.Kind.TheVariants as kind;

/// Worked rows of the grammar of configurations: its contract says what texts spell, and what is
/// wrong with others. It does nothing.
pub fn worked_configurations()
    ensures office { spelled worked.office ≡ Ok worked.office_conf }
    ensures joins { spelled worked.joins ≡ Ok worked.joins_conf }
    ensures nothing { spelled [] ≡ Ok worked.nothing }
    ensures comments { spelled (codes "# \u{1}\n \t#mroute\n") ≡ Ok worked.nothing }
    ensures no_threshold { worked.Refused
        (codes "phyint eth0 enable ttl-threshold 0") kind.Threshold }
    ensures threshold_of_256 { worked.Refused
        (codes "phyint eth0 enable ttl-threshold 256") kind.Threshold }
    ensures second_line { spelled (worked.text (codes "phyint a enable" ∷ codes "phyint b" ∷ []))
        ≡ Err (Bad 2 kind.Word (codes "phyint b")) }
    ensures named_twice { spelled
        (worked.text (codes "phyint a enable" ∷ codes "phyint a disable" ∷ []))
        ≡ Err (Bad 2 kind.Interface (codes "phyint a disable")) }
    ensures unknown { worked.Refused (codes "include other") kind.Word }
    ensures register { worked.Refused (codes "phyint pimreg enable") kind.Interface }
    ensures bad_byte { worked.Refused (codes "phyint e\u{7f}h enable") kind.Word }
    ensures name_before_end { worked.Refused (codes "phyint 0eth") kind.Interface }
    ensures word_behind { worked.Refused (codes "phyint a enable ttl-threshold 1 2") kind.Word }
    ensures enabled_all { IsOk (spelled (worked.text (worked.enabling 32))) }
    ensures one_too_many { spelled (worked.text (worked.enabling 33))
        ≡ Err (Bad 33 kind.Interface (codes "phyint i01 enable")) }
    ensures one_more_disabled { IsOk
        (spelled (worked.text (worked.enabling 32 ++ codes "phyint a disable" ∷ []))) }
    ensures no_group { worked.Refused (codes "mgroup from a") kind.Word }
    ensures source_alone { worked.Refused (codes "mgroup from a source 10.0.0.9") kind.Word }
    ensures two_groups { worked.Refused
        (codes "mgroup from a group 239.1.1.1 group 239.1.1.1") kind.Word }
    ensures group_before_length { worked.Refused
        (codes "mgroup from a group 10.0.0.1/33") kind.Address }
    ensures length_of_33 { worked.Refused (codes "mgroup from a group 239.1.1.1/33") kind.Prefix }
    ensures two_lengths { worked.Refused (codes "mgroup from a group 239.1.1.1/8/8") kind.Prefix }
    ensures no_address { worked.Refused
        (codes "mgroup from a source 10.0.0 group 239.1.1.1") kind.Address }
    ensures group_of_four { worked.Refused
        (codes "mgroup from a group 223.255.255.255/4") kind.Address }
    ensures no_outputs { worked.Refused (codes "mroute from a group 239.1.1.1 to") kind.Word }
    ensures bad_output { worked.Refused
        (codes "mroute from a group 239.1.1.1 to b pimreg") kind.Interface }
{}
