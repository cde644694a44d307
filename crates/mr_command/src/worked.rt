//! Worked words of the command line.

ghost use Rattle.std.specs.Prelude.{◌≡◌, None, Some, [], ◌∷◌, codes};
ghost use Rattle.mr_command.specs.Commands.{Check, Gen, Replay, command_of};
ghost use Rattle.mr_command.specs.Worked.{generated};

/// What words ask for, and words that are no form. It does nothing.
pub fn worked_words()
    ensures nothing { command_of [] ≡ None }
    ensures replay { command_of (codes "replay" ∷ codes "a.txt" ∷ [])
        ≡ Some (Replay (codes "a.txt")) }
    ensures no_file { command_of (codes "replay" ∷ []) ≡ None }
    ensures empty_file { command_of (codes "replay" ∷ [] ∷ []) ≡ None }
    ensures egress_file { command_of (codes "replay" ∷ codes "out-eth0.pcap" ∷ []) ≡ None }
    ensures check { command_of (codes "check" ∷ codes "a.txt" ∷ codes "a.history" ∷ [])
        ≡ Some (Check (codes "a.txt") (codes "a.history")) }
    ensures no_history { command_of (codes "check" ∷ codes "a.txt" ∷ []) ≡ None }
    ensures seeded { generated (codes "7") (codes "1") (codes "1")
        ≡ Some (Gen 7 1 1) }
    ensures greatest_seed { generated (codes "9223372036854775807") (codes "16") (codes "65536")
        ≡ Some (Gen 9223372036854775807 16 65536) }
    ensures seed_of_64_bits { generated (codes "9223372036854775808") (codes "1") (codes "1")
        ≡ None }
    ensures no_lane { generated (codes "7") (codes "0") (codes "1") ≡ None }
    ensures seventeen_lanes { generated (codes "7") (codes "17") (codes "1")
        ≡ None }
    ensures too_many { generated (codes "7") (codes "16") (codes "65537")
        ≡ None }
    ensures zero_in_front { generated (codes "07") (codes "1") (codes "1")
        ≡ None }
    ensures other_word { command_of (codes "play" ∷ codes "a.txt" ∷ []) ≡ None }
{}
