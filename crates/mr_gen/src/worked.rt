//! The definitions evaluated on worked values.

ghost use Rattle.std.specs.Prelude.{◌≡◌, ◌∷◌, []};
ghost use Rattle.mr_gen.specs.Generated.{items};
ghost use Rattle.mr_gen.specs.Summary.{summary};
ghost use Rattle.mr_gen.specs.Words.{words_of};
ghost use Rattle.mr_gen.specs.Worked as worked;
ghost use Rattle.mr_model.specs.Legal.{IsLegal};
ghost use Rattle.mr_scenario.specs.declared.scenario.Given.TheVariants.{Bytes};

/// A history with fast and slow packets, one of which waits, and two (S,G) entries that counted
/// as many packets: the one with the lower number is the busiest.
pub fn worked_summary()
    ensures legal { IsLegal worked.limits worked.history }
    ensures text { summary worked.limits worked.history ≡ worked.text }
{}

/// The words of lane 1 by the seed 7, and its first line.
pub fn worked_words()
    ensures words { words_of 7 1 3 ≡ 3046447000 ∷ 1793657967 ∷ 3828792021 ∷ [] }
    ensures line { items 7 1 1 ≡ record {
      line = 0;
      lane = record { 0 = 1 };
      dev = 1;
      given = Bytes worked.first_packet;
    } ∷ [] }
{}
