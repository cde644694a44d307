//! The definitions on worked values.
ghost use Rattle.std.specs.Prelude.{◌≡◌, ◌∷◌, [], Some, None};
ghost use Rattle.mr_book.specs.Rule.{IsCounted};
ghost use Rattle.mr_book.specs.Views.{copied, longer, met, newcomer, pen, with_entry};
ghost use Rattle.mr_book.specs.Pairs.{pair, pair_author};
ghost use Rattle.mr_book.specs.WorkedTable.{all_three, seat_a, seat_b, seat_of, table_of};

/// The rule holds of the table behind the worked row, and not of tables beside it: a count that is
/// too low, a list that is no beginning, an own entry that is not known, a number that two seats
/// answer for, and two seats that may count.
pub fn worked_table()
    ensures holds { IsCounted pair_author (table_of 3 seat_a seat_b) }
    ensures miscounted { ¬ IsCounted pair_author (table_of 2 seat_a seat_b) }
    ensures no_beginning { ¬ IsCounted pair_author
        (table_of 3 (seat_of 0 (pair 1 6 ∷ []) (pair 0 5 ∷ [])) seat_b) }
    ensures not_known { ¬ IsCounted pair_author
        (table_of 3 seat_a (seat_of 1 all_three (pair 1 7 ∷ []))) }
    ensures held_twice { ¬ IsCounted pair_author
        (table_of 3 (seat_of 1 all_three (pair 1 6 ∷ pair 1 7 ∷ [])) seat_b) }
    ensures two_may_count { ¬ IsCounted pair_author (table_of 3 (pen all_three) seat_b) }
{}

/// What seats know: a new one commits 5 and 6, meets another that has seen less, and is copied.
pub fn worked_seats()
    ensures first { with_entry pair_author (pair 0 5) (newcomer 0)
        ≡ record { number = Some 0; seen = pair 0 5 ∷ []; owns = (0, pair 0 5 ∷ []) ∷ [] } }
    ensures second { (with_entry pair_author (pair 0 6)
        (with_entry pair_author (pair 0 5) (newcomer 0))).owns
        ≡ (0, pair 0 5 ∷ pair 0 6 ∷ []) ∷ [] }
    ensures longest { longer (pair 0 5 ∷ []) (pair 0 5 ∷ pair 1 6 ∷ [])
        ≡ pair 0 5 ∷ pair 1 6 ∷ [] }
    ensures met { met (with_entry pair_author (pair 0 5) (newcomer 0)) (newcomer 1)
        ≡ record {
          number = Some 0;
          seen = pair 0 5 ∷ [];
          owns = (0, pair 0 5 ∷ []) ∷ (1, []) ∷ [];
        } }
    ensures copied { copied (with_entry pair_author (pair 0 5) (newcomer 0))
        ≡ record { number = None; seen = pair 0 5 ∷ []; owns = [] } }
{}
