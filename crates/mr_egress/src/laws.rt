//! Laws of the definitions, and worked rows.

ghost use Rattle.std.specs.Prelude.{◌≡◌, ◌++◌, [], ◌∷◌};
ghost use Rattle.mr_egress.specs.Copies.{copies};
ghost use Rattle.mr_egress.specs.Files.{file};
ghost use Rattle.mr_egress.specs.Laws.{CopyIsWhole, FileSpellsItsTrace};
ghost use Rattle.mr_egress.specs.WorkedRows as row;
ghost use Rattle.mr_model.specs.Legal.{IsLegal};

/// A copy is as long as its packet's total length says, and so both lengths of its record are the
/// packet's. It does nothing.
pub fn copy_is_whole()
    ensures { CopyIsWhole }
{}

/// What is written spells the trace: reading the file of a device gives its records. It does
/// nothing.
pub fn file_spells_its_trace()
    ensures { FileSpellsItsTrace }
{}

/// The file of a device by which nothing leaves is the header alone. A packet that goes out on one
/// vif is one record of its device's file, with and without the lock; what stands behind its total
/// length is not sent. It does nothing.
pub fn worked_files()
    ensures empty { file row.limits [] [] 1 ≡ row.header }
    ensures legal { IsLegal row.limits row.one_packet }
    ensures first { file row.limits row.lanes row.one_packet 1 ≡ row.header }
    ensures second { file row.limits row.lanes row.one_packet 2
        ≡ row.header ++ row.record_with row.first_sent }
    ensures fast_legal { IsLegal row.limits row.one_settled }
    ensures fast_first { file row.limits row.lanes row.one_settled 1 ≡ row.header }
    ensures fast_second { file row.limits row.lanes row.one_settled 2
        ≡ row.header ++ row.record_with row.first_sent }
{}

/// Two vifs on one device give two equal records, and the register vif gives none. A packet that
/// waited leaves where it is released, behind one that came later. A packet that is settled late
/// left by the device that its vif was on. It does nothing.
pub fn worked_copies()
    ensures two_legal { IsLegal row.limits row.two_vifs }
    ensures two { copies row.limits (row.lanes_on 2) row.two_vifs 1
        ≡ row.first_sent ∷ row.first_sent ∷ [] }
    ensures register_legal { IsLegal row.limits row.register }
    ensures register { copies row.limits row.lanes row.register 2 ≡ row.first_sent ∷ [] }
    ensures no_device { copies row.limits row.lanes row.register 0 ≡ [] }
    ensures released_legal { IsLegal row.limits row.released }
    ensures released { copies row.limits row.lanes row.released 2
        ≡ row.second_sent ∷ row.first_sent ∷ [] }
    ensures late_legal { IsLegal row.limits row.settled_late }
    ensures late_former { copies row.limits row.lanes row.settled_late 2 ≡ row.first_sent ∷ [] }
    ensures late_later { copies row.limits row.lanes row.settled_late 1 ≡ [] }
{}
