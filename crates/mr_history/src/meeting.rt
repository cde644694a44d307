//! A packet that met an entry.

ghost use Rattle.std.specs.Prelude.{◌≡◌, false, ◌<◌, ◌^◌, IfSome, option_map, option_to_list};
ghost use Rattle.mr_model.specs.Counts.{met_by, met_fast};
ghost use Rattle.mr_history.specs.Totals.{met_of};

use mr_base::Mask;
use mr_model::{FastRecord, Outcome};

/// A packet that met an entry, as totals count it.
#[derive(Clone, Copy, Debug)]
pub(crate) struct Meeting {
    /// How many history entries there were where it was decided.
    pub place: u32,
    pub entry: u32,
    pub input: Option<u8>,
    pub outs: Mask,
    pub wrong: bool,
    /// Its total length, in bytes.
    pub length: u16,
}

/// The meeting of a packet that was forwarded.
fn forwarded(place: u32, entry: u32, input: Option<u8>, outs: Mask, length: u16) -> Meeting
    ensures value { result ≡ record {
      place = place;
      entry = entry;
      input = input;
      outs = outs;
      wrong = false;
      length = length;
    } }
    ensures short { result.length < 2 ^ 16 }
{
    Meeting {
        place,
        entry,
        input,
        outs,
        wrong: false,
        length,
    }
}

/// The meeting of a fast record, at its look.
pub(crate) fn met_fast(fast: &FastRecord) -> Meeting
    ensures value { met_of result ≡ met_fast fast.now }
    ensures short { result.length < 2 ^ 16 }
{
    forwarded(
        fast.look,
        fast.entry,
        fast.input,
        fast.outs,
        fast.flow.length,
    )
}

/// The meeting of an outcome; a packet that is parked or dropped met none.
pub(crate) fn met_by(place: u32, length: u16, outcome: &Outcome) -> Option<Meeting>
    ensures value { option_to_list (option_map met_of result) ≡ met_by place length outcome.now }
    ensures short { IfSome result (λ m. m.length < 2 ^ 16) }
{
    match *outcome {
        Outcome::Forward { entry, input, outs }
        | Outcome::Register {
            entry,
            input,
            outs,
            ..
        } => { Some(forwarded(place, entry, input, outs, length)) }
        Outcome::Wrong { entry, .. } => Some(Meeting {
            place,
            entry,
            input: None,
            outs: Mask(0),
            wrong: true,
            length,
        }),
        Outcome::Parked | Outcome::Dropped(_) => None,
    }
}
