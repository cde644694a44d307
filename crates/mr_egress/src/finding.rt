//! A packet of a lane, found by its index.

ghost use Rattle.std.specs.Prelude.{◌≡◌, ◌<◌, None, Some, IfNone, IfSome, find, length, slice_get};
ghost use Rattle.mr_egress.specs.Copies.{is_due};

use mr_load::LanePackets;

/// The place of a lane's packet by its index: at once where no item before it was passed over, else
/// by binary search, since the indexes rise.
pub(crate) fn place_of(lane: &LanePackets, index: u32) -> Option<usize>
    ensures within { IfSome result (λ place. place < length lane.now.packets) }
    ensures found { IfSome result (λ place.
        find (is_due index) lane.now.packets ≡ slice_get lane.now.packets place) }
    ensures none { IfNone result (find (is_due index) lane.now.packets ≡ None) }
{
    lane.facts();
    let mut low = 0;
    let mut high = lane.len();
    let mut guess = (index as usize).saturating_sub(1);
    'search: while low < high {
        let place = guess.min(high - 1);
        let packet = lane.packet(place);
        if packet.index == index {
            return Some(place);
        }
        if packet.index < index {
            low = place + 1;
        } else {
            high = place;
        }
        guess = low + (high - low) / 2;
    }
    None
}
