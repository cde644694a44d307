//! What may come behind the skips, routes and vifs before it.

ghost use Rattle.std.specs.Prelude.{◌≡◌};
ghost use Rattle.mr_text.specs.Orders.{is_before, skip_follows, route_follows, vif_follows};

use mr_lines::{RouteLine, Skip, VifLine};

/// Whether a skip stands before another: by lane, and then by item.
fn is_before(a: &Skip, b: &Skip) -> bool
    ensures { result ≡ is_before a.now b.now }
{
    a.lane.0 < b.lane.0 || a.lane.0 == b.lane.0 && a.index < b.index
}

/// Whether a skip may come behind these.
pub fn skip_follows(skips: &[Skip], skip: &Skip) -> bool
    ensures { result ≡ skip_follows skips.now skip.now }
{
    match skips.last() {
        None => true,
        Some(last) => is_before(last, skip),
    }
}

/// Whether a live entry may come behind these: their numbers rise.
pub fn route_follows(routes: &[RouteLine], route: &RouteLine) -> bool
    ensures { result ≡ route_follows routes.now route.now }
{
    match routes.last() {
        None => true,
        Some(last) => last.number < route.number,
    }
}

/// Whether a live vif may come behind these: their indexes rise.
pub fn vif_follows(vifs: &[VifLine], vif: &VifLine) -> bool
    ensures { result ≡ vif_follows vifs.now vif.now }
{
    match vifs.last() {
        None => true,
        Some(last) => last.vif < vif.vif,
    }
}
