//! Packets that meet an entry.

ghost use Rattle.std.specs.Prelude.{◌≡◌, Some, None, [], ◌∷◌};
ghost use Rattle.mr_model.specs.declared.verdict.Verdict.TheVariants as verdict;
ghost use Rattle.mr_model.specs.Ending.{ending};
ghost use Rattle.mr_model.specs.Found.{found, proxy};
ghost use Rattle.mr_model.specs.Legal.{IsLegal};
ghost use Rattle.mr_model.specs.Lively.{IsLively};
ghost use Rattle.mr_model.specs.Unfolded.{unfolded};
ghost use Rattle.mr_model.specs.Unread.{unread};
ghost use Rattle.mr_model.specs.Verdict.{judge, verdict as verdict_after};
ghost use Rattle.mr_rows.specs.Samples.{addr, group, mask};
ghost use Rattle.mr_rows.specs.AbsentParent as absent;
ghost use Rattle.mr_rows.specs.NewestStar as newest;
ghost use Rattle.mr_rows.specs.OrdinaryPath as ordinary;
ghost use Rattle.mr_rows.specs.Thresholds as levels;
ghost use Rattle.mr_rows.specs.VifAddedLater as later;
ghost use Rattle.mr_rows.specs.StarEntry as star;
ghost use Rattle.mr_rows.specs.ProxyEntry as proxied;
ghost use Rattle.mr_rows.specs.ProxyOfTheParent as by_proxy;
ghost use Rattle.mr_rows.specs.TwoVifsOnADevice as shared;

/// A packet that meets the entry of its source and group goes out on the vif whose threshold its
/// TTL exceeds. So it does with and without the lock, and both histories end alike; the one without
/// the lock unfolds to a step of the packet behind what its look had seen.
pub fn ordinary_path()
    ensures legal { IsLegal ordinary.limits ordinary.history }
    ensures ending { ending ordinary.limits ordinary.history ≡ ordinary.tail }
    ensures fast_legal { IsLegal ordinary.limits ordinary.fast_history }
    ensures fast_lively { IsLively ordinary.limits ordinary.fast_history }
    ensures fast_ending { ending ordinary.limits ordinary.fast_history ≡ ordinary.tail }
    ensures fast_unfolded { unfolded ordinary.fast_history ≡ ordinary.steps }
{}

/// A packet goes out where its TTL is greater than the threshold, and not where it is equal or
/// less. It counts also where it goes nowhere.
pub fn thresholds()
    ensures legal { IsLegal levels.limits levels.history }
    ensures ending { ending levels.limits levels.history ≡ levels.tail }
    ensures fast_legal { IsLegal levels.limits levels.fast_history }
    ensures fast_lively { IsLively levels.limits levels.fast_history }
    ensures fast_ending { ending levels.limits levels.fast_history ≡ levels.tail }
{}

/// The thresholds 0 and 255 mean none, and so does any threshold of a vif that is added later than
/// the entry.
pub fn vif_added_later()
    ensures legal { IsLegal later.limits later.history }
    ensures ending { ending later.limits later.history ≡ later.tail }
    ensures fast_legal { IsLegal later.limits later.fast_history }
    ensures fast_lively { IsLively later.limits later.fast_history }
    ensures fast_ending { ending later.limits later.fast_history ≡ later.tail }
{}

/// An entry for any origin takes a packet that comes in on a vif of the parent's proxy entry. It
/// counts in on the parent, and goes out on all other vifs but the one on which it came. Without
/// such an entry the proxy entry itself takes the packet, and sends it on its parent.
pub fn star_entry()
    ensures legal { IsLegal star.limits star.history }
    ensures ending { ending star.limits star.history ≡ star.tail }
    ensures fast_legal { IsLegal star.limits star.fast_history }
    ensures fast_lively { IsLively star.limits star.fast_history }
    ensures fast_ending { ending star.limits star.fast_history ≡ star.tail }
    ensures found { found star.limits star.start 2 (addr 10 0 1 9) group ≡ Some star.star_route }
    ensures proxy { proxy star.limits star.start 1 ≡ Some star.proxy_route }
    ensures judge { judge star.limits star.start star.proxy_route 2 9
        ≡ verdict.Forward 5 (Some 0) (mask (0 ∷ [])) }
    ensures verdict { verdict_after star.limits star.start 2 (addr 10 0 1 9) group 9
        ≡ verdict.Forward 6 (Some 0) (mask (0 ∷ 2 ∷ [])) }
{}

/// A proxy entry takes the packets that meet no other. It sends on its parent alone, and not where
/// they came in on it.
pub fn proxy_entry()
    ensures legal { IsLegal proxied.limits proxied.history }
    ensures ending { ending proxied.limits proxied.history ≡ proxied.tail }
    ensures fast_legal { IsLegal proxied.limits proxied.fast_history }
    ensures fast_lively { IsLively proxied.limits proxied.fast_history }
    ensures fast_ending { ending proxied.limits proxied.fast_history ≡ proxied.tail }
{}

/// Where two vifs are on one device, a packet goes out on both, and one that comes in on the device
/// and misses is reported with the higher one. The report is unread until the owner takes it.
pub fn two_vifs_on_a_device()
    ensures legal { IsLegal shared.limits shared.history }
    ensures ending { ending shared.limits shared.history ≡ shared.tail }
    ensures fast_legal { IsLegal shared.limits shared.fast_history }
    ensures fast_lively { IsLively shared.limits shared.fast_history }
    ensures fast_ending { ending shared.limits shared.fast_history ≡ shared.tail }
    ensures unread_before { unread shared.limits shared.before_receive ≡ shared.miss ∷ [] }
    ensures unread_after { unread shared.limits shared.history ≡ [] }
{}

/// Where its parent vif is deleted, an entry for any origin still passes what comes in on a vif of
/// the parent's proxy entry, and counts it in on no vif. An exact entry then passes nothing, and a
/// device without a vif meets no wildcard.
pub fn absent_parent()
    ensures legal { IsLegal absent.limits absent.history }
    ensures ending { ending absent.limits absent.history ≡ absent.tail }
{}

/// Of two entries of one group for any origin the newer one is met where it serves the vif, else
/// the older one. Without a proxy entry they pass what comes in on their parent alone, and nothing
/// goes back.
pub fn newest_star()
    ensures legal { IsLegal newest.limits newest.history }
    ensures ending { ending newest.limits newest.history ≡ newest.tail }
{}

/// An entry for any origin is met, and passes, on each vif that the proxy entry of its parent
/// reaches. An exact entry does not, and a proxy entry that does not reach the parent is of no
/// help.
pub fn proxy_of_the_parent()
    ensures legal { IsLegal by_proxy.limits by_proxy.history }
    ensures ending { ending by_proxy.limits by_proxy.history ≡ by_proxy.tail }
{}
