use super::*;
use mr_base::{Addr, Route};
use std::alloc::Global;
use std::test::Fail;

const SOURCE: Addr = Addr(0x0A00_0001);

const GROUP: Addr = Addr(0xEF01_0101);

const OTHER: Addr = Addr(0xEF01_0102);

const ANY: Addr = Addr(0);

/// An entry whose threshold is 1 at these vifs and 255 at all others.
fn entry(number: u32, src: Addr, dst: Addr, parent: u8, vifs: &[usize], fixed: bool) -> Route {
    let mut ttls = [255; 32];
    for vif in vifs {
        if *vif < 32 {
            ttls[*vif] = 1;
        }
    }
    Route {
        number,
        src,
        dst,
        parent,
        ttls,
        fixed,
    }
}

/// Six entries in as many slots: two of one origin and group, two for any origin, two for any
/// origin and any group.
fn six(alloc: Global) -> Result<Cache, Fail> {
    let Ok(mut cache) = Cache::with_slots(alloc, 6) else {
        return Err(Fail::from("memory"));
    };
    let entries = [
        entry(2, SOURCE, GROUP, 0, &[1], false),
        entry(3, SOURCE, GROUP, 4, &[2], true),
        entry(5, ANY, GROUP, 6, &[3], false),
        entry(8, ANY, GROUP, 7, &[], false),
        entry(9, ANY, ANY, 7, &[5, 7], true),
        entry(12, ANY, ANY, 6, &[6], false),
    ];
    for route in &entries {
        if cache.is_full() || !cache.is_above(route.number) {
            return Err(Fail::from("no room"));
        }
        cache.insert(*route);
    }
    Ok(cache)
}

fn number_of(route: Option<Route>) -> Option<u32> {
    match route {
        None => None,
        Some(r) => Some(r.number),
    }
}

/// The numbers of the entries, newest first.
fn numbers(alloc: Global, cache: &Cache) -> Result<Vec<u32>, Fail> {
    let Ok(routes) = cache.routes(alloc) else {
        return Err(Fail::from("memory"));
    };
    let mut numbers = Vec::new(alloc);
    for route in &routes {
        numbers.push(route.number)?;
    }
    Ok(numbers)
}

#[test]
fn first_matches(rt: HostRuntime) -> Result<(), Fail> {
    let cache = six(rt.alloc())?;
    let named = [
        (SOURCE, GROUP, None, Some(3)),
        (SOURCE, GROUP, Some(0), Some(2)),
        (SOURCE, GROUP, Some(4), Some(3)),
        (SOURCE, GROUP, Some(5), None),
        (SOURCE, OTHER, None, None),
        (ANY, GROUP, None, Some(8)),
        (ANY, ANY, None, Some(12)),
        (ANY, ANY, Some(7), Some(9)),
    ];
    for (src, dst, parent, number) in named {
        assert_eq!(rt; number_of(cache.find(src, dst, parent)), number);
    }
    let proxies = [
        (5, Some(9)),
        (6, Some(12)),
        (7, Some(9)),
        (3, None),
        (32, None),
    ];
    for (vif, number) in proxies {
        assert_eq!(rt; number_of(cache.proxy(vif)), number);
    }
    // Entry 8 reaches no vif itself; the proxy entry of its parent, 9, reaches 5 and 7. That of
    // 5's parent is 12.
    let stars = [
        (GROUP, 3, Some(5)),
        (GROUP, 5, Some(8)),
        (GROUP, 7, Some(8)),
        (GROUP, 6, Some(5)),
        (GROUP, 1, None),
        (OTHER, 3, None),
    ];
    for (dst, vif, number) in stars {
        assert_eq!(rt; number_of(cache.star(dst, vif)), number);
    }
    assert!(rt; cache.is_proxied(&entry(8, ANY, GROUP, 7, &[], false), 5));
    assert!(rt; !cache.is_proxied(&entry(8, ANY, GROUP, 7, &[], false), 6));
    assert!(rt; !cache.is_proxied(&entry(8, ANY, GROUP, 9, &[9], false), 9));
    Ok(())
}

#[test]
fn walk_by_numbers(rt: HostRuntime) -> Result<(), Fail> {
    let cache = six(rt.alloc())?;
    let below = [
        (4_294_967_295, Some(12)),
        (12, Some(9)),
        (11, Some(9)),
        (9, Some(8)),
        (3, Some(2)),
        (2, None),
    ];
    for (number, next) in below {
        assert_eq!(rt; number_of(cache.below(number)), next);
    }
    assert!(rt; cache.has(8));
    assert!(rt; !cache.has(7));
    assert!(rt; cache.is_above(13));
    assert!(rt; !cache.is_above(12));
    Ok(())
}

#[test]
fn changes(rt: HostRuntime) -> Result<(), Fail> {
    let mut cache = six(rt.alloc())?;
    assert_eq!(rt; (cache.len(), cache.slots(), cache.is_full()), (6, 6, true));
    assert!(rt; cache.has(3));
    cache.change(3, 9, [17; 32], false);
    let changed = Route {
        ttls: [17; 32],
        ..entry(3, SOURCE, GROUP, 9, &[], false)
    };
    assert_eq!(rt; cache.find(SOURCE, GROUP, None), Some(changed));
    assert_eq!(rt;
        numbers(rt.alloc(), &cache)?.as_slice(),
        [12, 9, 8, 5, 3, 2].as_slice()
    );
    assert!(rt; cache.has(8));
    cache.remove(8);
    assert_eq!(rt;
        numbers(rt.alloc(), &cache)?.as_slice(),
        [12, 9, 5, 3, 2].as_slice()
    );
    assert_eq!(rt; cache.star(GROUP, 5), None);
    let newest = entry(14, SOURCE, OTHER, 31, &[0, 31], true);
    assert!(rt; !cache.is_full());
    assert!(rt; cache.is_above(newest.number));
    cache.insert(newest);
    assert_eq!(rt;
        numbers(rt.alloc(), &cache)?.as_slice(),
        [14, 12, 9, 5, 3, 2].as_slice()
    );
    Ok(())
}

#[test]
fn flushes(rt: HostRuntime) -> Result<(), Fail> {
    let rows = [
        (false, false, [12, 9, 8, 5, 3, 2].as_slice()),
        (true, false, [9, 3].as_slice()),
        (false, true, [12, 8, 5, 2].as_slice()),
        (true, true, [].as_slice()),
    ];
    for (loose, fixed, left) in rows {
        let mut cache = six(rt.alloc())?;
        cache.flush(loose, fixed);
        assert_eq!(rt; numbers(rt.alloc(), &cache)?.as_slice(), left);
    }
    Ok(())
}

#[test]
fn most_slots(rt: HostRuntime) -> Result<(), Fail> {
    for n in [1, MOST_SLOTS] {
        let Ok(mut cache) = Cache::with_slots(rt.alloc(), n) else {
            return Err(Fail::from("memory"));
        };
        cache.facts();
        for number in 0..n {
            let newest = entry(number, SOURCE, GROUP, 0, &[], false);
            assert!(rt; !cache.is_full());
            assert!(rt; cache.is_above(newest.number));
            cache.insert(newest);
        }
        assert_eq!(rt; (cache.len(), cache.is_full()), (n, true));
        assert_eq!(rt; number_of(cache.below(1)), Some(0));
    }
    Ok(())
}
