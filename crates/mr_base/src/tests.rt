ghost use Rattle.std.specs.Prelude.{◌≡◌, ◌≤◌, false, length};

use crate::*;
use std::alloc::Global;
use std::test::Fail;

/// Reads a store through its bound.
fn content<S: Store>(store: &mut S, alloc: Global, name: &str) -> Result<Vec<u8>, ReadError>
    requires named { 1 ≤ length name.now }
    requires fits { length name.now ≤ 255 }
{
    store.read(alloc, name)
}

/// Puts into a sink through its bound.
fn sent<K: Sink>(sink: &mut K, bytes: &[u8]) -> Result<(), Failed> {
    sink.put(bytes)
}

/// Takes a link of a door, gets from it, puts to it and gives it back, all through their bounds.
fn served<D: Door>(door: &mut D, space: &mut [u8], bytes: &[u8]) -> Result<usize, Failed>
    requires { D.is_out door.old ≡ false }
    ensures { D.is_out door.new ≡ false }
{
    match door.next()? {
        None => Ok(0),
        Some(mut link) => {
            let number = link.get(space);
            let put = link.put(bytes);
            door.back(link);
            put?;
            number
        }
    }
}

/// Calls a clock through its bound.
fn reading<C: Clock>(clock: &mut C) -> u64 {
    clock.now_ms()
}

/// Passes a gate through its bound.
fn passes<G: Gate>(gate: &G) {
    gate.pass(LaneNo(1), 0);
}

#[test]
fn names_and_heads(rt: HostRuntime) -> Result<(), Fail> {
    let name = FileName::new("run1.txt");
    assert_eq!(rt; name.clone()?.as_str(), "run1.txt");
    assert!(rt; name == FileName::new("run1.txt"));
    assert!(rt; name != FileName::new("run2.txt"));
    let head = Head::default();
    let copy = head.clone()?;
    assert_eq!(rt; copy.bytes.0.as_slice(), head.bytes.0.as_slice());
    assert_eq!(rt;
        (copy.length, copy.ttl, copy.src, copy.dst),
        (20, 1, Addr(0x0A00_0001), Addr(0xE000_0100))
    );
    Ok(())
}

#[test]
fn lists(rt: HostRuntime) -> Result<(), Fail> {
    let list = List(vec![in rt.alloc(); 3_u32, 1, 2]?);
    assert!(rt; list.clone()? == list);
    assert_eq!(rt; list.clone()?.0.as_slice(), [3_u32, 1, 2].as_slice());
    let few: Few<u32, 4> = Few::from_slice(&[3, 1, 2]);
    assert!(rt; few.clone()? == few);
    assert!(rt; few != Few::default());
    assert_eq!(rt; few.0.as_slice(), [3_u32, 1, 2].as_slice());
    Ok(())
}

#[test]
fn store(rt: HostRuntime) -> Result<(), Fail> {
    let alloc = rt.alloc();
    let mut files = Vec::new(alloc);
    files.push((FileName::new("a"), vec![in alloc; 1_u8, 2]?))?;
    let mut store = MemStore::with(alloc, files, Vec::new(alloc));
    assert_eq!(rt;
        content(&mut store, alloc, "a").ok().ok_or("a")?.as_slice(),
        [1_u8, 2].as_slice()
    );
    assert_eq!(rt;
        content(&mut store, alloc, "b").err(),
        Some(ReadError::Failed)
    );
    assert_eq!(rt; store.write("b", b"new".as_slice()), Ok(()));
    assert_eq!(rt; store.write("a", b"".as_slice()), Ok(()));
    assert_eq!(rt; store.bytes("b"), Some(b"new".as_slice()));
    assert_eq!(rt; store.bytes("a"), Some(b"".as_slice()));
    assert_eq!(rt; store.bytes("c"), None);
    Ok(())
}

#[test]
fn store_fails_once(rt: HostRuntime) -> Result<(), Fail> {
    let alloc = rt.alloc();
    let mut files = Vec::new(alloc);
    files.push((FileName::new("a"), vec![in alloc; 1_u8, 2]?))?;
    let mut store = MemStore::with(alloc, files, vec![in alloc; 1_u64, 3]?);
    assert_eq!(rt;
        content(&mut store, alloc, "a").err(),
        Some(ReadError::Failed)
    );
    assert_eq!(rt;
        content(&mut store, alloc, "a").ok().ok_or("a")?.as_slice(),
        [1_u8, 2].as_slice()
    );
    assert_eq!(rt; store.write("a", b"new".as_slice()), Err(Failed));
    assert_eq!(rt; store.bytes("a"), Some([1_u8, 2].as_slice()));
    assert_eq!(rt; store.write("a", b"new".as_slice()), Ok(()));
    assert_eq!(rt; store.bytes("a"), Some(b"new".as_slice()));
    Ok(())
}

#[test]
fn sink(rt: HostRuntime) -> Result<(), Fail> {
    let alloc = rt.alloc();
    let mut sink = MemSink::with(alloc, Vec::new(alloc));
    assert_eq!(rt; sent(&mut sink, b"legal".as_slice()), Ok(()));
    assert_eq!(rt; sink.put(b"\n".as_slice()), Ok(()));
    assert_eq!(rt; sink.taken(), b"legal\n".as_slice());
    Ok(())
}

#[test]
fn link(rt: HostRuntime) -> Result<(), Fail> {
    let alloc = rt.alloc();
    let input = Vec::from_slice(alloc, b"list".as_slice())?;
    let mut link = MemLink::with(alloc, input, 3, Vec::new(alloc));
    let mut space = [0; 8];
    for want in [3, 1, 0] {
        assert_eq!(rt; link.get(&mut space), Ok(want));
    }
    assert_eq!(rt; &space[..3], b"tis".as_slice());
    assert_eq!(rt; link.put(b"ok\n".as_slice()), Ok(()));
    assert_eq!(rt; link.taken(), b"ok\n".as_slice());
    Ok(())
}

#[test]
fn door(rt: HostRuntime) -> Result<(), Fail> {
    let alloc = rt.alloc();
    let input = Vec::from_slice(alloc, b"list".as_slice())?;
    let mut links = Vec::new(alloc);
    links.push(MemLink::with(alloc, input, 3, Vec::new(alloc)))?;
    let mut door = MemDoor::with(alloc, links, Vec::new(alloc))
        .ok()
        .ok_or("door")?;
    let mut space = [0; 8];
    assert_eq!(rt; served(&mut door, &mut space, b"ok\n".as_slice()), Ok(3));
    assert_eq!(rt; &space[..3], b"lis".as_slice());
    assert_eq!(rt; door.next().map(|link| link.is_none()), Ok(true));
    assert_eq!(rt; door.given_back().len(), 1);
    assert_eq!(rt; door.given_back()[0].taken(), b"ok\n".as_slice());
    Ok(())
}

#[test]
fn clock_and_gate(rt: HostRuntime) -> Result<(), Fail> {
    let mut clock = ListClock::with(vec![in rt.alloc(); 5_u64, 9]?);
    for want in [5, 9, 9] {
        assert_eq!(rt; reading(&mut clock), want);
    }
    passes(&OpenGate);
    Ok(())
}

/// Takes what threads may share and hand over.
fn crosses<T: Send + Sync>(_value: &T) {}

#[test]
fn crosses_threads() {
    let few: Few<u8, 4> = Few::default();
    crosses(&few);
    crosses(&Head::default());
    crosses(&FileName::new("a"));
    crosses(&OpenGate);
}
