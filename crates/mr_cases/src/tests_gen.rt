use crate::tests::replayed;
use std::test::Fail;

/// The lane's generator is seeded with 8, and its first word is 24 above a multiple of 64: the
/// packet meets the (S,G) entry of number 6 + 24 and goes out on three vifs.
const ONE_PACKET: &str = "\
packets 1
fast 0
slow 1
copies 3
bytes 28
busiest 30 1
";

#[test]
fn one_generated_packet(rt: HostRuntime) -> Result<(), Fail> {
    let (status, taken) = replayed(&rt, "gen 7 1 1", "")?;
    assert_eq!(rt; status.number(), 0);
    assert_eq!(rt; taken.as_slice(), ONE_PACKET.as_bytes());
    Ok(())
}
