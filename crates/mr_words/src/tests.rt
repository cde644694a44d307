use super::*;

#[test]
fn numbers_and_addresses(rt: HostRuntime) {
    assert_eq!(rt; number_of(b"0", 5), Some(0));
    assert_eq!(rt;
        number_of(b"4294967295", 4_294_967_295),
        Some(4_294_967_295)
    );
    assert_eq!(rt; number_of(b"4294967296", 4_294_967_295), None);
    assert_eq!(rt; number_of(b"01", 5), None);
    assert_eq!(rt; number_of(b"", 5), None);
    assert_eq!(rt; address_of(b"10.0.0.1"), Some(0x0A00_0001));
    assert_eq!(rt; address_of(b"10.0.0.256"), None);
    assert_eq!(rt; address_of(b"10.0.0.1.2"), None);
}

#[test]
fn items(rt: HostRuntime) {
    assert_eq!(rt; item_of(b"31:255"), Some((31, 255)));
    assert_eq!(rt; item_of(b"0:0"), Some((0, 0)));
    assert_eq!(rt; item_of(b"32:1"), None);
    assert_eq!(rt; item_of(b"1:256"), None);
    assert_eq!(rt; item_of(b"1"), None);
    assert_eq!(rt; item_of(b"1:2:3"), None);
}

#[test]
fn names(rt: HostRuntime) {
    assert!(rt; is_device_name(b"eth0.1_a-b:c"));
    assert!(rt; is_device_name(b"a23456789012345"));
    assert!(rt; !is_device_name(b"a234567890123456"));
    assert!(rt; !is_device_name(b"0eth"));
    assert!(rt; !is_device_name(b"pimreg"));
    assert_eq!(rt; name_of(b"eth0").as_str(), "eth0");
    assert!(rt; is_file(b"in.pcap"));
    assert!(rt; !is_file(b"a/b"));
    assert!(rt; !is_file(b".."));
    assert!(rt; is_file(b"..."));
    assert!(rt; !is_file(b"out-eth0.pcap"));
    assert!(rt; is_file(b"out"));
}
