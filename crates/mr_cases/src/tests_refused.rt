use crate::tests::refused;
use std::test::Fail;

#[test]
fn bad_lines(rt: HostRuntime) -> Result<(), Fail> {
    let cases = [
        ("", 1, 1),
        ("\n# a comment\n", 1, 1),
        ("scenario 2\n", 1, 1),
        ("\nscenario 1 1\n", 2, 1),
        ("scenario 1\nscenario 1\n", 2, 2),
        ("scenario 1\nphase\ndevice a 1.1.1.1\n", 3, 2),
        ("scenario 1\nlanes 17\n", 2, 3),
        ("scenario 1\ndevice eth0 10.0.0.256\n", 2, 4),
        ("scenario 1\ndevice a 1.1.1.1\ndevice a 1.1.1.2\n", 3, 5),
        ("scenario 1\nphase\nlane 1 pkt a 00\n", 3, 6),
        (
            "scenario 1\ndevice a 1.1.1.1\nphase\nlane 2 pkt a 00\n",
            4,
            7,
        ),
        ("scenario 1\nphase\ndaemon 1 init\n", 3, 8),
        (
            "scenario 1\ndevice a 1.1.1.1\nphase\nlane 1 pkt a 0\n",
            4,
            9,
        ),
        (
            "scenario 1\ndaemon plain\nphase\ndaemon 1 addmfc 10.0.0.9 239.1.1.1 0 1:1 1:1\n",
            4,
            10,
        ),
        ("scenario 1\nsmc a/b\n", 2, 12),
        // A bad line comes before configurations that are not there and before want of room.
        ("scenario 1\nsmc a.conf\nlanes 17\n", 3, 3),
        (
            "scenario 1\nlimit control 1\ndaemon plain\nphase\ndaemon 1 recv\ndaemon 1 init\nlanes 2\n",
            7,
            2,
        ),
        (
            "scenario 1\ndaemon plain\nphase\ndaemon 1 init\ndaemon 1 init\ndaemon 2 init\n",
            6,
            8,
        ),
    ];
    for (text, line, kind) in cases {
        assert_eq!(rt; refused(&rt, text)?, ((2, line, kind), 0), "at {text}");
    }
    Ok(())
}
