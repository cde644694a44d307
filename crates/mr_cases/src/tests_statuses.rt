use crate::tests::replayed;
use std::test::Fail;

#[test]
fn words_and_statuses(rt: HostRuntime) -> Result<(), Fail> {
    let cases = [
        ("replay", "scenario 1\n", 1),
        ("replay out-1", "scenario 1\n", 1),
        ("gen 7 1", "", 1),
        ("gen 7 17 1", "", 1),
        ("replay f", "scenario 2\n", 2),
        ("replay g", "scenario 1\n", 4),
        ("replay f", "scenario 1\nsmc a.conf\n", 4),
        ("replay f", "scenario 1\nsmc f\n", 11),
        (
            "replay f",
            "scenario 1\nlimit control 1\ndaemon admin\nphase\ndaemon 1 init\ndaemon 1 recv\n",
            8,
        ),
    ];
    for (words, text, number) in cases {
        let (status, taken) = replayed(&rt, words, text)?;
        assert_eq!(rt; status.number(), number, "at {text}");
        assert_eq!(rt; taken.len(), 0usize, "at {text}");
    }
    Ok(())
}
