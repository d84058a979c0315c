//! A sink in memory.
use bridge_base::{Failed, MemSink, Sink};
use std::test::Fail;

#[test]
fn fails_at_the_listed_calls(rt: HostRuntime) -> Result<(), Fail> {
    let alloc = rt.alloc();
    let mut sink = MemSink::new(vec![in alloc; b'>']?, vec![in alloc; 2, 4]?);
    for (piece, answer) in [
        (b"ab", Ok(2)),
        (b"cd", Err(Failed)),
        (b"ef", Ok(2)),
        (b"gh", Err(Failed)),
    ] {
        assert_eq!(rt; sink.write(piece), answer);
    }
    assert_eq!(rt; sink.contents(), b">abef".as_slice());
    sink.clear();
    assert_eq!(rt; sink.contents(), b"".as_slice());
    assert_eq!(rt; (sink.calls(), sink.faults(), sink.short()), (4, 2, 0));
    Ok(())
}
