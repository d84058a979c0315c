//! A shelf and a sink that never fail.
use bridge_base::{QuietShelf, QuietSink, Shelf, Sink};
use std::test::Fail;

#[test]
fn never_fails(rt: HostRuntime) -> Result<(), Fail> {
    let alloc = rt.alloc();
    let files = vec![in alloc;
        (
            String::from_str(alloc, "a")?,
            Vec::from_array(alloc, *b"123")?
        ),
    ]?;
    let mut shelf = QuietShelf::new(files);
    let mut buf = [0; 2];
    for (name, count) in [("a", 2), ("absent", 0)] {
        assert_eq!(rt; shelf.begin(name), Ok(()));
        assert_eq!(rt; shelf.read(&mut buf), Ok(count));
    }
    assert_eq!(rt; buf, *b"12");
    assert_eq!(rt; shelf.contents().len(), 1);
    assert_eq!(rt; QuietSink.write(b"abc"), Ok(3));
    Ok(())
}
