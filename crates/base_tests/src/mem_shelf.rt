//! A shelf in memory.
use bridge_base::{Failed, MemShelf, Shelf};
use std::test::Fail;

#[test]
fn gives_files_in_pieces(rt: HostRuntime) -> Result<(), Fail> {
    let alloc = rt.alloc();
    let files = vec![in alloc;
        (
            String::from_str(alloc, "a")?,
            Vec::from_array(alloc, *b"12345")?
        ),
    ]?;
    let mut shelf = MemShelf::new(files, 3, vec![in alloc; 4]?);
    let mut buf = [0; 8];
    assert_eq!(rt; shelf.begin("b"), Err(Failed));
    assert_eq!(rt; shelf.begin("a"), Ok(()));
    assert_eq!(rt; shelf.read(&mut buf[..2]), Ok(2));
    assert_eq!(rt; shelf.read(&mut buf), Err(Failed));
    for (count, front) in [(3, b"345"), (0, b"345")] {
        assert_eq!(rt; shelf.read(&mut buf), Ok(count));
        assert_eq!(rt; buf[..3], front[..]);
    }
    assert_eq!(rt; shelf.contents().len(), 1);
    assert_eq!(rt; (shelf.calls(), shelf.faults()), (6, 2));
    Ok(())
}
