//! Writing whole pieces.
use bridge_base::{Failed, MemSink, Sink, write_all};
use std::test::Fail;

// A sink that takes a byte at a time and counts them.
#[derive(Drop)]
struct Narrow {
    taken: u64,
}

impl Sink for Narrow {
    ghost use Rattle.std.specs.Prelude.{None};

    ghost got = { λ _. None };

    ghost faults = { λ _. 0 };

    fn write(&mut self, piece: &[u8]) -> Result<usize, Failed> {
        if piece.is_empty() {
            return Ok(0);
        }
        self.taken = self.taken.saturating_add(1);
        Ok(1)
    }
}

#[test]
fn writes_whole_pieces(rt: HostRuntime) -> Result<(), Fail> {
    let mut narrow = Narrow { taken: 0 };
    for (piece, taken) in [(&b""[..], 0), (&b"abc"[..], 3), (&b"d"[..], 4)] {
        assert!(rt; write_all(&mut narrow, piece).is_ok());
        assert_eq!(rt; narrow.taken, taken);
    }
    let mut sink = MemSink::new(Vec::new(rt.alloc()), vec![in rt.alloc(); 2]?);
    assert!(rt; write_all(&mut sink, b"abc").is_ok());
    assert!(rt; write_all(&mut sink, b"lost").is_err());
    assert!(rt; write_all(&mut sink, b"de").is_ok());
    assert_eq!(rt; sink.contents(), b"abcde".as_slice());
    Ok(())
}
