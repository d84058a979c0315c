//! Numbers have 64 bits.
use crate::reading::{read, refused};
use article_read::Item;
use common::Kind;
use std::test::Fail;

#[test]
fn numbers_have_64_bits(rt: HostRuntime) -> Result<(), Fail> {
    let cases: [(&[u8], i64); 5] = [
        (b"9223372036854775807", 9223372036854775807),
        (b"-9223372036854775808", -9223372036854775808),
        (b"-0", 0),
        (b"06", 6),
        (b"\t 6\r", 6),
    ];
    for (text, number) in cases {
        let mut commands = Vec::new(rt.alloc());
        assert_eq!(rt;
            read(rt.alloc(), text, 5, &mut commands),
            Ok(1),
            "at {text:?}"
        );
        assert_eq!(rt; commands.len(), 1, "at {text:?}");
        assert!(rt; commands[0].item == Item::Number(number), "at {text:?}");
    }
    Ok(())
}

#[test]
fn other_numbers_are_refused(rt: HostRuntime) -> Result<(), Fail> {
    let cases: [(&[u8], Kind); 5] = [
        (b"9223372036854775808", Kind::NumberRange),
        (b"-9223372036854775809", Kind::NumberRange),
        (b"-", Kind::BadLine),
        (b"+1", Kind::BadLine),
        (b"6a", Kind::BadLine),
    ];
    for (text, kind) in cases {
        let mut commands = Vec::new(rt.alloc());
        let answer = read(rt.alloc(), text, 5, &mut commands);
        assert_eq!(rt; answer, Err(refused(1, kind)), "at {text:?}");
        assert!(rt; commands.is_empty(), "at {text:?}");
    }
    Ok(())
}
