//! The first faulty line is told where it ends, and stays.
use crate::reading::{read, refused};
use article_read::{LineFault, Lines};
use common::Kind;
use std::alloc::Global;
use std::test::Fail;

#[test]
fn lines_are_counted(rt: HostRuntime) -> Result<(), Fail> {
    let mut commands = Vec::new(rt.alloc());
    let text = b"# 7\n\n \t\r\n\t6 \r\nversion\n".as_slice();
    assert_eq!(rt; read(rt.alloc(), text, 2, &mut commands), Ok(6));
    assert_eq!(rt; commands.len(), 2);
    assert_eq!(rt; commands[0].line, 4);
    assert_eq!(rt; commands[1].line, 5);
    Ok(())
}

// What one piece gives: how many commands, and the answer.
fn feed(alloc: Global, piece: &[u8]) -> (usize, Result<(), LineFault>) {
    let mut lines = Lines::new(alloc);
    let mut commands = Vec::new(alloc);
    let answer = lines.feed(piece, &mut commands);
    (commands.len(), answer)
}

#[test]
fn a_piece_is_refused_at_the_line_that_it_ends(rt: HostRuntime) -> Result<(), Fail> {
    let bad = Kind::BadLine;
    let range = Kind::NumberRange;
    let cases: [(&[u8], usize, Result<(), LineFault>); 8] = [
        (b"6\nversion\n", 2, Ok(())),
        (b"6\nhdtl\n7\n", 1, Err(refused(2, bad))),
        (b"-\n", 0, Err(refused(1, bad))),
        (b"6\n\n\"p\n", 1, Err(refused(3, bad))),
        (b"9223372036854775808\n", 0, Err(refused(1, range))),
        (
            b"6\n-9223372036854775809\nhdtl\n",
            1,
            Err(refused(2, range)),
        ),
        (b"6\nhdtl", 1, Ok(())),
        (b"9223372036854775808", 0, Ok(())),
    ];
    for (index, (piece, count, answer)) in cases.iter().enumerate() {
        assert_eq!(rt; feed(rt.alloc(), piece), (*count, *answer), "case {index}");
    }
    Ok(())
}

#[test]
fn a_fault_stays(rt: HostRuntime) -> Result<(), Fail> {
    let mut lines = Lines::new(rt.alloc());
    let mut commands = Vec::new(rt.alloc());
    let fault = refused(2, Kind::BadLine);
    assert_eq!(rt; lines.feed(b"6\nvers", &mut commands), Ok(()));
    assert_eq!(rt; lines.finish(&mut commands), Err(fault));
    assert_eq!(rt; commands.len(), 1);
    assert_eq!(rt; lines.feed(b"ion\n", &mut commands), Err(fault));
    assert_eq!(rt; lines.finish(&mut commands), Err(fault));
    assert_eq!(rt; commands.len(), 1);
    Ok(())
}

#[test]
fn a_line_has_1048576_bytes(rt: HostRuntime) -> Result<(), Fail> {
    let mut commands = Vec::new(rt.alloc());
    let blanks = vec![in rt.alloc(); b' '; 1048576]?;
    let mut lines = Lines::new(rt.alloc());
    assert_eq!(rt; lines.feed(&blanks, &mut commands), Ok(()));
    assert_eq!(rt; lines.feed(b"\n", &mut commands), Ok(()));
    assert_eq!(rt; lines.feed(&blanks, &mut commands), Ok(()));
    let fault = refused(2, Kind::LineTooLong);
    assert_eq!(rt; lines.feed(b" ", &mut commands), Err(fault));
    assert_eq!(rt; lines.feed(b"\n", &mut commands), Err(fault));
    Ok(())
}
