//! A text in pieces of any size gives the same commands.
use crate::reading::read;
use article_read::{Command, Item, Lines, Word, read_all};
use hol_name::Name;
use std::alloc::Global;
use std::test::Fail;

// The article of the theorem `|- p = p`.
const REFLEXIVITY: &[u8] =
    b"6\nversion\n\"p\"\n\"bool\"\ntypeOp\nnil\nopType\n0\ndef\nvar\nvarTerm\n1\ndef\nrefl\nnil\n\"=\"\nconst\n\"->\"\ntypeOp\n0\nref\n\"->\"\ntypeOp\n0\nref\n0\nref\nnil\ncons\ncons\nopType\nnil\ncons\ncons\nopType\nconstTerm\n1\nref\nappTerm\n1\nref\nappTerm\nthm";

#[test]
fn a_text_gives_its_commands(rt: HostRuntime) -> Result<(), Fail> {
    let mut commands = Vec::new(rt.alloc());
    assert_eq!(rt; read(rt.alloc(), REFLEXIVITY, 4096, &mut commands), Ok(43));
    assert_eq!(rt; commands.len(), 43);
    assert!(rt; commands[0].item == Item::Number(6));
    assert!(rt; commands[42].item == Item::Word(Word::Thm) && commands[42].line == 43);
    Ok(())
}

#[test]
fn a_name_is_a_command(rt: HostRuntime) -> Result<(), Fail> {
    let mut commands = Vec::new(rt.alloc());
    assert_eq!(rt;
        read(rt.alloc(), b"6\nversion\n\"p\"", 4096, &mut commands),
        Ok(3)
    );
    assert_eq!(rt; commands.len(), 3);
    let p = Name::single(rt.alloc(), b"p")?;
    assert!(rt; commands[2].item == Item::Name(p));
    Ok(())
}

// The commands of the text that stands in one piece of a list.
fn whole(alloc: Global) -> Result<Vec<Command>, Fail> {
    let mut commands = Vec::new(alloc);
    let pieces = vec![in alloc; Vec::from_slice(alloc, REFLEXIVITY)?]?;
    read_all(alloc, &pieces, &mut commands)?;
    Ok(commands)
}

#[test]
fn any_pieces_give_the_same_commands(rt: HostRuntime) -> Result<(), Fail> {
    let whole = whole(rt.alloc())?;
    for size in [1, 2, 3, 4096] {
        let mut commands = Vec::new(rt.alloc());
        assert_eq!(rt; read(rt.alloc(), REFLEXIVITY, size, &mut commands), Ok(43));
        assert!(rt; commands == whole, "in pieces of {size}");
    }
    Ok(())
}

#[test]
fn only_the_open_line_is_held(rt: HostRuntime) -> Result<(), Fail> {
    let alloc = rt.alloc();
    let mut lines = Lines::new(alloc);
    let mut out = Vec::new(alloc);
    assert_eq!(rt; lines.held(), 0);
    for (piece, commands, held) in [
        (b"6\nver".as_slice(), 1, 3),
        (b"sion\n".as_slice(), 2, 0),
        (b"# a comment".as_slice(), 2, 11),
        (b"\n\n".as_slice(), 2, 0),
    ] {
        assert!(rt; lines.feed(piece, &mut out).is_ok());
        assert_eq!(rt; (out.len(), lines.held()), (commands, held));
    }
    Ok(())
}
