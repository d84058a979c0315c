//! Tables of a few names and of many.
use common::Memory;
use name_table::NameTable;
use std::test::Fail;

// The empty name; two names for which the polynomial of 1099511628211 over their bytes is the same modulo 2 ^ 64, and two of both of them; the
// longest short name, and longer ones that begin or end alike.
const NAMES: [&[u8]; 9] = [
    b"",
    b"AAAAGALAKCMAEA",
    b"JDHEAHADAAARAB",
    b"AAAAGALAKCMAEAJDHEAHADAAARAB",
    b"JDHEAHADAAARABAAAAGALAKCMAEA",
    b"fifteen_letters",
    b"fifteen_letters_",
    b"a_fifteen_letters",
    b"b_fifteen_letters",
];

fn number_all(table: &mut NameTable) -> Result<(), Memory> {
    for name in NAMES {
        table.number(name)?;
    }
    Ok(())
}

// Gives numbers to names of four bytes.
fn number_many(table: &mut NameTable, count: u32) -> Result<(), Memory> {
    for number in 0..count {
        table.number(&number.to_be_bytes())?;
    }
    Ok(())
}

#[test]
fn numbers_names_in_order(rt: HostRuntime) -> Result<(), Fail> {
    let alloc = rt.alloc();
    let mut table = NameTable::new(alloc);
    assert_eq!(rt; table.find(b""), None);
    number_all(&mut table)?;
    assert_eq!(rt; table.len(), 9);
    number_all(&mut table)?;
    assert_eq!(rt; table.len(), 9);
    for (number, name) in NAMES.iter().enumerate() {
        assert_eq!(rt; table.find(name), Some(number), "at {number}");
        let copy = table.copied(number)?;
        assert_eq!(rt; copy.as_slice(), *name, "at {number}");
    }
    assert_eq!(rt; table.find(b"AAAAGALAKCMAE"), None);
    assert_eq!(rt; table.find(b"c_fifteen_letters"), None);
    Ok(())
}

#[test]
fn numbers_many_names(rt: HostRuntime) -> Result<(), Fail> {
    let alloc = rt.alloc();
    let mut table = NameTable::new(alloc);
    number_many(&mut table, 20_000)?;
    number_many(&mut table, 20_001)?;
    assert_eq!(rt; table.len(), 20_001);
    for number in [0_u32, 1, 255, 256, 4_095, 4_096, 19_999, 20_000] {
        assert_eq!(rt;
            table.find(&number.to_be_bytes()),
            Some(number as usize),
            "at {number}"
        );
    }
    assert_eq!(rt; table.find(&20_001_u32.to_be_bytes()), None);
    Ok(())
}
