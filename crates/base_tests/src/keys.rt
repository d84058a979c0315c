//! Sets and maps of a few keys and of many.
use crate::uses::{add_name, add_number, give_number, has_name, number_of};
use common::Memory;
use hol_name::Name;
use std::alloc::Global;
use std::test::Fail;
use tree_map::{TreeMap, TreeSet};

const TEXTS: [&[u8]; 4] = [b"b", b"", b"ab", b"a"];

// Takes numbers in an order that is neither rising nor falling.
fn add_many(numbers: &mut TreeSet<u64>, count: u64) -> Result<(), Memory> {
    for number in 0..count {
        add_number(numbers, number.wrapping_mul(7_919) % 10_007)?;
    }
    Ok(())
}

#[test]
fn keeps_keys_in_order_of_coming(rt: HostRuntime) -> Result<(), Fail> {
    let mut numbers = TreeSet::new(rt.alloc());
    assert!(rt; !numbers.contains(&0));
    add_many(&mut numbers, 10_007)?;
    add_many(&mut numbers, 10_007)?;
    assert_eq!(rt; numbers.len(), 10_007);
    assert_eq!(rt; numbers.get_index(2), Some(&5_831));
    assert_eq!(rt; numbers.get_index(10_007), None);
    numbers.truncate(3);
    assert_eq!(rt; numbers.as_slice(), [0, 7_919, 5_831].as_slice());
    assert!(rt; numbers.contains(&5_831));
    assert!(rt; !numbers.contains(&3_743));
    numbers.truncate(4);
    assert_eq!(rt; add_number(&mut numbers, 7_919)?, 1);
    assert_eq!(rt; add_number(&mut numbers, 3_743)?, 3);
    Ok(())
}

fn has(alloc: Global, names: &TreeSet<Name>, text: &[u8]) -> Result<bool, Fail> {
    let name = Name::single(alloc, text)?;
    Ok(has_name(names, &name))
}

fn add(alloc: Global, names: &mut TreeSet<Name>, text: &[u8]) -> Result<bool, Fail> {
    let name = Name::single(alloc, text)?;
    let is_new = add_name(names, name)?;
    Ok(is_new)
}

fn find(alloc: Global, numbers: &TreeMap<Name, u64>, text: &[u8]) -> Result<Option<u64>, Fail> {
    let name = Name::single(alloc, text)?;
    Ok(number_of(numbers, &name))
}

fn give(
    alloc: Global,
    numbers: &mut TreeMap<Name, u64>,
    text: &[u8],
    number: u64,
) -> Result<(), Fail> {
    let name = Name::single(alloc, text)?;
    give_number(numbers, name, number)?;
    Ok(())
}

#[test]
fn finds_names(rt: HostRuntime) -> Result<(), Fail> {
    let alloc = rt.alloc();
    let mut names = TreeSet::new(alloc);
    for text in TEXTS {
        assert!(rt; !has(alloc, &names, text)?, "at {text:?}");
        assert!(rt; add(alloc, &mut names, text)?, "at {text:?}");
        assert!(rt; !add(alloc, &mut names, text)?, "at {text:?}");
        assert!(rt; has(alloc, &names, text)?, "at {text:?}");
    }
    assert_eq!(rt; names.len(), 4);
    Ok(())
}

#[test]
fn finds_numbers_of_names(rt: HostRuntime) -> Result<(), Fail> {
    let alloc = rt.alloc();
    let mut numbers = TreeMap::new(alloc);
    for (number, text) in TEXTS.iter().enumerate() {
        give(alloc, &mut numbers, text, 7)?;
        give(alloc, &mut numbers, text, number as u64)?;
    }
    assert_eq!(rt; numbers.len(), 4);
    for (number, text) in TEXTS.iter().enumerate() {
        assert_eq!(rt;
            find(alloc, &numbers, text)?,
            Some(number as u64),
            "at {number}"
        );
    }
    numbers.truncate(1);
    assert_eq!(rt; find(alloc, &numbers, b"b")?, Some(0));
    assert_eq!(rt; find(alloc, &numbers, b"ab")?, None);
    Ok(())
}
