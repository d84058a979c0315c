//! Kinds and faults as they print.
use common::{Fault, Kind, Memory};
use std::alloc::{AllocError, Global};
use std::test::Fail;

// Whether a kind has this number and this name, by which its refusal prints.
fn prints_as(alloc: Global, kind: Kind, number: u8, name: &str) -> Result<bool, Fail> {
    let text = format!(in alloc; "{}", Fault::Refused(kind))?;
    Ok(kind.number() == number && kind.name() == name && text.as_str() == name)
}

#[test]
fn kinds_and_faults_print(rt: HostRuntime) -> Result<(), Fail> {
    let alloc = rt.alloc();
    assert!(rt; prints_as(alloc, Kind::BadLine, 1, "BadLine")?);
    assert!(rt; prints_as(alloc, Kind::NotAlike, 9, "NotAlike")?);
    assert!(rt; prints_as(alloc, Kind::NotTheSequent, 20, "NotTheSequent")?);
    assert!(rt; prints_as(alloc, Kind::EmptyList, 27, "EmptyList")?);
    Ok(())
}

#[test]
fn wants_of_memory_print(rt: HostRuntime) -> Result<(), Fail> {
    assert_eq!(rt; Fault::from(Memory), Fault::Memory);
    assert_eq!(rt; Fault::from(AllocError), Fault::Memory);
    assert_eq!(rt; Memory::from(AllocError), Memory);
    let text = format!(in rt.alloc(); "{}, {}", Fault::Memory, Memory)?;
    assert_eq!(rt; text.as_str(), "out of memory, out of memory");
    Ok(())
}
