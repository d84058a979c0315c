//! Names read, mangled, demangled, copied and hashed.
use hol_name::{Name, NameFault};
use std::hash::{DefaultHasher, Hash, Hasher};
use std::test::Fail;

#[test]
fn reads_names_by_the_grammar(rt: HostRuntime) -> Result<(), Fail> {
    let dotted = Name::parse(rt.alloc(), b"\"a\\.b.c\"".as_slice())?;
    assert_eq!(rt; dotted.len(), 2);
    assert_eq!(rt; dotted.component(0), b"a.b".as_slice());
    assert_eq!(rt; dotted.component(1), b"c".as_slice());
    let plain = Name::parse(rt.alloc(), b"\"a.b.c\"".as_slice())?;
    assert_eq!(rt; plain.len(), 3);
    assert!(rt; !plain.same(&dotted));
    let table = [
        (b"\"=\"".as_slice(), b"=".as_slice()),
        (b"\"\"".as_slice(), b"".as_slice()),
        (b"\"\\\"\\\\\"".as_slice(), b"\"\\".as_slice()),
    ];
    for (line, text) in table {
        let name = Name::parse(rt.alloc(), line)?;
        assert!(rt; name.is_single(text), "at {line:?}");
        assert!(rt; name == Name::single(rt.alloc(), text)?, "at {line:?}");
    }
    let refused = [
        b"".as_slice(),
        b"a".as_slice(),
        b"\"".as_slice(),
        b"\"a\"b\"".as_slice(),
        b"\"a\\\"".as_slice(),
        b"\"a\" ".as_slice(),
    ];
    for line in refused {
        let answer = Name::parse(rt.alloc(), line);
        assert_eq!(rt; answer.err(), Some(NameFault::BadLine), "at {line:?}");
    }
    Ok(())
}

// The names and their texts, byte by byte; the texts after them are those of no name.
#[test]
fn mangles_and_reads_back(rt: HostRuntime) -> Result<(), Fail> {
    let table = [
        (b"\"a_b\"".as_slice(), b"a_5fb".as_slice()),
        (b"\"x=y\"".as_slice(), b"x_3dy".as_slice()),
        (b"\"\xc3\xa9\"".as_slice(), b"_c3_a9".as_slice()),
        (b"\"a..b\"".as_slice(), b"a____b".as_slice()),
        (b"\"a\\.b.c\"".as_slice(), b"a_2eb__c".as_slice()),
        (b"\"\"".as_slice(), b"".as_slice()),
    ];
    for (line, text) in table {
        let name = Name::parse(rt.alloc(), line)?;
        let mut bytes = Vec::new(rt.alloc());
        for byte in name.mangled() {
            bytes.push(byte)?;
        }
        assert_eq!(rt; bytes.as_slice(), text, "at {line:?}");
        let found = Name::demangle(rt.alloc(), text)?;
        assert!(rt; found.is_some_and(|found| found.same(&name)), "at {line:?}");
    }
    for text in [
        b"a_5Fb".as_slice(),
        b"a_61",
        b"a_",
        b"_",
        b"a___",
        b"a_5",
        b"a=b",
        b"_5g",
    ] {
        let found = Name::demangle(rt.alloc(), text)?;
        assert!(rt; found.is_none(), "at {text:?}");
    }
    Ok(())
}

#[test]
fn copies_are_equal_and_hash_alike(rt: HostRuntime) -> Result<(), Fail> {
    let name = Name::parse(rt.alloc(), b"\"Data.Bool.and\"".as_slice())?;
    let copy = name.clone()?;
    assert!(rt; copy.same(&name));
    let mut one = DefaultHasher::new();
    name.hash(&mut one);
    let mut two = DefaultHasher::new();
    copy.hash(&mut two);
    assert_eq!(rt; one.finish(), two.finish());
    Ok(())
}
