//! Modules of a few declarations.
ghost use Rattle.std.specs.Prelude.{◌≡◌, ◌++◌, ◌∷◌, [], IsFalse, OnOk};
ghost use Rattle.lp_spec.specs.Modules.{signature, symbol, types as types_tree};
ghost use Rattle.lp_spec.specs.ModuleOrder.{is_declared};
ghost use Rattle.holide_sig.specs.Modules.{declarations_of, IsHeld};

use common::Memory;
use holide_sig::{Decl, Form, Ident, Module, PRELUDE, SIGNATURE};
use lp_term::LpNode;
use std::alloc::Global;
use std::test::Fail;

// Declares a simple type of that name.
fn push_type(alloc: Global, into: &mut Module, name: &[u8]) -> Result<(), Memory>
    requires held { IsHeld into.old }
    requires new_name { IsFalse (is_declared (signature ++ declarations_of into.old) name.now) }
    ensures ok { OnOk result (declarations_of into.new ≡ declarations_of into.old ++ symbol name.now types_tree ∷ []) }
    ensures held { OnOk result (IsHeld into.new) }
{
    let ty = into.table.node(LpNode::Sym(0))?;
    let name = Ident::new(Vec::from_slice(alloc, name)?);
    let decl = Decl {
        name,
        form: Form::Symbol,
        ty,
        body: None,
    };
    into.push(decl)
}

#[test]
fn numbers_the_signature_and_then_the_declarations(rt: HostRuntime) -> Result<(), Fail> {
    let alloc = rt.alloc();
    let mut module = Module::new(alloc)?;
    assert!(rt; module.decls.is_empty());
    push_type(alloc, &mut module, b"nat")?;
    push_type(alloc, &mut module, b"list")?;
    for (name, number) in [
        (b"type".as_slice(), Some(0)),
        (b"eq_mp".as_slice(), Some(12)),
        (b"sub_rep_abs".as_slice(), Some(17)),
        (b"nat".as_slice(), Some(SIGNATURE)),
        (b"list".as_slice(), Some(SIGNATURE + 1)),
        (b"lis".as_slice(), None),
        (b"".as_slice(), None),
    ] {
        assert_eq!(rt; module.find(name), number, "at {name:?}");
    }
    assert_eq!(rt; module.decls.len(), 2);
    assert_eq!(rt; module.decls.get(1).name.as_bytes(), b"list".as_slice());
    assert_eq!(rt; module.symbol_name(5), b"eq".as_slice());
    assert_eq!(rt; module.symbol_name(SIGNATURE), b"nat".as_slice());
    let ty = module.symbol_type(4);
    let node = module.table.view(ty);
    let (types, sort) = (module.symbol_type(SIGNATURE), module.symbol_type(0));
    assert_eq!(rt; node, LpNode::Pi(types, sort), "term : type -> Type");
    Ok(())
}

#[test]
fn finds_a_symbol_whose_name_was_given_up(rt: HostRuntime) -> Result<(), Fail> {
    let alloc = rt.alloc();
    let mut module = Module::new(alloc)?;
    push_type(alloc, &mut module, b"nat")?;
    module.give_up_names();
    module.reserve(3)?;
    for (name, number) in [
        (b"eq_mp".as_slice(), Some(12)),
        (b"nat".as_slice(), Some(SIGNATURE)),
        (b"na".as_slice(), None),
        (b"natural".as_slice(), None),
    ] {
        assert_eq!(rt; module.find(name), number, "at {name:?}");
    }
    assert_eq!(rt; module.decls.len(), 1);
    Ok(())
}

#[test]
fn names_are_their_bytes(rt: HostRuntime) -> Result<(), Fail> {
    let alloc = rt.alloc();
    let one = Ident::new(Vec::from_slice(alloc, b"E0")?);
    let two = Ident::new(Vec::from_slice(alloc, b"E1")?);
    assert!(rt; one != two);
    let copy = Ident::new(Vec::from_slice(alloc, one.as_bytes())?);
    assert!(rt; one == copy);
    assert_eq!(rt; two.into_bytes().as_slice(), b"E1".as_slice());
    assert!(rt; PRELUDE.starts_with(b"type : Type.\nbool : type.\n"));
    assert_eq!(rt; PRELUDE.iter().filter(|byte| **byte == b'\n').count(), 19);
    Ok(())
}
