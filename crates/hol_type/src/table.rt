//! The table of types.
ghost use Rattle.std.specs.Prelude.{◌≡◌, ◌↔◌, ◌<◌, ◌≤◌, ◌^◌, ◌-◌, [], ◌∷◌, length, min, take, IfOk, IfErr, IfSome, IsTrue, OnErr, MatchOption};
ghost use Rattle.std.specs.Option.{option_map};
ghost use Rattle.hol_spec.specs.Names.{Name as AName};
ghost use Rattle.hol_spec.specs.Types.{variable, operator, types_of, type_variables};
ghost use Rattle.hol_spec.specs.Limits.{TypeWithin, type_size, type_depth};
ghost use Rattle.hol_spec.specs.Primitives.{bool as bool_type, function as function_type, function_parts as parts_of_function};
ghost use Rattle.hol_spec.specs.Substitution.{TypePairs, substitute};
ghost use Rattle.common.specs.declared.faults.Fault.TheVariants as the_fault;
ghost use Rattle.hol_type.specs.Refusals.{RefusesType};
ghost use Rattle.hol_type.specs.Tables.{tree_at, types_at, pairs_at, two_at, AreKnown, ArePairsKnown, Holds, Keeps, Adds, IsDistinct};
ghost use Rattle.hol_type.specs.Entries.{tree_of_node, PartsBelow};
ghost use Rattle.hol_type.specs.Measured.{IsMeasured};
ghost use Rattle.hol_type.specs.Views.{tree_of_view, ViewBelow};

use crate::TypeMap;
use crate::entries::Entries;
use crate::matching::matched;
use crate::node::{Entry, Measures, Node};
use crate::variables::variables;
use common::{Fault, Memory};
use hol_name::Name;
use std::alloc::Global;
use std::marker::Model;

/// The number of a type in its table. A number that no call of the table gave means nothing there.
#[derive(Clone, Copy, Debug, PartialEq, Eq, PartialOrd, Ord, Hash)]
pub struct TypeId(pub usize);

/// The head of a type, with the numbers of its parts.
#[derive(Clone, Copy)]
pub enum TypeView<'a> {
    /// A variable with its name.
    Var(&'a Name),
    /// An operator with its name and its arguments.
    Op(&'a Name, &'a [TypeId]),
}

/// A table of types.
#[derive(Drop)]
pub struct TypeTable {
    pub(crate) alloc: Global,
    entries: Entries,
}

impl Model for TypeTable {
    ghost use Rattle.std.specs.Prelude.{List};
    ghost use Rattle.std.specs.Coded.{coded_list};
    ghost use Rattle.hol_spec.specs.Names.{Name as AName};
    ghost use Rattle.hol_spec.specs.Types.{HolType};
    ghost use Rattle.hol_laws.specs.TypeLaws.{coded_type};

    ghost Value = { List HolType };

    ghost coded = { coded_list coded_type };

    ghost use Rattle.hol_type.specs.Entries.{trees_of, IsTable};

    ghost view = { λ t. trees_of t.entries };

    ghost invariant = { λ t. IsTable t.entries };
}

impl TypeTable {
    /// An empty table. It takes no memory.
    pub fn new(alloc: Global) -> Self
        ensures empty { result ≡ [] }
    {
        TypeTable {
            alloc,
            entries: Entries::new(alloc),
        }
    }

    /// The variable of this name. It is within every limit.
    pub fn var(&mut self, name: &Name) -> Result<TypeId, Fault>
        ensures known { IfOk result (λ id. id.0 < length self.new) }
        ensures made { IfOk result (λ id. Holds self.new id.0 (variable name.now)) }
        ensures adds { Adds self.old self.new (variable name.now) }
        ensures keeps { Keeps self.old self.new }
        ensures distinct { IsDistinct self.new }
        ensures refusal { IfErr result (λ fault. fault ≡ the_fault.Memory) }
        ensures unchanged { OnErr result (self.new ≡ self.old) }
    {
        let _ = &self.alloc;
        let node = Node::Var(name.clone()?);
        let id = self.add(node, Measures { size: 1, depth: 1 })?;
        Ok(id)
    }

    /// The operator of this name over these arguments. It is refused where it passes the limit of size, and else
    /// where it passes that of depth.
    pub fn op(&mut self, name: &Name, args: &[TypeId]) -> Result<TypeId, Fault>
        requires { AreKnown self.old args.now }
        ensures known { IfOk result (λ id. id.0 < length self.new) }
        ensures made { IfOk result (λ id. Holds self.new id.0 (operator name.now (types_of (types_at self.old args.now)))) }
        ensures within { IfOk result (λ id. TypeWithin (operator name.now (types_of (types_at self.old args.now)))) }
        ensures adds { Adds self.old self.new (operator name.now (types_of (types_at self.old args.now))) }
        ensures keeps { Keeps self.old self.new }
        ensures distinct { IsDistinct self.new }
        ensures refusal { IfErr result (λ fault. RefusesType fault (operator name.now (types_of (types_at self.old args.now)))) }
        ensures unchanged { OnErr result (self.new ≡ self.old) }
    {
        let measures = self.measures(args);
        measures.check_limits()?;
        let node = Node::Op(name.clone()?, Vec::from_slice(self.alloc, args)?);
        let id = self.add(node, measures)?;
        Ok(id)
    }

    /// The type of functions from `domain` to `codomain`, whatever its size and depth.
    pub fn function(&mut self, domain: TypeId, codomain: TypeId) -> Result<TypeId, Memory>
        requires domain { domain.0 < length self.old }
        requires codomain { codomain.0 < length self.old }
        ensures known { IfOk result (λ id. id.0 < length self.new) }
        ensures made { IfOk result (λ id. Holds self.new id.0 (function_type (tree_at self.old domain.0) (tree_at self.old codomain.0))) }
        ensures adds { Adds self.old self.new (function_type (tree_at self.old domain.0) (tree_at self.old codomain.0)) }
        ensures keeps { Keeps self.old self.new }
        ensures distinct { IsDistinct self.new }
        ensures unchanged { OnErr result (self.new ≡ self.old) }
    {
        self.primitive(b"->", &[domain, codomain])
    }

    /// The type of truth values.
    pub fn bool(&mut self) -> Result<TypeId, Memory>
        ensures known { IfOk result (λ id. id.0 < length self.new) }
        ensures made { IfOk result (λ id. Holds self.new id.0 bool_type) }
        ensures adds { Adds self.old self.new bool_type }
        ensures keeps { Keeps self.old self.new }
        ensures distinct { IsDistinct self.new }
        ensures unchanged { OnErr result (self.new ≡ self.old) }
    {
        self.primitive(b"bool", &[])
    }

    /// The type with every variable replaced, all at once, by what the first pair of its name gives. It is refused
    /// where it passes the limit of size, and else where it passes that of depth.
    pub fn subst(&mut self, pairs: &[(Name, TypeId)], id: TypeId) -> Result<TypeId, Fault>
        requires pairs { ArePairsKnown self.old pairs.now }
        requires id { id.0 < length self.old }
        ensures known { IfOk result (λ r. r.0 < length self.new) }
        ensures made { IfOk result (λ r. Holds self.new r.0 (substitute (pairs_at self.old pairs.now) (tree_at self.old id.0))) }
        ensures within { IfOk result (λ r. TypeWithin (substitute (pairs_at self.old pairs.now) (tree_at self.old id.0))) }
        ensures keeps { Keeps self.old self.new }
        ensures distinct { IsDistinct self.new }
        ensures refusal { IfErr result (λ fault. RefusesType fault (substitute (pairs_at self.old pairs.now) (tree_at self.old id.0))) }
        ensures unchanged { OnErr result (self.new ≡ self.old) }
    {
        let count = self.count();
        match self.substituted(pairs, id) {
            Ok(made) => Ok(made),
            Err(fault) => {
                self.cut(count);
                Err(fault)
            }
        }
    }

    /// A type for each variable of `general` under which it becomes `instance`, or `None` exactly where no
    /// substitution makes it that.
    pub fn match_to(&self, general: TypeId, instance: TypeId) -> Result<Option<TypeMap>, Memory>
        requires general { general.0 < length self.now }
        requires instance { instance.0 < length self.now }
        ensures matches { IfOk result (λ found. MatchOption found
            ((s : TypePairs) → substitute s (tree_at self.now general.0) ≡ tree_at self.now instance.0 → ⊥)
            (λ pairs. substitute (pairs_at self.now pairs) (tree_at self.now general.0) ≡ tree_at self.now instance.0)) }
        ensures known { IfOk result (λ found. IfSome found (λ pairs. ArePairsKnown self.now pairs)) }
    {
        let _ = &self.alloc;
        matched(self, general, instance)
    }

    /// The variables of a type, in order of first occurrence.
    pub fn vars(&self, id: TypeId) -> Result<Vec<Name>, Memory>
        requires { id.0 < length self.now }
        ensures { IfOk result (λ names. names.items ≡ type_variables (tree_at self.now id.0)) }
    {
        variables(self, id)
    }

    /// How many variables and operators the type has, or the greatest number of the type if they are more.
    pub fn size(&self, id: TypeId) -> u64
        requires { id.0 < length self.now }
        ensures { result ≡ min (type_size (tree_at self.now id.0)) (2 ^ 64 - 1) }
    {
        self.entry(id).measures.size
    }

    /// How deep the type is, or the greatest number of the type if it is more. An operator lies above the deepest
    /// of its arguments by their number, or by one if it has none.
    pub fn depth(&self, id: TypeId) -> u64
        requires { id.0 < length self.now }
        ensures { result ≡ min (type_depth (tree_at self.now id.0)) (2 ^ 64 - 1) }
    {
        self.entry(id).measures.depth
    }

    /// The head of a type. Its arguments have lower numbers.
    pub fn view(&self, id: TypeId) -> TypeView<'_>
        requires { id.0 < length self.now }
        ensures is { Holds self.now id.0 (tree_of_view self.now result) }
        ensures lower { ViewBelow id.0 result }
        ensures distinct { IsDistinct self.now }
    {
        match &self.entry(id).node {
            Node::Var(name) => TypeView::Var(name),
            Node::Op(name, args) => TypeView::Op(name, args),
        }
    }

    /// The argument's and the result's type of a type of functions, or `None` for another type.
    pub fn function_parts(&self, id: TypeId) -> Option<(TypeId, TypeId)>
        requires { id.0 < length self.now }
        ensures parts { option_map (two_at self.now) result ≡ parts_of_function (tree_at self.now id.0) }
        ensures domain { IfSome result (λ parts. parts.0.0 < id.0) }
        ensures codomain { IfSome result (λ parts. parts.1.0 < id.0) }
    {
        match self.view(id) {
            TypeView::Op(name, args) => {
                if args.len() == 2 && name.is_single(b"->") {
                    Some((args[0], args[1]))
                } else {
                    None
                }
            }
            TypeView::Var(_) => None,
        }
    }

    /// Whether the type is that of truth values.
    pub fn is_bool(&self, id: TypeId) -> bool
        requires { id.0 < length self.now }
        ensures is { IsTrue result ↔ (tree_at self.now id.0 ≡ bool_type) }
        ensures distinct { IsDistinct self.now }
    {
        match self.view(id) {
            TypeView::Op(name, args) => args.is_empty() && name.is_single(b"bool"),
            TypeView::Var(_) => false,
        }
    }

    // The operator with this name of one component.
    fn primitive(&mut self, name: &[u8], args: &[TypeId]) -> Result<TypeId, Memory>
        requires { AreKnown self.old args.now }
        ensures known { IfOk result (λ id. id.0 < length self.new) }
        ensures made { IfOk result (λ id. Holds self.new id.0 (operator (name.now ∷ []) (types_of (types_at self.old args.now)))) }
        ensures adds { Adds self.old self.new (operator (name.now ∷ []) (types_of (types_at self.old args.now))) }
        ensures keeps { Keeps self.old self.new }
        ensures distinct { IsDistinct self.new }
        ensures unchanged { OnErr result (self.new ≡ self.old) }
    {
        let Ok(name) = Name::single(self.alloc, name) else {
            return Err(Memory);
        };
        let measures = self.measures(args);
        let node = Node::Op(name, Vec::from_slice(self.alloc, args)?);
        self.add(node, measures)
    }

    // The type of this node, which has a number already, or else gets the next one.
    pub(crate) fn add(&mut self, node: Node, measures: Measures) -> Result<TypeId, Memory>
        requires parts { PartsBelow (length self.old) node }
        requires measured { IsMeasured measures (tree_of_node self.old node) }
        ensures known { IfOk result (λ id. id.0 < length self.new) }
        ensures made { IfOk result (λ id. Holds self.new id.0 (tree_of_node self.old node)) }
        ensures adds { Adds self.old self.new (tree_of_node self.old node) }
        ensures keeps { Keeps self.old self.new }
        ensures distinct { IsDistinct self.new }
        ensures unchanged { OnErr result (self.new ≡ self.old) }
    {
        match self.entries.insert_full(Entry { node, measures }) {
            Ok((index, _)) => Ok(TypeId(index)),
            Err(memory) => Err(memory),
        }
    }

    // The entry of a type.
    fn entry(&self, id: TypeId) -> &Entry
        requires { id.0 < length self.now }
        ensures is { Holds self.now id.0 (tree_of_node self.now result.now.node) }
        ensures lower { PartsBelow id.0 result.now.node }
        ensures measured { IsMeasured result.now.measures (tree_at self.now id.0) }
        ensures distinct { IsDistinct self.now }
    {
        self.entries.get(id.0)
    }

    // The measures of a type.
    pub(crate) fn measures_of(&self, id: TypeId) -> Measures
        requires { id.0 < length self.now }
        ensures { IsMeasured result (tree_at self.now id.0) }
    {
        self.entry(id).measures
    }

    // The measures of an operator over these arguments.
    pub(crate) fn measures(&self, args: &[TypeId]) -> Measures
        requires { AreKnown self.now args.now }
        ensures { (name : AName) → IsMeasured result (operator name (types_of (types_at self.now args.now))) }
    {
        let mut size: u64 = 1;
        let mut depth: u64 = 0;
        for arg in args {
            let part = self.measures_of(*arg);
            size = size.saturating_add(part.size);
            depth = depth.max(part.depth);
        }
        let above = (args.len() as u64).max(1);
        Measures {
            size,
            depth: depth.saturating_add(above),
        }
    }

    /// Gives up all types from the number `len` on, for a caller that made them and is refused afterwards.
    pub fn cut(&mut self, len: usize)
        requires { len ≤ length self.old }
        ensures { self.new ≡ take len self.old }
    {
        self.entries.truncate(len);
    }

    /// How many types there are.
    pub fn count(&self) -> usize
        ensures count { result ≡ length self.now }
        ensures distinct { IsDistinct self.now }
    {
        self.entries.len()
    }
}
