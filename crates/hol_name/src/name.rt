//! The type of names.

ghost use Rattle.std.specs.Prelude.{◌≡◌, ◌↔◌, ◌<◌, ◌≤◌, ◌∷◌, [], length, map, slice_get, IsTrue, IfOk, IfErr, MatchOption, Some, None, Ok, Err};
ghost use Rattle.std.proofs.Common.{refl, rules};
ghost use Rattle.std.specs.Cmp.{partial_order_from_own_ties, partial_order_from_total, unsigned_Decides};
ghost use Rattle.std.specs.Cmp.Lexicographic.{lists_ties, lists_total, nat_list_cmp_total, slice_cmp, texts_ties};
ghost use Rattle.std.specs.Cmp.Rules.{comparing};
ghost use Rattle.std.specs.Hash as fed;
ghost use Rattle.std.specs.Hash.{items_Alike, same_Alike};
ghost use Rattle.std.specs.Option.{option_map};
ghost use Rattle.std.specs.Ordering.{as_partial_cmp, nat_cmp};
ghost use Rattle.hol_spec.specs.NameOf.{name_of, name_from};
ghost use Rattle.hol_spec.specs.NameEquality.{name_eq};
ghost use Rattle.hol_spec.specs.Mangling.{mangled, AreBytes, IsName};
ghost use Rattle.hol_name.specs.Demangled.{HasNoName};
ghost use Rattle.hol_name.specs.Components.{onto, StopsComponent};

use crate::mangling::{Mangled, components_of};
use std::alloc::{AllocError, AllocFailed, Global};
use std::cmp::Ordering;
use std::hash::{Hash, Hasher};
use std::marker::Model;
use std::rc::Rc;
use thiserror::Error;

/// Want of memory.
#[derive(Clone, Copy, Debug, PartialEq, Eq, Error)]
#[error("out of memory")]
pub struct Memory;

impl From<AllocError> for Memory {
    ghost from_gives = { λ _ memory. memory ≡ record {} };

    fn from(_error: AllocError) -> Memory {
        Memory
    }
}

impl<T: Drop> From<AllocFailed<T>> for Memory {
    ghost from_gives = { λ _ memory. memory ≡ record {} };

    fn from(_error: AllocFailed<T>) -> Memory {
        Memory
    }
}

/// Why a line gave no name.
#[derive(Clone, Copy, Debug, PartialEq, Eq, Error)]
pub enum NameFault {
    /// The line writes no name.
    #[error("bad line")]
    BadLine,
    /// There was no memory for the name.
    #[error("out of memory")]
    Memory,
}

/// A name: a nonempty list of components, each of any bytes. The last one is the name proper, those
/// before it its namespace. Copies share the components.
#[derive(Drop)]
pub struct Name {
    components: Rc<Vec<Vec<u8>>>,
}

impl Model for Name {
    ghost use Rattle.std.specs.Prelude.{List, ℕ, map};
    ghost use Rattle.hol_spec.specs.Mangling.{IsName};

    ghost Value = { List (List ℕ) };

    ghost view = { λ name. map (λ component. component.items) name.components.value.items };

    ghost invariant = { λ name. IsName (map (λ component. component.items) name.components.value.items) };
}

impl Name {
    /// The name that a line writes (OpenTheory article format, version 6, names): between two quotes,
    /// components with dots between them; a backslash makes the next byte plain. `line` is a whole
    /// line, without the blanks at its ends. `BadLine` comes exactly where it writes no name.
    pub fn parse(alloc: Global, line: &[u8]) -> Result<Name, NameFault>
        ensures name { IfOk result (λ name. name_of line.now ≡ Some name) }
        ensures bad_line { result ≡ Err NameFault.BadLine → name_of line.now ≡ None }
    {
        let [b'"', text @ ..] = line else {
            return Err(NameFault::BadLine);
        };
        let mut components = Vec::new(alloc);
        let mut rest = text;
        loop {
            let Ok((component, after)) = read_component(alloc, rest) else {
                return Err(NameFault::Memory);
            };
            if components.push(component).is_err() {
                return Err(NameFault::Memory);
            }
            match after {
                [b'"'] => return whole(alloc, components),
                [b'.', next @ ..] => rest = next,
                _ => return Err(NameFault::BadLine),
            }
        }
    }

    /// The name with this one component.
    pub fn single(alloc: Global, text: &[u8]) -> Result<Name, Memory>
        ensures name { IfOk result (λ name. name ≡ text.now ∷ []) }
    {
        let Ok(component) = Vec::from_slice(alloc, text) else {
            return Err(Memory);
        };
        let mut components = Vec::new(alloc);
        if components.push(component).is_err() {
            return Err(Memory);
        }
        Name::of(alloc, components)
    }

    // The name with these components.
    fn of(alloc: Global, components: Vec<Vec<u8>>) -> Result<Name, Memory>
        requires { IsName (map (λ component. component.items) components.items) }
        ensures { IfOk result (λ name. name ≡ map (λ component. component.items) components.items) }
    {
        match Rc::new(alloc, components) {
            Ok(components) => Ok(Name { components }),
            Err(_) => Err(Memory),
        }
    }

    // The components, for reading.
    fn components(&self) -> &[Vec<u8>]
        ensures are { map (λ component. component.items) result.now ≡ self.now }
        ensures name { IsName self.now }
        ensures nonempty { 0 < length result.now }
    {
        self.components.as_ref()
    }

    /// The text of the name within the identifier of a symbol, byte by byte: ASCII letters and digits as they are, any
    /// other byte as `_` and two lower-case hexadecimal digits, and `__` between components. It takes no memory.
    pub fn mangled(&self) -> Mangled<'_>
        ensures text { result ≡ mangled self.now }
        ensures name { IsName self.now }
    {
        let components = self.components();
        Mangled::of(&components[0], &components[1..])
    }

    /// The name that has this mangled text: `None` exactly where no name has it, as where a hexadecimal digit is in
    /// upper case, or a letter is written by digits.
    pub fn demangle(alloc: Global, text: &[u8]) -> Result<Option<Name>, Memory>
        ensures inverse { IfOk result (λ found. MatchOption found (HasNoName text.now) (λ name. mangled name ≡ text.now)) }
    {
        match components_of(alloc, text)? {
            Some(components) => Ok(Some(Name::of(alloc, components)?)),
            None => Ok(None),
        }
    }

    /// The number of components. It is never 0.
    pub fn len(&self) -> usize
        ensures count { result ≡ length self.now }
        ensures nonempty { 0 < result }
    {
        self.components().len()
    }

    /// The component at this place, the outermost namespace being at 0.
    pub fn component(&self, index: usize) -> &[u8]
        requires { index < length self.now }
        ensures { slice_get self.now index ≡ Some result.now }
    {
        &self.components()[index]
    }

    /// Whether the name has this text as its one component.
    pub fn is_single(&self, text: &[u8]) -> bool
        ensures { IsTrue result ↔ (self.now ≡ text.now ∷ []) }
    {
        let components = self.components();
        components.len() == 1 && components[0].as_slice() == text
    }

    /// Whether two names have the same components.
    pub fn same(&self, other: &Name) -> bool
        ensures { IsTrue result ↔ (self.now ≡ other.now) }
    {
        self == other
    }
}

// The name with these components, where memory alone can be wanting.
fn whole(alloc: Global, components: Vec<Vec<u8>>) -> Result<Name, NameFault>
    requires { IsName (map (λ component. component.items) components.items) }
    ensures name { IfOk result (λ name. name ≡ map (λ component. component.items) components.items) }
    ensures memory { IfErr result (λ fault. fault ≡ NameFault.Memory) }
{
    match Name::of(alloc, components) {
        Ok(name) => Ok(name),
        Err(Memory) => Err(NameFault::Memory),
    }
}

/// The bytes that the front of a text writes as one component, and the text behind it. That begins
/// with what ends a component: a quote, a dot, a backslash at the end of the text, or nothing.
fn read_component(alloc: Global, text: &[u8]) -> Result<(Vec<u8>, &[u8]), Memory>
    ensures read { IfOk result (λ r. name_from text.now ≡ option_map (onto r.0.items) (name_from r.1.now)) }
    ensures stops { IfOk result (λ r. StopsComponent r.1.now) }
    ensures bytes { IfOk result (λ r. AreBytes r.0.items) }
    ensures rest { IfOk result (λ r. length r.1.now ≤ length text.now) }
{
    let mut bytes = Vec::new(alloc);
    let mut rest = text;
    loop {
        let (byte, after) = match rest {
            [] | [b'"' | b'.', ..] | [b'\\'] => return Ok((bytes, rest)),
            [b'\\', byte, after @ ..] | [byte, after @ ..] => (*byte, after),
        };
        if bytes.push(byte).is_err() {
            return Err(Memory);
        }
        rest = after;
    }
}

impl Clone for Name {
    ghost is_clone = { λ name copy. copy ≡ name };

    // It takes no memory, and fails only where a name has as many copies as can be counted.
    fn clone(&self) -> Result<Name, AllocError> {
        Ok(Name {
            components: self.components.clone()?,
        })
    }
}

impl PartialEq for Name {
    ghost eq = { name_eq };

    ghost laws = { Prim.search (comparing, rules) };

    fn eq(&self, other: &Name) -> bool {
        self.components() == other.components()
    }
}

impl Eq for Name {
    ghost laws = { Prim.search (comparing, rules) };
}

/// Names are ordered component by component, from the outermost namespace on, and components byte by byte.
impl Ord for Name {
    ghost cmp = { slice_cmp (slice_cmp nat_cmp) };

    ghost total = { lists_total nat_list_cmp_total };

    ghost matches_partial_cmp = { λ _ _. refl };

    ghost matches_eq = { lists_ties (slice_cmp nat_cmp) texts_ties };

    fn cmp(&self, other: &Name) -> Ordering {
        self.components().cmp(other.components())
    }
}

impl PartialOrd for Name {
    ghost partial_cmp = { as_partial_cmp (slice_cmp (slice_cmp nat_cmp)) };

    ghost laws = { partial_order_from_own_ties (partial_order_from_total (lists_total nat_list_cmp_total)) (lists_ties (slice_cmp nat_cmp) texts_ties) };

    fn partial_cmp(&self, other: &Name) -> Option<Ordering> {
        Some(self.cmp(other))
    }
}

impl Hash for Name {
    ghost hash_input = { fed.slice (fed.slice fed.u8) };

    ghost respects_eq = { (items_Alike (items_Alike (same_Alike fed.u8 unsigned_Decides))).fed };

    fn hash<H: Hasher>(&self, state: &mut H) {
        self.components().hash(state);
    }
}
