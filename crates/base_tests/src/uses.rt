//! The calls at names and at numbers, with what they say there.
ghost use Rattle.std.specs.Prelude.{◌≡◌, ◌==◌, ◌&&◌, ◌∷◌, [], OnOk, OnErr};
ghost use Rattle.std.specs.Map.{lookup};
ghost use Rattle.hol_spec.specs.Lists.{is_in, union};
ghost use Rattle.hol_spec.specs.NameEquality.{name_eq};
ghost use Rattle.tree_map.specs.Entries.{insert_entry, insert_key};

use common::Memory;
use hol_name::Name;
use tree_map::{TreeMap, TreeSet};

/// A name with a number: a key of several parts.
#[derive(Clone, PartialEq, Eq, PartialOrd, Ord, Drop)]
pub struct Seat {
    pub name: Name,
    pub number: usize,
}

/// The number of a name.
pub fn number_of(numbers: &TreeMap<Name, u64>, name: &Name) -> Option<u64>
    ensures { result ≡ lookup (name_eq name.now) numbers.now }
{
    numbers.get(name)
}

/// Gives a name this number.
pub fn give_number(numbers: &mut TreeMap<Name, u64>, name: Name, number: u64) -> Result<(), Memory>
    ensures given { OnOk result (numbers.new ≡ insert_entry name_eq numbers.old name number) }
    ensures unchanged { OnErr result (numbers.new ≡ numbers.old) }
{
    numbers.insert(name, number)
}

/// Whether a name is among names.
pub fn has_name(names: &TreeSet<Name>, name: &Name) -> bool
    ensures { result ≡ is_in name_eq name.now names.now }
{
    names.contains(name)
}

/// Takes a name, if it is new.
pub fn add_name(names: &mut TreeSet<Name>, name: Name) -> Result<bool, Memory>
    ensures added { OnOk result (names.new ≡ union name_eq names.old (name ∷ [])) }
    ensures unchanged { OnErr result (names.new ≡ names.old) }
{
    let (_, is_new) = names.insert_full(name)?;
    Ok(is_new)
}

/// Takes a number, if it is new.
pub fn add_number(numbers: &mut TreeSet<u64>, number: u64) -> Result<usize, Memory>
    ensures added { OnOk result (numbers.new ≡ insert_key (λ x y. x == y) numbers.old number) }
{
    let (place, _) = numbers.insert_full(number)?;
    Ok(place)
}

/// Takes a key of several parts, if it is new.
pub fn add_seat(seats: &mut TreeSet<Seat>, seat: Seat) -> Result<usize, Memory>
    ensures added { OnOk result (seats.new ≡ insert_key ⟦<Seat as PartialEq>⟧.eq seats.old seat) }
{
    let (place, _) = seats.insert_full(seat)?;
    Ok(place)
}

/// Gives a pair this number.
pub fn give_pair(
    numbers: &mut TreeMap<(Name, usize), u64>,
    pair: (Name, usize),
    number: u64,
) -> Result<(), Memory>
    ensures given { OnOk result (numbers.new ≡ insert_entry (λ x y. name_eq x.0 y.0 && (x.1 == y.1)) numbers.old pair number) }
{
    numbers.insert(pair, number)
}
