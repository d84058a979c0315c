//! The lists of a term's variables, in little room.
ghost use Rattle.std.specs.Prelude.{◌≡◌, IfOk};
ghost use Rattle.hol_variables.specs.Packed.{list_numbered};

use crate::Own;
use crate::lists::ListId;
use common::Memory;
use common::amounts::narrow;
use std::marker::Model;

// The number of no list.
const NO_LIST: u32 = u32::MAX;

/// The lists of a term's type variables and of its free variables by their numbers.
#[derive(Drop)]
pub(crate) struct Packed {
    names: u32,
    variables: u32,
}

impl Model for Packed {
    ghost use Rattle.hol_variables.specs.declared.Own.{Own as TheLists};

    ghost Value = { TheLists };

    ghost use Rattle.hol_variables.specs.Packed.{list_numbered};

    ghost view = { λ p. record { names = list_numbered p.names; variables = list_numbered p.variables } };
}

// There is one for each term of a table.
const _: () = prove!(size_of::<Packed>() == 8);

impl Packed {
    /// These lists in little room. A number of 2^32 - 1 or more is want of memory.
    pub(crate) fn of(own: Own) -> Result<Packed, Memory>
        ensures { IfOk result (λ packed. packed ≡ own) }
    {
        Ok(Packed {
            names: narrow_list(own.names)?,
            variables: narrow_list(own.variables)?,
        })
    }

    /// The lists.
    pub(crate) fn own(&self) -> Own
        ensures { result ≡ self.now }
    {
        Own {
            names: list(self.names),
            variables: list(self.variables),
        }
    }
}

// The number of a list in 32 bits, or that of no list.
fn narrow_list(list: Option<ListId>) -> Result<u32, Memory>
    ensures { IfOk result (λ n. list_numbered n ≡ list) }
{
    let Some(id) = list else {
        return Ok(NO_LIST);
    };
    let number = narrow(id.0 as u128)?;
    if number < NO_LIST {
        Ok(number)
    } else {
        Err(Memory)
    }
}

// The list with this number, if it is one.
fn list(number: u32) -> Option<ListId>
    ensures { result ≡ list_numbered number }
{
    if number == NO_LIST {
        None
    } else {
        Some(ListId(number as usize))
    }
}
