//! Amounts in 32 bits: a small one is its own code, and a large one stands in a list.
ghost use Rattle.std.specs.Prelude.{◌≡◌, ◌-◌, ◌+◌, ◌^◌, ◌≤◌, [], length, take, nat_le, IfOk, OnErr};
ghost use Rattle.common.specs.Amounts.{amount_of, IsCode, IsGrown};

use crate::Memory;
use std::alloc::Global;
use std::marker::Model;

// From this code on an amount stands in the list.
const LARGE: u32 = 1 << 31;

/// The large ones among amounts that are kept by codes of 32 bits. Contracts see the list of them.
#[derive(Drop)]
pub struct Amounts {
    large: Vec<u128>,
}

impl Model for Amounts {
    ghost use Rattle.std.specs.Prelude.{List, ℕ};
    ghost use Rattle.std.specs.Coded.{coded_list, coded_ℕ};

    ghost Value = { List ℕ };

    ghost coded = { coded_list coded_ℕ };

    ghost view = { λ a. a.large.items };
}

impl Amounts {
    /// No large amount. It takes no memory.
    pub fn new(alloc: Global) -> Self
        ensures empty { result ≡ [] }
    {
        Amounts {
            large: Vec::new(alloc),
        }
    }

    /// The amount of a code.
    pub fn get(&self, code: u32) -> u128
        requires { IsCode (length self.now) code }
        ensures { result ≡ amount_of self.now code }
    {
        if code < LARGE {
            code as u128
        } else {
            self.large[(code - LARGE) as usize]
        }
    }

    /// A code of an amount. It takes memory for a large one alone, and after want of it the amounts are as before.
    pub fn code(&mut self, amount: u128) -> Result<u32, Memory>
        ensures code { IfOk result (IsCode (length self.new)) }
        ensures amount { IfOk result (λ code. amount_of self.new code ≡ amount) }
        ensures next { IfOk result (λ code. 2 ^ 31 ≤ code → code ≡ 2 ^ 31 + length self.old) }
        ensures grown { IsGrown self.old self.new }
        ensures unchanged { OnErr result (self.new ≡ self.old) }
    {
        if amount < LARGE as u128 {
            return Ok(amount as u32);
        }
        let place = self.large.len();
        if place >= LARGE as usize {
            return Err(Memory);
        }
        self.large.push(amount)?;
        Ok(LARGE + place as u32)
    }

    /// Gives up the amounts of this code and of those that came after it.
    pub fn forget(&mut self, code: u32)
        ensures { self.new ≡ take (code - 2 ^ 31) self.old }
    {
        self.large.truncate(code.saturating_sub(LARGE) as usize);
    }
}

/// The number in 32 bits. A greater one is want of memory.
pub fn narrow(number: u128) -> Result<u32, Memory>
    ensures { IfOk result (λ n. n ≡ number) }
{
    u32::try_from(number).map_err(|_| Memory)
}

/// Whether the amount of a code stands in the list.
pub fn is_large(code: u32) -> bool
    ensures { result ≡ nat_le (2 ^ 31) code }
{
    code >= LARGE
}
