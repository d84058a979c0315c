//! The text of a name within the identifier of a symbol: how it is written, and how it is read back.

ghost use Rattle.std.specs.Prelude.{◌≡◌, ◌<◌, ◌≤◌, ℕ, ◌∷◌, ◌++◌, [], List, length, map, IfOk, IfSome, IfNone, MatchOption};
ghost use Rattle.std.specs.Iterator.{YieldsFirst, item_count};
ghost use Rattle.hol_spec.specs.Mangling.{hex_digit, mangled, mangled_before, mangled_more, AreBytes, IsName};
ghost use Rattle.hol_laws.specs.ManglingLaws.{IsByteless};
ghost use Rattle.hol_name.specs.Behind.{IsBehind};
ghost use Rattle.hol_name.specs.Demangled.{HasNoName, IsEscaped};
ghost use Rattle.hol_name.specs.Escapes.{waiting_text};

use crate::name::Memory;
use std::alloc::Global;
use std::marker::Model;

/// What is still to come of the text of a byte or of a boundary.
#[derive(Clone, Copy)]
enum Waiting {
    Nothing,
    One(u8),
    Two(u8, u8),
}

/// The mangled text of a name, byte by byte. It takes no memory.
#[derive(Drop)]
pub struct Mangled<'a> {
    waiting: Waiting,
    component: &'a [u8],
    others: &'a [Vec<u8>],
}

impl<'a> Model for Mangled<'a> {
    ghost use Rattle.std.specs.Prelude.{List, ℕ, map, ◌++◌};
    ghost use Rattle.hol_spec.specs.Mangling.{mangled_before, mangled_more};
    ghost use Rattle.hol_name.specs.Escapes.{waiting_text};

    ghost Value = { List ℕ };

    ghost view = { λ m. waiting_text m.waiting ++ mangled_before m.component.now (mangled_more (map (λ component. component.items) m.others.now)) };
}

impl<'a> Mangled<'a> {
    /// The text of the name with this component and those after it.
    pub(crate) fn of(component: &'a [u8], others: &'a [Vec<u8>]) -> Self
        ensures { result ≡ mangled_before component.now (mangled_more (map (λ other. other.items) others.now)) }
    {
        Mangled {
            waiting: Waiting::Nothing,
            component,
            others,
        }
    }
}

impl<'a> Iterator for Mangled<'a> {
    type Item = u8;

    ghost next_gives = { YieldsFirst (λ m. m) };

    ghost remaining = { item_count (λ m. m) };

    fn next(&mut self) -> Option<u8> {
        match self.waiting {
            Waiting::Two(next, last) => {
                self.waiting = Waiting::One(last);
                Some(next)
            }
            Waiting::One(last) => {
                self.waiting = Waiting::Nothing;
                Some(last)
            }
            Waiting::Nothing => match self.component {
                [byte, rest @ ..] => {
                    let (next, waiting) = written(*byte);
                    self.waiting = waiting;
                    self.component = rest;
                    Some(next)
                }
                [] => {
                    let [component, others @ ..] = self.others else {
                        return None;
                    };
                    self.waiting = Waiting::One(b'_');
                    self.component = component.as_slice();
                    self.others = others;
                    Some(b'_')
                }
            },
        }
    }
}

/// The first byte of the text of a byte, and what waits behind it.
fn written(byte: u8) -> (u8, Waiting)
    ensures { (rest : List ℕ) → mangled_before (byte ∷ []) rest ≡ result.0 ∷ waiting_text result.1 ++ rest }
{
    if byte.is_ascii_alphanumeric() {
        (byte, Waiting::Nothing)
    } else {
        (b'_', Waiting::Two(digit(byte / 16), digit(byte % 16)))
    }
}

/// The lower-case hexadecimal digit of a number below 16.
fn digit(number: u8) -> u8
    requires { number < 16 }
    ensures { result ≡ hex_digit number }
{
    if number < 10 {
        number + b'0'
    } else {
        number - 10 + b'a'
    }
}

/// The components of the name that has this mangled text, or none where no name has it.
pub(crate) fn components_of(alloc: Global, text: &[u8]) -> Result<Option<Vec<Vec<u8>>>, Memory>
    ensures inverse { IfOk result (λ found. MatchOption found (HasNoName text.now)
        (λ components. mangled (map (λ component. component.items) components.items) ≡ text.now)) }
    ensures name { IfOk result (λ found. IfSome found (λ components. IsName (map (λ component. component.items) components.items))) }
{
    let mut components = Vec::new(alloc);
    let mut rest = text;
    loop {
        let (component, after) = component_of(alloc, rest)?;
        components.push(component)?;
        match what_follows(after) {
            Behind::End => return Ok(Some(components)),
            Behind::Boundary(next) => rest = next,
            Behind::Fault => return Ok(None),
        }
    }
}

/// What stands behind a component in a text.
enum Behind<'a> {
    /// The text ends.
    End,
    /// A boundary, with this text behind it.
    Boundary(&'a [u8]),
    /// Something else.
    Fault,
}

fn what_follows(text: &[u8]) -> Behind<'_>
    ensures { IsBehind text.now result }
{
    match text {
        [] => Behind::End,
        [b'_', b'_', next @ ..] => Behind::Boundary(next),
        _ => Behind::Fault,
    }
}

/// The bytes that the front of a text writes, and the text behind them, which no byte begins.
fn component_of(alloc: Global, text: &[u8]) -> Result<(Vec<u8>, &[u8]), Memory>
    ensures read { IfOk result (λ r. text.now ≡ mangled_before r.0.items r.1.now) }
    ensures bytes { IfOk result (λ r. AreBytes r.0.items) }
    ensures stops { IfOk result (λ r. IsByteless r.1.now) }
    ensures rest { IfOk result (λ r. length r.1.now ≤ length text.now) }
{
    let mut bytes = Vec::new(alloc);
    let mut rest = text;
    while let Some((byte, after)) = byte_of(rest) {
        bytes.push(byte)?;
        rest = after;
    }
    Ok((bytes, rest))
}

/// The byte that the front of a text writes, and the text behind it.
fn byte_of(text: &[u8]) -> Option<(u8, &[u8])>
    ensures read { IfSome result (λ r. text.now ≡ mangled_before (r.0 ∷ []) r.1.now) }
    ensures byte { IfSome result (λ r. r.0 < 256) }
    ensures shorter { IfSome result (λ r. length r.1.now < length text.now) }
    ensures none { IfNone result (IsByteless text.now) }
{
    match text {
        [b'_', high, low, rest @ ..] => Some((escaped_byte(*high, *low)?, rest)),
        [byte, rest @ ..] if byte.is_ascii_alphanumeric() => Some((*byte, rest)),
        _ => None,
    }
}

/// The byte that is written by these two digits.
fn escaped_byte(high: u8, low: u8) -> Option<u8>
    ensures some { IfSome result (λ byte. IsEscaped byte high low) }
    ensures none { IfNone result ((b : ℕ) → b < 256 → IsEscaped b high low → ⊥) }
{
    let byte = digit_value(high)? * 16 + digit_value(low)?;
    if byte.is_ascii_alphanumeric() {
        return None;
    }
    Some(byte)
}

/// The number below 16 of which this is the lower-case hexadecimal digit.
fn digit_value(digit: u8) -> Option<u8>
    ensures some { IfSome result (λ number. (number < 16) × (hex_digit number ≡ digit)) }
    ensures none { IfNone result ((number : ℕ) → number < 16 → hex_digit number ≡ digit → ⊥) }
{
    match digit {
        b'0'..=b'9' => Some(digit - b'0'),
        b'a'..=b'f' => Some(digit - b'a' + 10),
        _ => None,
    }
}
