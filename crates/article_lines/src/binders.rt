//! The numbers in the names of binders.
ghost use Rattle.std.specs.Prelude.{◌≡◌, ◌<◌, ◌≤◌, ◌^◌, ◌↔◌, ℕ, true, Some, IfSome, IfNone, IsTrue, length};
ghost use Rattle.std.specs.Fmt.{decimal};
ghost use Rattle.article_spec.specs.Numbers.{decimal as decimal_value};
ghost use Rattle.article_write_spec.specs.BinderNames.{are_digits as are_digits_of, is_binder_name};
ghost use Rattle.article_lines.specs.Numbered.{IsNumbered, IsConfirmed, IsFirst, HasNone};

use hol_name::Name;
use itoa::Buffer;

/// The number q of a name `_<q>_` and digits, of one component.
pub fn binder_number(name: &Name) -> Option<u64>
    ensures { (q : ℕ) → q < 2 ^ 64 → ((result ≡ Some q) ↔ (is_binder_name q name.now ≡ true)) }
{
    if name.len() != 1 {
        return None;
    }
    let text = name.component(0).strip_prefix(b"_")?;
    number_in(text)
}

// The number q of a text `<q>_` and digits.
fn number_in(text: &[u8]) -> Option<u64>
    ensures { (q : ℕ) → q < 2 ^ 64 → ((result ≡ Some q) ↔ IsNumbered q text.now) }
{
    let end = underscore(text)?;
    let value = value_of(&text[..end])?;
    confirmed(value, &text[..end], &text[end + 1..])
}

// The number, where its digits are these and behind them stand digits.
fn confirmed(value: u64, digits: &[u8], behind: &[u8]) -> Option<u64>
    ensures sound { (q : ℕ) → result ≡ Some q → IsConfirmed value digits.now behind.now q }
    ensures complete { (q : ℕ) → IsConfirmed value digits.now behind.now q → result ≡ Some q }
{
    if is_decimal(value, digits) && are_digits(behind) {
        Some(value)
    } else {
        None
    }
}

// Whether these are the digits of a number.
fn is_decimal(value: u64, digits: &[u8]) -> bool
    ensures { IsTrue result ↔ (digits.now ≡ decimal value) }
{
    let mut buffer = Buffer::new();
    buffer.format(value).as_bytes() == digits
}

// The first place of an underscore.
fn underscore(text: &[u8]) -> Option<usize>
    ensures first { IfSome result (IsFirst text.now) }
    ensures below { IfSome result (λ place. place < length text.now) }
    ensures none { IfNone result (HasNone text.now) }
{
    for place in 0..text.len() {
        if text[place] == b'_' {
            return Some(place);
        }
    }
    None
}

// Whether these are digits, and there is one.
fn are_digits(text: &[u8]) -> bool
    ensures { result ≡ are_digits_of text.now }
{
    for byte in text {
        if *byte < b'0' || b'9' < *byte {
            return false;
        }
    }
    !text.is_empty()
}

// The value of digits, where it is that of a u64.
fn value_of(digits: &[u8]) -> Option<u64>
    ensures value { IfSome result (λ value. value ≡ decimal_value digits.now) }
    ensures large { IfNone result (2 ^ 64 ≤ decimal_value digits.now) }
{
    let mut value: u128 = 0;
    for byte in digits {
        value = value
            .saturating_mul(10)
            .saturating_add(u128::from(byte.saturating_sub(48)));
    }
    u64::try_from(value).ok()
}
