//! Numbers.

ghost use Rattle.std.specs.Prelude.{◌≡◌, Some, min, ℕ};
ghost use Rattle.std.specs.Option.{option_map};
ghost use Rattle.article_spec.specs.Numbers.{digits_value};
ghost use Rattle.article_spec.specs.Contents.{as_number, number_content};
ghost use Rattle.article_read.specs.Judged.{numeral_content};

/// What a text is as a number.
#[derive(Clone, Copy)]
pub enum Numeral {
    Number(i64),
    OutOfRange,
    Other,
}

// Above the magnitude of each number of 64 bits.
const ABOVE: u128 = 9223372036854775809;

/// The number that a text writes.
pub fn read_number(text: &[u8]) -> Numeral
    ensures { numeral_content result ≡ as_number text.now }
{
    match text {
        [b'-', digits @ ..] => match capped_value(digits) {
            Some(value) => in_range(-(value as i128)),
            None => Numeral::Other,
        },
        _ => match capped_value(text) {
            Some(value) => in_range(value as i128),
            None => Numeral::Other,
        },
    }
}

/// The value of a text of one or more digits, or `ABOVE` where that is less.
fn capped_value(text: &[u8]) -> Option<u128>
    ensures { result ≡ option_map (λ value. min value ABOVE) (digits_value text.now) }
{
    if text.is_empty() {
        return None;
    }
    let mut value = 0;
    for byte in text {
        if !byte.is_ascii_digit() {
            return None;
        }
        value = (value * 10 + u128::from(*byte - b'0')).min(ABOVE);
    }
    Some(value)
}

/// The number, if it has 64 bits.
fn in_range(number: i128) -> Numeral
    ensures { numeral_content result ≡ Some (number_content number) }
{
    match i64::try_from(number) {
        Ok(number) => Numeral::Number(number),
        Err(_) => Numeral::OutOfRange,
    }
}
