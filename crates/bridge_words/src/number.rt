//! The number that a word says.
ghost use Rattle.std.specs.Prelude.{◌≡◌, min, Some};
ghost use Rattle.std.specs.Option.{option_map};
ghost use Rattle.article_spec.specs.Numbers.{digits_value};
ghost use Rattle.bridge_spec.specs.Forms as forms;

/// Above each number that a word may say.
const ABOVE: u128 = 18446744073709551616;

/// The number from 1 to the most that a word says: its digits, without a zero before them.
pub fn number_up_to(most: u64, word: &[u8]) -> Option<u64>
    ensures { result ≡ forms.number_up_to most word.now }
{
    match word {
        [] => None,
        [b'0', ..] => None,
        _ => match capped_value(word) {
            Some(value) => up_to(most, value),
            None => None,
        },
    }
}

/// A number that is no more than the most.
fn up_to(most: u64, value: u128) -> Option<u64>
    ensures { result ≡ forms.up_to most (Some value) }
{
    if value <= u128::from(most) {
        Some(value as u64)
    } else {
        None
    }
}

/// The value of a text of one or more digits, or `ABOVE` where that is less.
fn capped_value(text: &[u8]) -> Option<u128>
    ensures { result ≡ option_map (λ value. min value ABOVE) (digits_value text.now) }
{
    if text.is_empty() {
        return None;
    }
    let mut value = 0;
    for byte in text {
        if !byte.is_ascii_digit() {
            return None;
        }
        value = (value * 10 + u128::from(*byte - b'0')).min(ABOVE);
    }
    Some(value)
}
