//! Short names: `X` and a decimal number without leading zeros.
ghost use Rattle.std.specs.Prelude.{◌≡◌};
ghost use Rattle.std.specs.List.{list_all};
ghost use Rattle.lp_spec.specs.Numerals.{is_decimal_digit, is_numeral};
ghost use Rattle.lp_spec.specs.ShortNames.{is_short_name};

/// Whether a name is short: `X` and a decimal number without leading zeros.
pub(crate) fn is_short(name: &[u8]) -> bool
    ensures { result ≡ is_short_name name.now }
{
    match name {
        [b'X', digits @ ..] => is_number(digits),
        _ => false,
    }
}

// Whether a text is a decimal number without leading zeros.
fn is_number(text: &[u8]) -> bool
    ensures { result ≡ is_numeral text.now }
{
    match text {
        [] => false,
        [digit] => digit.is_ascii_digit(),
        [first, _, ..] => *first != b'0' && are_digits(text),
    }
}

// Whether a text has digits alone.
fn are_digits(text: &[u8]) -> bool
    ensures { result ≡ list_all is_decimal_digit text.now }
{
    text.iter().all(|byte| byte.is_ascii_digit())
}
