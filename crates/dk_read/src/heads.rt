//! What stands at the head of a piece of a text.
ghost use Rattle.std.specs.Prelude.{◌≡◌, ℕ, List, ◌≤◌, ◌∷◌, not, ◌==◌, length, IfSome};
ghost use Rattle.lp_spec.specs.Tokens as tokens;
ghost use Rattle.dk_read.specs.Texts.{run, Signs};

use crate::terms::Token;

/// The sign at the head of a piece, with how many bytes it has. None where the piece ends before it is known, and where none
/// stands there.
pub(crate) fn sign_of(piece: &[u8]) -> Option<(Token, usize)>
    ensures signs { IfSome result (λ s. Signs piece.now s.1 s.0) }
{
    if piece.len() < 2 {
        return None;
    }
    sign_by(piece[0], piece[1])
}

// The sign that begins by these two bytes, with how many bytes it has, if it is known by them.
fn sign_by(first: u8, second: u8) -> Option<(Token, usize)>
    ensures signs { IfSome result (λ s. (more : List ℕ) → Signs (first ∷ second ∷ more) s.1 s.0) }
{
    match first {
        b'(' => {
            if second == b';' {
                None
            } else {
                Some((Token::LeftParen, 1))
            }
        }
        b')' => Some((Token::RightParen, 1)),
        b':' => {
            if second == b'=' {
                Some((Token::Assign, 2))
            } else {
                Some((Token::Colon, 1))
            }
        }
        b'-' => {
            if second == b'>' {
                Some((Token::Arrow, 2))
            } else {
                None
            }
        }
        b'=' => {
            if second == b'>' {
                Some((Token::FatArrow, 2))
            } else {
                None
            }
        }
        b'.' => Some((Token::Dot, 1)),
        _ => None,
    }
}

/// How many bytes of a word stand at the head.
pub(crate) fn word_len(bytes: &[u8]) -> usize
    ensures run { result ≡ run tokens.is_word_byte bytes.now }
    ensures within { result ≤ length bytes.now }
{
    let mut count = 0;
    let mut rest = bytes;
    while let [byte, more @ ..] = rest {
        if !is_word_byte(*byte) {
            return count;
        }
        rest = more;
        count += 1;
    }
    count
}

/// How many blanks stand at the head.
pub(crate) fn blank_len(bytes: &[u8]) -> usize
    ensures run { result ≡ run tokens.is_space bytes.now }
    ensures within { result ≤ length bytes.now }
{
    let mut count = 0;
    let mut rest = bytes;
    while let [byte, more @ ..] = rest {
        if !is_space(*byte) {
            return count;
        }
        rest = more;
        count += 1;
    }
    count
}

/// How many bytes stand before the first `;`.
pub(crate) fn comment_len(bytes: &[u8]) -> usize
    ensures run { result ≡ run (λ b. not (b == 59)) bytes.now }
    ensures within { result ≤ length bytes.now }
{
    let mut count = 0;
    let mut rest = bytes;
    while let [byte, more @ ..] = rest {
        if *byte == 59 {
            return count;
        }
        rest = more;
        count += 1;
    }
    count
}

/// A letter.
pub(crate) fn is_letter(byte: u8) -> bool
    ensures { result ≡ tokens.is_letter byte }
{
    match byte {
        b'a'..=b'z' | b'A'..=b'Z' => true,
        _ => false,
    }
}

// Which bytes are a letter, a digit or `_`.
const WORD_BYTES: [bool; 256] = [
    false, false, false, false, false, false, false, false, false, false, false, false, false,
    false, false, false, false, false, false, false, false, false, false, false, false, false,
    false, false, false, false, false, false, false, false, false, false, false, false, false,
    false, false, false, false, false, false, false, false, false, true, true, true, true, true,
    true, true, true, true, true, false, false, false, false, false, false, false, true, true,
    true, true, true, true, true, true, true, true, true, true, true, true, true, true, true, true,
    true, true, true, true, true, true, true, true, false, false, false, false, true, false, true,
    true, true, true, true, true, true, true, true, true, true, true, true, true, true, true, true,
    true, true, true, true, true, true, true, true, true, false, false, false, false, false, false,
    false, false, false, false, false, false, false, false, false, false, false, false, false,
    false, false, false, false, false, false, false, false, false, false, false, false, false,
    false, false, false, false, false, false, false, false, false, false, false, false, false,
    false, false, false, false, false, false, false, false, false, false, false, false, false,
    false, false, false, false, false, false, false, false, false, false, false, false, false,
    false, false, false, false, false, false, false, false, false, false, false, false, false,
    false, false, false, false, false, false, false, false, false, false, false, false, false,
    false, false, false, false, false, false, false, false, false, false, false, false, false,
    false, false, false, false, false, false, false, false, false, false, false, false, false,
    false, false, false, false, false, false, false, false, false, false,
];

/// A letter, a digit or `_`.
pub(crate) fn is_word_byte(byte: u8) -> bool
    ensures { result ≡ tokens.is_word_byte byte }
{
    WORD_BYTES[byte as usize]
}

/// A blank, a tab, a line feed or a carriage return.
pub(crate) fn is_space(byte: u8) -> bool
    ensures { result ≡ tokens.is_space byte }
{
    match byte {
        b' ' | b'\n' | b'\t' | b'\r' => true,
        _ => false,
    }
}
