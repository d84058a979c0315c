//! How long lines are, with their ends.
ghost use Rattle.std.specs.Prelude.{◌≡◌, ◌<◌, ◌^◌, length};
ghost use Rattle.std.specs.Fmt.{decimal};
ghost use Rattle.article_write_spec.specs.BinderNames.{binder_name};
ghost use Rattle.article_write_spec.specs.ItemTexts.{component_text};
ghost use Rattle.article_write_spec.specs.Lengths.{name_length as name_length_of, word_length as word_length_of, told_length as told_length_of, capped};
ghost use Rattle.article_write_spec.specs.ArticleLength.{list_length as list_length_of};
ghost use Rattle.article_lines.specs.Writing.{byte_text};
ghost use Rattle.article_lines.specs.Greatest.{greatest_length};

use crate::lines::{is_escaped, word_line};
use article_spec::Word;
use hol_name::Name;
use itoa::Buffer;

/// The length of the line of a word.
pub fn word_length(word: Word) -> u128
    ensures { result ≡ word_length_of word }
{
    word_line(word).len() as u128
}

/// The length of a key with `ref` or `def`.
pub fn told_length(key: u64) -> u128
    ensures { result ≡ told_length_of key }
{
    let mut buffer = Buffer::new();
    buffer.format(key).len() as u128 + 5
}

/// The length of what stands behind the elements of a list of so many.
pub fn list_length(count: usize) -> u128
    ensures { result ≡ list_length_of count }
{
    word_length(Word::Nil) + count as u128 * word_length(Word::Cons)
}

/// The length of the line of a name, up to the greatest number.
pub fn name_length(name: &Name) -> u128
    ensures { result ≡ capped greatest_length (name_length_of name.now) }
{
    let count = name.len();
    let mut length = component_length(name.component(0));
    for index in 1..count {
        length = length
            .saturating_add(component_length(name.component(index)))
            .saturating_add(1);
    }
    length.saturating_add(3)
}

/// The length of the line of the name of a binder under so many others.
pub fn binder_name_length(number: u64, depth: u64) -> u128
    ensures { result ≡ name_length_of (binder_name number depth) }
{
    digits(number) + digits(depth) + 5
}

// How many digits a number has.
fn digits(number: u64) -> u128
    ensures is { result ≡ length (decimal number) }
    ensures small { result < 2 ^ 64 }
{
    let mut buffer = Buffer::new();
    buffer.format(number).len() as u128
}

// The length of a component.
fn component_length(component: &[u8]) -> u128
    ensures { result ≡ capped greatest_length (length (component_text component.now)) }
{
    let mut length: u128 = 0;
    for byte in component {
        length = length.saturating_add(byte_length(*byte));
    }
    length
}

// The length of a byte of a component.
fn byte_length(byte: u8) -> u128
    ensures { result ≡ length (byte_text byte) }
{
    if is_escaped(byte) { 2 } else { 1 }
}
