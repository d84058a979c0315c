//! Names and numbers in the text of a closed sequent.
ghost use Rattle.std.specs.Prelude.{◌≡◌, ◌++◌, decimal, OnOk};
ghost use Rattle.hol_spec.specs.Mangling.{mangled};
ghost use Rattle.decode_spec.specs.ClosedText.{name_text};
ghost use Rattle.hol_text.specs.Works.{mark_at};

use common::Memory;
use hol_name::Name;
use itoa::Buffer;

// Adds a name: mangled, but that of equality as it is.
pub(crate) fn add_name(text: &mut Vec<u8>, name: &Name) -> Result<(), Memory>
    ensures { OnOk result (text.new.items ≡ text.old.items ++ name_text name.now) }
{
    if name.is_single(b"=") {
        text.extend_from_slice(b"=")?;
        return Ok(());
    }
    add_mangled(text, name)
}

// Adds the mangled text of a name.
fn add_mangled(text: &mut Vec<u8>, name: &Name) -> Result<(), Memory>
    ensures { OnOk result (text.new.items ≡ text.old.items ++ mangled name.now) }
{
    for byte in name.mangled() {
        text.push(byte)?;
    }
    Ok(())
}

// Adds a number after some bytes.
pub(crate) fn add_numbered(text: &mut Vec<u8>, front: &[u8], number: u128) -> Result<(), Memory>
    ensures { OnOk result (text.new.items ≡ text.old.items ++ (front.now ++ decimal number)) }
{
    let mut buffer = Buffer::new();
    text.extend_from_slice(front)?;
    text.extend_from_slice(buffer.format(number).as_bytes())?;
    Ok(())
}

// Adds what stands before the item at a place of a list: nothing before the first.
pub(crate) fn add_mark(text: &mut Vec<u8>, place: usize, mark: &[u8]) -> Result<(), Memory>
    ensures { OnOk result (text.new.items ≡ text.old.items ++ mark_at place mark.now) }
{
    if place == 0 {
        return Ok(());
    }
    text.extend_from_slice(mark)?;
    Ok(())
}
