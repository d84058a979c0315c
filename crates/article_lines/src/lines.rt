//! The lines of an article: a number, a name or a word each.
ghost use Rattle.std.specs.Prelude.{◌≡◌, pos, [], ◌∷◌, ◌++◌, length};
ghost use Rattle.article_spec.specs.declared.commands.Item.TheVariants as item;
ghost use Rattle.article_spec.specs.Lines.{newline};
ghost use Rattle.article_write_spec.specs.ItemTexts.{is_escaped as is_escaped_byte, component_text, text_of, word_text};
ghost use Rattle.article_write_spec.specs.BinderNames.{binder_name};
ghost use Rattle.article_lines.specs.Writing.{Writes, line, byte_text, behind_text, pieces_text, rest_text};

use article_spec::Word;
use bridge_base::{Failed, Sink, write_all};
use hol_name::Name;
use itoa::Buffer;

// Writes a piece.
fn put<S: Sink>(piece: &[u8], sink: &mut S) -> Result<(), Failed>
    ensures { Writes (S.got sink.old) (S.faults sink.old) piece.now (S.got sink.new) (S.faults sink.new) result }
{
    write_all(sink, piece)
}

// Writes these pieces, one after another.
fn put_all<S: Sink>(pieces: &[&[u8]], sink: &mut S) -> Result<(), Failed>
    ensures { Writes (S.got sink.old) (S.faults sink.old) (pieces_text pieces.now) (S.got sink.new) (S.faults sink.new) result }
{
    for piece in pieces {
        put(piece, sink)?;
    }
    Ok(())
}

/// Writes the line of a number.
pub fn write_number<S: Sink>(number: u64, sink: &mut S) -> Result<(), Failed>
    ensures { Writes (S.got sink.old) (S.faults sink.old) (line (item.Number (pos number))) (S.got sink.new) (S.faults sink.new) result }
{
    let mut buffer = Buffer::new();
    put(buffer.format(number).as_bytes(), sink)?;
    put(b"\n", sink)
}

/// Writes the line of a word.
pub fn write_word<S: Sink>(word: Word, sink: &mut S) -> Result<(), Failed>
    ensures { Writes (S.got sink.old) (S.faults sink.old) (line (item.Word word)) (S.got sink.new) (S.faults sink.new) result }
{
    put(word_line(word), sink)
}

/// Writes the lines of a key and of a word that it is for.
pub fn write_key<S: Sink>(key: u64, word: Word, sink: &mut S) -> Result<(), Failed>
    ensures { Writes (S.got sink.old) (S.faults sink.old) (text_of (item.Number (pos key) ∷ item.Word word ∷ [])) (S.got sink.new) (S.faults sink.new) result }
{
    write_number(key, sink)?;
    write_word(word, sink)
}

/// Writes the line of a binder's name, of the number of this article and under so many binders.
pub fn write_binder<S: Sink>(number: u64, depth: usize, sink: &mut S) -> Result<(), Failed>
    ensures { Writes (S.got sink.old) (S.faults sink.old) (line (item.Name (binder_name number depth))) (S.got sink.new) (S.faults sink.new) result }
{
    let mut one = Buffer::new();
    let first = one.format(number).as_bytes();
    let mut two = Buffer::new();
    let second = two.format(depth).as_bytes();
    put_all(&[b"\"_", first, b"_", second, b"\"\n"], sink)
}

/// Writes the line of a name: a quote, a backslash and a dot within a component are escaped, and nothing else.
pub fn write_name<S: Sink>(name: &Name, sink: &mut S) -> Result<(), Failed>
    ensures { Writes (S.got sink.old) (S.faults sink.old) (line (item.Name name.now)) (S.got sink.new) (S.faults sink.new) result }
{
    put(b"\"", sink)?;
    let count = name.len();
    write_component(name.component(0), sink)?;
    write_rest(name, count, sink)?;
    put(b"\"\n", sink)
}

// Writes the components behind the first.
fn write_rest<S: Sink>(name: &Name, count: usize, sink: &mut S) -> Result<(), Failed>
    requires { count ≡ length name.now }
    ensures { Writes (S.got sink.old) (S.faults sink.old) (rest_text name.now) (S.got sink.new) (S.faults sink.new) result }
{
    for index in 1..count {
        write_behind(name.component(index), sink)?;
    }
    Ok(())
}

// Writes a component with the dot before it.
fn write_behind<S: Sink>(component: &[u8], sink: &mut S) -> Result<(), Failed>
    ensures { Writes (S.got sink.old) (S.faults sink.old) (behind_text component.now) (S.got sink.new) (S.faults sink.new) result }
{
    put(b".", sink)?;
    write_component(component, sink)
}

// Writes a component.
fn write_component<S: Sink>(component: &[u8], sink: &mut S) -> Result<(), Failed>
    ensures { Writes (S.got sink.old) (S.faults sink.old) (component_text component.now) (S.got sink.new) (S.faults sink.new) result }
{
    for byte in component {
        write_byte(*byte, sink)?;
    }
    Ok(())
}

// Writes a byte of a component.
fn write_byte<S: Sink>(byte: u8, sink: &mut S) -> Result<(), Failed>
    ensures { Writes (S.got sink.old) (S.faults sink.old) (byte_text byte) (S.got sink.new) (S.faults sink.new) result }
{
    if is_escaped(byte) {
        put(&[b'\\', byte], sink)
    } else {
        put(&[byte], sink)
    }
}

// Whether a byte would end the name or the component, or make the next byte plain.
pub fn is_escaped(byte: u8) -> bool
    ensures { result ≡ is_escaped_byte byte }
{
    byte == b'"' || byte == b'.' || byte == b'\\'
}

// The line of a word.
pub fn word_line(word: Word) -> &'static [u8]
    ensures { result.now ≡ word_text word ++ newline ∷ [] }
{
    match word {
        Word::Version => b"version\n",
        Word::Nil => b"nil\n",
        Word::Cons => b"cons\n",
        Word::HdTl => b"hdTl\n",
        Word::TypeOp => b"typeOp\n",
        Word::VarType => b"varType\n",
        Word::OpType => b"opType\n",
        Word::Const => b"const\n",
        Word::ConstTerm => b"constTerm\n",
        Word::Var => b"var\n",
        Word::VarTerm => b"varTerm\n",
        Word::AppTerm => b"appTerm\n",
        Word::AbsTerm => b"absTerm\n",
        Word::Def => b"def\n",
        Word::Ref => b"ref\n",
        Word::Remove => b"remove\n",
        Word::Pop => b"pop\n",
        Word::Pragma => b"pragma\n",
        Word::Refl => b"refl\n",
        Word::Assume => b"assume\n",
        Word::EqMp => b"eqMp\n",
        Word::AbsThm => b"absThm\n",
        Word::AppThm => b"appThm\n",
        Word::DeductAntisym => b"deductAntisym\n",
        Word::BetaConv => b"betaConv\n",
        Word::Sym => b"sym\n",
        Word::Trans => b"trans\n",
        Word::ProveHyp => b"proveHyp\n",
        Word::Subst => b"subst\n",
        Word::DefineConst => b"defineConst\n",
        Word::DefineConstList => b"defineConstList\n",
        Word::DefineTypeOp => b"defineTypeOp\n",
        Word::Axiom => b"axiom\n",
        Word::Thm => b"thm\n",
    }
}
