//! Writing a tree, with what follows its parts in the place of a recursion.
ghost use Rattle.std.specs.Prelude.{◌≡◌, take, ◌+◌, ◌-◌, ◌<◌, ◌≤◌, ◌^◌, [], ◌∷◌, ◌++◌, length, codes, IfOk, OnOk, OnErr, if◌then◌else◌};
ghost use Rattle.bridge_base.specs.Outside.{GainsFront, HasCause};
ghost use Rattle.lp_spec.specs.Trees.{depth as depth_of};
ghost use Rattle.lp_spec.specs.Text.{binder_name};
ghost use Rattle.lp_spec.specs.Modules.{symbol_name as name_of};
ghost use Rattle.lp_term.specs.Tables.{tree_at};
ghost use Rattle.lp_spec.specs.ShortNames.{short};
ghost use Rattle.holide_sig.specs.Modules.{declarations_of, IsHeld};
ghost use Rattle.dk_write.specs.Nodes.{is_binder_node, is_word_node, IsWritten};
ghost use Rattle.dk_write.specs.Paths.{binder_text, root_text, GoesOn, IsSeen, IsTurn, AreFrames, IsFrame, left_text, work};
ghost use Rattle.dk_write.specs.Writing.{WritesTo};

use crate::gathered::Gathered;
use crate::path::{Frame, Frames, Place};
use bridge_base::{Failed, Sink};
use holide_sig::{Module, SIGNATURE};
use itoa::Buffer;
use lp_term::{LpId, LpNode};

/// A place with its tree's node as it is written: a tree for which a name is short is that symbol.
#[derive(Clone, Copy)]
pub(crate) struct Seen {
    pub(crate) place: Place,
    pub(crate) node: LpNode,
}

/// What is done next.
#[derive(Clone, Copy)]
pub(crate) enum Turn {
    /// The tree is written.
    Write(Seen),
    /// It is written, and what follows it comes next.
    Leave,
}

// Writes a tree that stands under no binder. Nothing follows it, before and after.
pub(crate) fn write_tree<S: Sink>(
    source: &Module,
    before: usize,
    id: LpId,
    frames: &mut Frames,
    gathered: &mut Gathered,
    sink: &mut S,
) -> Result<(), Failed>
    requires held { IsHeld source.now }
    requires before { before ≤ length source.now.decls }
    requires known { id.0 < length source.now.table }
    requires room { depth_of (tree_at source.now.table id.0) ≤ frames.old.room }
    requires small { frames.old.room < 2 ^ 64 }
    requires empty { frames.old.frames ≡ [] }
    ensures empty { OnOk result (frames.new.frames ≡ []) }
    ensures room { frames.new.room ≡ frames.old.room }
    ensures writes { WritesTo S.got S.faults sink.old gathered.old (root_text source.now before id) sink.new gathered.new result }
{
    let node = written_node(source, before, id);
    let place = Place { id, depth: 0 };
    let mut turn = Turn::Write(Seen { place, node });
    loop {
        turn = match turn {
            Turn::Write(seen) => write_seen(source, before, seen, frames, gathered, sink)?,
            Turn::Leave => match frames.pop() {
                Some(frame) => write_frame(source, before, frame, frames, gathered, sink)?,
                None => return Ok(()),
            },
        };
    }
}

// Writes the front of a tree as it is written, as far as its first part, or all of it where it has none.
fn write_seen<S: Sink>(
    source: &Module,
    before: usize,
    seen: Seen,
    frames: &mut Frames,
    gathered: &mut Gathered,
    sink: &mut S,
) -> Result<Turn, Failed>
    requires held { IsHeld source.now }
    requires before { before ≤ length source.now.decls }
    requires seen { IsSeen frames.old.room source.now before (length frames.old.frames) seen }
    requires frames { AreFrames frames.old.room source.now.table frames.old.frames }
    requires small { frames.old.room < 2 ^ 64 }
    ensures turn { IfOk result (IsTurn frames.new.room source.now before frames.new.frames) }
    ensures frames { IfOk result (λ _. AreFrames frames.new.room source.now.table frames.new.frames) }
    ensures room { frames.new.room ≡ frames.old.room }
    ensures less { IfOk result (λ turn. work source.now.table turn frames.new.frames < work source.now.table (Turn.Write seen) frames.old.frames) }
    ensures ok { IfOk result (GoesOn S.got source.now before sink.old gathered.old (Turn.Write seen) frames.old.frames sink.new gathered.new frames.new.frames) }
    ensures err { OnErr result (GainsFront (S.got sink.old) (gathered.old ++ left_text source.now before (Turn.Write seen) frames.old.frames) (S.got sink.new)) }
    ensures cause { HasCause (S.faults sink.old) (S.faults sink.new) result }
{
    let depth = seen.place.depth;
    match seen.node {
        LpNode::SortType => {
            gathered.write(b"Type", sink)?;
            Ok(Turn::Leave)
        }
        LpNode::SortKind => Ok(Turn::Leave),
        LpNode::Sym(symbol) => {
            gathered.write(symbol_name(source, symbol), sink)?;
            Ok(Turn::Leave)
        }
        LpNode::Var(number) => {
            let binder = u128::from(depth).saturating_sub(number).saturating_sub(1);
            write_name(binder, gathered, sink)?;
            Ok(Turn::Leave)
        }
        LpNode::App(function, argument) => {
            let node = written_node(source, before, function);
            let closes = is_binder(node);
            frames.push(Frame::Argument(
                Place {
                    id: argument,
                    depth,
                },
                closes,
            ));
            open_part(closes, gathered, sink)?;
            let place = Place {
                id: function,
                depth,
            };
            Ok(Turn::Write(Seen { place, node }))
        }
        LpNode::Lam(domain, body) => {
            let node = written_node(source, before, domain);
            let closes = is_binder(node);
            frames.push(Frame::Abstracted(
                Place {
                    id: body,
                    depth: depth + 1,
                },
                closes,
            ));
            write_binder(depth, closes, gathered, sink)?;
            let place = Place { id: domain, depth };
            Ok(Turn::Write(Seen { place, node }))
        }
        LpNode::Pi(domain, body) => {
            let node = written_node(source, before, domain);
            let closes = is_binder(node);
            frames.push(Frame::Produced(
                Place {
                    id: body,
                    depth: depth + 1,
                },
                closes,
            ));
            write_binder(depth, closes, gathered, sink)?;
            let place = Place { id: domain, depth };
            Ok(Turn::Write(Seen { place, node }))
        }
    }
}

// Writes the parenthesis before a part, where it needs one.
fn open_part<S: Sink>(wanted: bool, gathered: &mut Gathered, sink: &mut S) -> Result<(), Failed>
    ensures { WritesTo S.got S.faults sink.old gathered.old (if wanted then codes "(" else []) sink.new gathered.new result }
{
    if wanted {
        gathered.write(b"(", sink)
    } else {
        Ok(())
    }
}

// Writes the name of the binder under so many others.
fn write_name<S: Sink>(number: u128, gathered: &mut Gathered, sink: &mut S) -> Result<(), Failed>
    ensures { WritesTo S.got S.faults sink.old gathered.old (binder_name number) sink.new gathered.new result }
{
    if number < 10 {
        return gathered.write(&[b'v', b'0' + number as u8], sink);
    }
    let mut buffer = Buffer::new();
    gathered.write_words(&[b"v", buffer.format(number).as_bytes()], sink)
}

// Writes the name of a binder and what stands before its domain.
fn write_binder<S: Sink>(
    depth: u64,
    opens: bool,
    gathered: &mut Gathered,
    sink: &mut S,
) -> Result<(), Failed>
    ensures { WritesTo S.got S.faults sink.old gathered.old (binder_text depth opens) sink.new gathered.new result }
{
    write_name(depth as u128, gathered, sink)?;
    gathered.write(to_domain(opens), sink)
}

// Writes what stands between a part of a tree and the next.
fn write_frame<S: Sink>(
    source: &Module,
    before: usize,
    frame: Frame,
    frames: &mut Frames,
    gathered: &mut Gathered,
    sink: &mut S,
) -> Result<Turn, Failed>
    requires held { IsHeld source.now }
    requires before { before ≤ length source.now.decls }
    requires frame { IsFrame frames.old.room source.now.table (length frames.old.frames) frame }
    requires frames { AreFrames frames.old.room source.now.table frames.old.frames }
    requires small { frames.old.room < 2 ^ 64 }
    requires room { length frames.old.frames < frames.old.room }
    ensures turn { IfOk result (IsTurn frames.new.room source.now before frames.new.frames) }
    ensures frames { IfOk result (λ _. AreFrames frames.new.room source.now.table frames.new.frames) }
    ensures room { frames.new.room ≡ frames.old.room }
    ensures less { IfOk result (λ turn. work source.now.table turn frames.new.frames < work source.now.table Turn.Leave (frame ∷ frames.old.frames)) }
    ensures ok { IfOk result (GoesOn S.got source.now before sink.old gathered.old Turn.Leave (frame ∷ frames.old.frames) sink.new gathered.new frames.new.frames) }
    ensures err { OnErr result (GainsFront (S.got sink.old) (gathered.old ++ left_text source.now before Turn.Leave (frame ∷ frames.old.frames)) (S.got sink.new)) }
    ensures cause { HasCause (S.faults sink.old) (S.faults sink.new) result }
{
    match frame {
        Frame::Close => {
            gathered.write(b")", sink)?;
            Ok(Turn::Leave)
        }
        Frame::Argument(place, closes) => {
            let node = written_node(source, before, place.id);
            let opens = !is_word(node);
            gathered.write(between(closes, opens), sink)?;
            if opens {
                frames.push(Frame::Close);
            }
            Ok(Turn::Write(Seen { place, node }))
        }
        Frame::Abstracted(place, closes) => {
            gathered.write(to_body(closes), sink)?;
            let node = written_node(source, before, place.id);
            Ok(Turn::Write(Seen { place, node }))
        }
        Frame::Produced(place, closes) => {
            gathered.write(to_target(closes), sink)?;
            let node = written_node(source, before, place.id);
            Ok(Turn::Write(Seen { place, node }))
        }
    }
}

// The name of a symbol; no symbol but those that are declared has one.
fn symbol_name(source: &Module, symbol: usize) -> &[u8]
    ensures { result.now ≡ name_of (declarations_of source.now) symbol }
{
    if symbol < SIGNATURE + source.decls.len() {
        source.symbol_name(symbol)
    } else {
        b""
    }
}

// The name that is short for a tree, among those that are declared before, by its symbol.
fn short_name(source: &Module, before: usize, id: LpId) -> Option<usize>
    requires held { IsHeld source.now }
    requires before { before ≤ length source.now.decls }
    requires known { id.0 < length source.now.table }
    ensures { result ≡ short (take before (declarations_of source.now)) (tree_at source.now.table id.0) }
{
    let _count = source.decls.len();
    match source.short(id) {
        Some(symbol) => {
            if symbol < SIGNATURE + before {
                Some(symbol)
            } else {
                None
            }
        }
        None => None,
    }
}

// The node of a tree as it is written.
fn written_node(source: &Module, before: usize, id: LpId) -> LpNode
    requires held { IsHeld source.now }
    requires before { before ≤ length source.now.decls }
    requires known { id.0 < length source.now.table }
    ensures { IsWritten source.now before id result }
{
    match short_name(source, before, id) {
        Some(symbol) => LpNode::Sym(symbol),
        None => source.table.view(id),
    }
}

// Whether a node is that of an abstraction or a product.
fn is_binder(node: LpNode) -> bool
    ensures { result ≡ is_binder_node node }
{
    matches!(node, LpNode::Lam(_, _) | LpNode::Pi(_, _))
}

// Whether a node is written as a single word.
fn is_word(node: LpNode) -> bool
    ensures { result ≡ is_word_node node }
{
    !matches!(
        node,
        LpNode::App(_, _) | LpNode::Lam(_, _) | LpNode::Pi(_, _)
    )
}

// What stands between the name of a binder and its domain.
fn to_domain(opens: bool) -> &'static [u8]
    ensures { result.now ≡ codes " : " ++ (if opens then codes "(" else []) }
{
    if opens { b" : (" } else { b" : " }
}

// What stands between a function and its argument: the parenthesis that ends the one, and the one before the other.
fn between(closes: bool, opens: bool) -> &'static [u8]
    ensures { result.now ≡ (if closes then codes ")" else []) ++ (codes " " ++ (if opens then codes "(" else [])) }
{
    match (closes, opens) {
        (false, false) => b" ",
        (false, true) => b" (",
        (true, false) => b") ",
        (true, true) => b") (",
    }
}

// What stands between the domain of an abstraction and its body.
fn to_body(closes: bool) -> &'static [u8]
    ensures { result.now ≡ (if closes then codes ")" else []) ++ codes " => " }
{
    if closes { b") => " } else { b" => " }
}

// What stands between the domain of a product and its body.
fn to_target(closes: bool) -> &'static [u8]
    ensures { result.now ≡ (if closes then codes ")" else []) ++ codes " -> " }
{
    if closes { b") -> " } else { b" -> " }
}
