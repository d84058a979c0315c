//! What follows the part of a tree that is being written, and the path that owns it.
ghost use Rattle.std.specs.Prelude.{◌≡◌, ◌<◌, ◌≤◌, ◌^◌, [], ◌∷◌, length, MatchOption, IfNone, IfOk, IfSome};
ghost use Rattle.holide_sig.specs.Modules.{IsHeld, IsKnown};
ghost use Rattle.dk_write.specs.Shallow.{AreTold, AreWithin, IsTold};

use crate::gathered::Gathered;
use common::Memory;
use holide_sig::{Decl, Module};
use lp_term::LpId;
use std::alloc::Global;
use std::marker::Model;

/// A tree under so many binders.
#[derive(Clone, Copy)]
pub(crate) struct Place {
    pub(crate) id: LpId,
    pub(crate) depth: u64,
}

/// What follows a part of a tree.
#[derive(Clone, Copy)]
pub(crate) enum Frame {
    /// The parenthesis that ends it.
    Close,
    /// The argument, after a function that may end in a parenthesis.
    Argument(Place, bool),
    /// The body of an abstraction, after a domain that may end in a parenthesis.
    Abstracted(Place, bool),
    /// The body of a product, after a domain that may end in a parenthesis.
    Produced(Place, bool),
}

/// What follows the part of a tree that is being written, the next on top.
#[derive(Drop)]
pub(crate) struct Frames {
    frames: Vec<Frame>,
    len: usize,
}

impl Model for Frames {
    ghost use Rattle.std.specs.Prelude.{length, reverse, take, ◌≤◌};
    ghost use Rattle.dk_write.specs.Open.{Open};

    ghost Value = { Open };

    ghost view = { λ p. record { room = length p.frames.items; frames = reverse (take p.len p.frames.items) } };

    ghost invariant = { λ p. p.len ≤ length p.frames.items };
}

impl Frames {
    // No frame, with room for every tree of a module.
    fn new(alloc: Global, source: &Module) -> Result<Frames, Memory>
        requires held { IsHeld source.now }
        ensures room { IfOk result (λ frames. AreWithin frames.room source.now.table source.now.decls) }
    {
        let room = greatest_depth(source) as usize;
        let frames = vec![in alloc; Frame::Close; room]?;
        Ok(Frames { frames, len: 0 })
    }

    // Leaves nothing open.
    pub(crate) fn clear(&mut self)
        ensures frames { self.new.frames ≡ [] }
        ensures room { self.new.room ≡ self.old.room }
        ensures small { self.new.room < 2 ^ 64 }
    {
        let _room = self.frames.len();
        self.len = 0;
    }

    pub(crate) fn push(&mut self, frame: Frame)
        requires { length self.old.frames < self.old.room }
        ensures frames { self.new.frames ≡ frame ∷ self.old.frames }
        ensures room { self.new.room ≡ self.old.room }
    {
        self.frames[self.len] = frame;
        self.len += 1;
    }

    pub(crate) fn pop(&mut self) -> Option<Frame>
        ensures popped { MatchOption result (self.old.frames ≡ []) (λ frame. self.old.frames ≡ frame ∷ self.new.frames) }
        ensures still_empty { IfNone result (self.new.frames ≡ []) }
        ensures room { self.new.room ≡ self.old.room }
        ensures left { IfSome result (λ _. length self.new.frames < self.new.room) }
    {
        if self.len == 0 {
            return None;
        }
        self.len -= 1;
        Some(self.frames[self.len])
    }
}

/// What follows the part of a tree that is being written, and the text that a sink is to get. It has room for as many frames as a module's trees
/// are deep.
#[derive(Drop)]
pub struct Path {
    pub(crate) frames: Frames,
    pub(crate) gathered: Gathered,
}

impl Model for Path {
    ghost use Rattle.dk_write.specs.Open.{Open};

    ghost Value = { Open };

    ghost view = { λ p. p.frames };
}

impl Path {
    /// A path with room for every tree of a module.
    pub fn new(alloc: Global, source: &Module) -> Result<Path, Memory>
        requires held { IsHeld source.now }
        ensures room { IfOk result (λ path. AreWithin path.room source.now.table source.now.decls) }
    {
        let frames = Frames::new(alloc, source)?;
        Ok(Path {
            frames,
            gathered: Gathered::new(),
        })
    }
}

// The depth of the deepest tree of a module, as its table tells it.
fn greatest_depth(source: &Module) -> u64
    requires held { IsHeld source.now }
    ensures { AreTold result source.now.table source.now.decls }
{
    let mut greatest = 0;
    for i in 0..source.decls.len() {
        greatest = deeper(source, source.decls.get(i), greatest);
    }
    greatest
}

// The greatest of this depth and those of a declaration's trees.
fn deeper(source: &Module, decl: &Decl, greatest: u64) -> u64
    requires known { IsKnown source.now.table decl.now }
    ensures own { IsTold result source.now.table decl.now }
    ensures more { greatest ≤ result }
{
    let ty = greatest.max(source.table.depth(decl.ty));
    match decl.body {
        Some(id) => ty.max(source.table.depth(id)),
        None => ty,
    }
}
