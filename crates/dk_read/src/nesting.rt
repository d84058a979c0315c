//! What is open in a term, and what ends it.
ghost use Rattle.std.specs.Prelude.{◌≡◌, ◌<◌, [], ◌∷◌, length, IfOk, IfSome, IfNone, OnOk, IfErr};
ghost use Rattle.lp_spec.specs.ReadingFaults as reading;
ghost use Rattle.lp_term.specs.Tables.{Keeps};
ghost use Rattle.dk_read.specs.declared.faults.Stop.TheVariants as stop;
ghost use Rattle.dk_read.specs.Names.{name_at};
ghost use Rattle.dk_read.specs.States.{tree_of, whole_of, head_of, frames_of, scope_of, declared, IsSound, IsReady, IsIdKnown, Becomes, before, tree_in, frame_in, IsFrameKnown, IsBinderKnown, IsUnwound, bound_frame, Binds, IsPlain, Unwinds, NoDomain, NoEnclosing};

use crate::faults::Stop;
use crate::parser::Parser;
use crate::terms::{Binder, Frame, Meaning, State};
use common::Memory;
use lp_term::{LpId, LpNode};

impl Parser {
    /// Opens one more frame, of no binder whose domain has been read.
    pub(crate) fn open(&mut self, frame: Frame) -> Result<(), Stop>
        requires sound { IsSound self.old }
        requires known { IsFrameKnown self.old.module.table self.old.names (declared self.old) (scope_of self.old) frame }
        requires plain { IsPlain frame }
        ensures same { (self.new.module ≡ self.old.module) × (self.new.names ≡ self.old.names) × (self.new.head ≡ self.old.head) }
        ensures frames { OnOk result (frames_of self.new ≡ frame_in self.old.module.table self.old.names frame ∷ frames_of self.old) }
        ensures sound { OnOk result (IsSound self.new) }
        ensures memory { IfErr result (λ e. e ≡ stop.Memory) }
    {
        match self.frames.push(frame) {
            Ok(()) => Ok(()),
            Err(_) => Err(Stop::Memory),
        }
    }

    // Opens the body of a binder, whose name means it there.
    fn bind(&mut self, binder: Binder, name: usize) -> Result<(), Stop>
        requires sound { IsSound self.old }
        requires known { name < length self.old.names }
        requires binder { IsBinderKnown self.old.module.table binder }
        ensures module { self.new.module ≡ self.old.module }
        ensures head { head_of self.new ≡ head_of self.old }
        ensures frames { OnOk result (frames_of self.new ≡ bound_frame self.old.module.table binder (name_at self.old.names name) ∷ frames_of self.old) }
        ensures sound { OnOk result (IsSound self.new) }
        ensures memory { IfErr result (λ e. e ≡ stop.Memory) }
    {
        let hidden = self.names.put(name, Meaning::Binder(self.binders));
        let _few = self.frames.len();
        self.binders += 1;
        match binder {
            Binder::Product(domain) => {
                match self.frames.push(Frame::Product(name, domain, hidden)) {
                    Ok(()) => Ok(()),
                    Err(_) => Err(Stop::Memory),
                }
            }
            Binder::Abstraction(domain) => {
                match self.frames.push(Frame::Abstraction(name, domain, hidden)) {
                    Ok(()) => Ok(()),
                    Err(_) => Err(Stop::Memory),
                }
            }
        }
    }

    // The binder of the term that has been read, if that is its body. Its name means again what it did outside.
    fn last_binder(&mut self) -> Option<Binder>
        requires sound { IsSound self.old }
        ensures module { self.new.module ≡ self.old.module }
        ensures head { head_of self.new ≡ head_of self.old }
        ensures sound { IsSound self.new }
        ensures binds { IfSome result (λ b. Binds (frames_of self.old) self.old.module.table b (frames_of self.new)) }
        ensures known { IfSome result (λ b. IsBinderKnown self.old.module.table b) }
        ensures none { IfNone result ((self.new ≡ self.old) × IsUnwound (frames_of self.old)) }
        ensures shorter { IfSome result (λ b. length self.new.frames.items < length self.old.frames.items) }
    {
        match self.frames.last() {
            Some(Frame::Product(name, domain, hidden)) => {
                let (name, domain, hidden) = (*name, *domain, *hidden);
                self.frames.pop();
                self.names.put(name, hidden);
                self.binders = self.binders.saturating_sub(1);
                Some(Binder::Product(domain))
            }
            Some(Frame::Abstraction(name, domain, hidden)) => {
                let (name, domain, hidden) = (*name, *domain, *hidden);
                self.frames.pop();
                self.names.put(name, hidden);
                self.binders = self.binders.saturating_sub(1);
                Some(Binder::Abstraction(domain))
            }
            _ => None,
        }
    }

    // The term whose body has been read, with the binders that end with it.
    fn unwind(&mut self, body: LpId) -> Result<LpId, Stop>
        requires sound { IsSound self.old }
        requires body { body.0 < length self.old.module.table }
        ensures known { IfOk result (λ id. id.0 < length self.new.module.table) }
        ensures keeps { IfOk result (λ id. Keeps self.old.module.table self.new.module.table) }
        ensures unwinds { IfOk result (λ id. Unwinds (frames_of self.old) (tree_of self.old body) (frames_of self.new) (tree_of self.new id)) }
        ensures same { IfOk result (λ id. (before self.new ≡ before self.old) × (head_of self.new ≡ head_of self.old) × IsSound self.new) }
        ensures memory { IfErr result (λ e. e ≡ stop.Memory) }
    {
        let mut tree = body;
        while let Some(binder) = self.last_binder() {
            let node = match binder {
                Binder::Product(domain) => LpNode::Pi(domain, tree),
                Binder::Abstraction(domain) => LpNode::Lam(domain, tree),
            };
            tree = self.node(node)?;
        }
        Ok(tree)
    }

    /// An application that is the domain of a binder.
    pub(crate) fn arrow(&mut self, domain: LpId) -> Result<(), Stop>
        requires sound { IsSound self.old }
        requires domain { domain.0 < length self.old.module.table }
        ensures becomes { Becomes (reading.arrow (before self.old) (head_of self.old) (frames_of self.old) (tree_of self.old domain)) self.new result }
        ensures ready { OnOk result (IsReady self.new) }
        ensures keeps { OnOk result (Keeps self.old.module.table self.new.module.table) }
    {
        let name = match self.last_domain() {
            Some(name) => name,
            None => self.nameless,
        };
        self.bind(Binder::Product(domain), name)?;
        self.state = State::AtTerm;
        Ok(())
    }

    /// An application that is the domain of an abstraction, if it has a binder.
    pub(crate) fn fat_arrow(&mut self, domain: LpId, place: u64) -> Result<(), Stop>
        requires sound { IsSound self.old }
        requires domain { domain.0 < length self.old.module.table }
        ensures becomes { Becomes (reading.fat_arrow (before self.old) (head_of self.old) (frames_of self.old) (tree_of self.old domain) place) self.new result }
        ensures ready { OnOk result (IsReady self.new) }
        ensures keeps { OnOk result (Keeps self.old.module.table self.new.module.table) }
    {
        match self.last_domain() {
            Some(name) => {
                self.bind(Binder::Abstraction(domain), name)?;
                self.state = State::AtTerm;
                Ok(())
            }
            None => Err(Stop::BadText(place)),
        }
    }

    // The name of the binder whose domain has been read, if that is one's.
    fn last_domain(&mut self) -> Option<usize>
        requires sound { IsSound self.old }
        ensures same { (self.new.module ≡ self.old.module) × (self.new.names ≡ self.old.names) × (self.new.head ≡ self.old.head) }
        ensures sound { IsSound self.new }
        ensures binds { IfSome result (λ n. frames_of self.old ≡ reading.Domain (name_at self.old.names n) ∷ frames_of self.new) }
        ensures known { IfSome result (λ n. n < length self.old.names) }
        ensures none { IfNone result ((self.new ≡ self.old) × NoDomain (frames_of self.old)) }
    {
        match self.frames.last() {
            Some(Frame::Domain(name)) => {
                let name = *name;
                self.frames.pop();
                Some(name)
            }
            _ => None,
        }
    }

    // What is applied to the term in the parentheses that end here, if any do.
    fn last_enclosing(&mut self) -> Option<Option<LpId>>
        requires sound { IsSound self.old }
        ensures same { (self.new.module ≡ self.old.module) × (self.new.names ≡ self.old.names) × (self.new.head ≡ self.old.head) }
        ensures sound { IsSound self.new }
        ensures binds { IfSome result (λ f. frames_of self.old ≡ reading.Enclosing (tree_in self.old.module.table f) ∷ frames_of self.new) }
        ensures known { IfSome result (λ f. IsIdKnown self.old.module.table f) }
        ensures none { IfNone result ((self.new ≡ self.old) × NoEnclosing (frames_of self.old)) }
    {
        match self.frames.last() {
            Some(Frame::Enclosing(function)) => {
                let function = *function;
                self.frames.pop();
                Some(function)
            }
            _ => None,
        }
    }

    /// A term that ends by a parenthesis.
    pub(crate) fn close(&mut self, body: LpId, place: u64) -> Result<(), Stop>
        requires sound { IsSound self.old }
        requires body { body.0 < length self.old.module.table }
        ensures becomes { Becomes (reading.encloses (before self.old) (head_of self.old) (frames_of self.old) (tree_of self.old body) place) self.new result }
        ensures ready { OnOk result (IsReady self.new) }
        ensures keeps { OnOk result (Keeps self.old.module.table self.new.module.table) }
    {
        let tree = self.unwind(body)?;
        match self.last_enclosing() {
            Some(function) => self.argue(function, tree),
            None => Err(Stop::BadText(place)),
        }
    }

    /// The whole type or body that ends here, unless a parenthesis or a domain is open.
    pub(crate) fn whole(&mut self, body: LpId) -> Result<Option<LpId>, Stop>
        requires sound { IsSound self.old }
        requires body { body.0 < length self.old.module.table }
        ensures is { IfOk result (λ o. whole_of self.old body ≡ tree_in self.new.module.table o) }
        ensures known { IfOk result (λ o. IsIdKnown self.new.module.table o) }
        ensures keeps { IfOk result (λ o. Keeps self.old.module.table self.new.module.table) }
        ensures closed { IfOk result (λ o. IfSome o (λ id. self.new.frames.items ≡ [])) }
        ensures same { IfOk result (λ o. (before self.new ≡ before self.old) × (head_of self.new ≡ head_of self.old) × IsSound self.new) }
        ensures memory { IfErr result (λ e. e ≡ stop.Memory) }
    {
        let tree = self.unwind(body)?;
        if self.frames.is_empty() {
            Ok(Some(tree))
        } else {
            Ok(None)
        }
    }
}
