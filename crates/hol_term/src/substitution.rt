//! The call that puts types and then terms for the variables of a term, with its walk, which comes once to each part.
ghost use Rattle.std.specs.Prelude.{◌≡◌, ◌⊎◌, ◌<◌, ◌↔◌, [], ◌∷◌, length, IfOk, IfErr, IfSome, OnOk, OnErr, IsTrue};
ghost use Rattle.hol_spec.specs.Limits.{TermWithin};
ghost use Rattle.hol_spec.specs.Substitution.{substitute};
ghost use Rattle.hol_spec.specs.Terms.{Term as ATerm, IsTerm, free as free_tree, constant as constant_tree};
ghost use Rattle.hol_spec.specs.TermSubstitution.{sub};
ghost use Rattle.hol_type.specs.Tables as type;
ghost use Rattle.hol_term.specs.declared.TermId.{TermId as AnId};
ghost use Rattle.hol_term.specs.declared.substitution.Turn.TheVariants as the_turn;
ghost use Rattle.tree_map.specs.Noted.{IsNoted};
ghost use Rattle.hol_term.specs.Keys.{id_exact};
ghost use Rattle.hol_term.specs.Substituting.{IsSubstituting, steps};
ghost use Rattle.hol_term.specs.Walks.{NotEmpty};
ghost use Rattle.hol_term.specs.Substitutions.{term_pairs_at, AreTermPairs, ArePairsFitting, RefusesSubst, AreKnownPairs, image_of, IsItsImage};
ghost use Rattle.hol_term.specs.PutIndexes.{IsIndexOf};
ghost use Rattle.hol_term.specs.Tables.{Trees, term_at, type_at, Holds, IsDistinct, IsTermAt, Keeps};

use crate::node::Node;
use crate::pairs::{FEW, PutIndex, Putting};
use crate::{TermId, TermTable, TermView, Variable};
use common::{Fault, Kind, Memory, Stack};
use hol_name::Name;
use hol_type::TypeId;
use std::alloc::Global;
use tree_map::Key;

impl Key for TermId {
    ghost exact = { id_exact };
}

/// What a substitution has made already of each term.
type Images = tree_map::Memo<TermId, TermId>;

/// What a substitution is still to do.
#[derive(Clone, Copy)]
pub(crate) enum Turn {
    /// To make what stands for this term.
    Visit(TermId),
    /// To apply the tree made second to last to the one made last, and to note this for the term.
    Apply(TermId),
    /// To abstract over the tree made last, by a variable of this type, and to note this for the term.
    Abstract(TermId, TypeId),
}

/// A substitution on its way: what it is still to do, the trees that are made and not yet taken up, and what was made of each term.
#[derive(Drop)]
struct Substituting {
    tasks: Stack<Turn>,
    made: Stack<TermId>,
    images: Images,
}

impl Substituting {
    // A substitution that has nothing to do. It takes no memory.
    fn new(alloc: Global) -> Self
        ensures tasks { result.tasks ≡ [] }
        ensures made { result.made ≡ [] }
        ensures images { (id r : AnId) → IsNoted result.images id r → ⊥ }
    {
        Substituting {
            tasks: Stack::new(alloc),
            made: Stack::new(alloc),
            images: Images::new(alloc),
        }
    }

    // Keeps what is made of a term.
    fn keep(&mut self, id: TermId, made: TermId) -> Result<(), Memory>
        ensures tasks { self.new.tasks ≡ self.old.tasks }
        ensures made { OnOk result (self.new.made ≡ made ∷ self.old.made) }
        ensures noted { OnOk result ((i r : AnId) → IsNoted self.new.images i r → IsNoted self.old.images i r ⊎ ((i ≡ id) × (r ≡ made))) }
    {
        self.images.note(id, made)?;
        self.made.push(made)
    }

    // Sets out to make what stands for the parts of an application, and then to come back to it.
    fn set_out(&mut self, id: TermId, function: TermId, argument: TermId) -> Result<(), Memory>
        ensures tasks { OnOk result (self.new.tasks ≡ the_turn.Visit function ∷ the_turn.Visit argument ∷ the_turn.Apply id ∷ self.old.tasks) }
        ensures made { self.new.made ≡ self.old.made }
        ensures images { self.new.images ≡ self.old.images }
    {
        self.tasks.push(Turn::Apply(id))?;
        self.tasks.push(Turn::Visit(argument))?;
        self.tasks.push(Turn::Visit(function))
    }

    // Sets out to make what stands for the body of an abstraction, and then to come back to it.
    fn set_out_to(&mut self, id: TermId, ty: TypeId, body: TermId) -> Result<(), Memory>
        ensures tasks { OnOk result (self.new.tasks ≡ the_turn.Visit body ∷ the_turn.Abstract id ty ∷ self.old.tasks) }
        ensures made { self.new.made ≡ self.old.made }
        ensures images { self.new.images ≡ self.old.images }
    {
        self.tasks.push(Turn::Abstract(id, ty))?;
        self.tasks.push(Turn::Visit(body))
    }

    // Takes up the tree that was made last.
    fn take(&mut self) -> TermId
        requires { NotEmpty self.old.made }
        ensures made { self.old.made ≡ result ∷ self.new.made }
        ensures tasks { self.new.tasks ≡ self.old.tasks }
        ensures images { self.new.images ≡ self.old.images }
    {
        self.made.pop().unwrap()
    }
}

impl TermTable {
    /// The term with types put for type variables and then terms for free variables, each list all at once; of pairs
    /// with one key the first counts. A variable of `term_pairs` is looked up by its name and its type after the types
    /// are put. It is refused with `BadSubst` where some pair's variable and term differ in type, whether or not the
    /// pair counts; else where the result passes the limit of size, and else where it passes that of depth. (Source:
    /// HOL Light's kernel, INST_TYPE and INST; the OpenTheory article format, `subst`.)
    pub fn subst(
        &mut self,
        type_pairs: &[(Name, TypeId)],
        term_pairs: &[(Variable, TermId)],
        id: TermId,
    ) -> Result<TermId, Fault>
        requires type_pairs { type.ArePairsKnown self.old.types type_pairs.now }
        requires term_pairs { AreTermPairs self.old term_pairs.now }
        requires id { IsTermAt self.old id.0 }
        ensures known { IfOk result (λ r. r.0 < length self.new.terms) }
        ensures made { IfOk result (λ r. Holds self.new r.0
            (sub (type.pairs_at self.old.types type_pairs.now) (term_pairs_at self.old term_pairs.now) (term_at self.old id.0))) }
        ensures fits { OnOk result (ArePairsFitting self.old term_pairs.now) }
        ensures typed { IfOk result (λ r. IsTerm (sub (type.pairs_at self.old.types type_pairs.now) (term_pairs_at self.old term_pairs.now) (term_at self.old id.0))) }
        ensures within { IfOk result (λ r. TermWithin
            (sub (type.pairs_at self.old.types type_pairs.now) (term_pairs_at self.old term_pairs.now) (term_at self.old id.0))) }
        ensures keeps { Keeps self.old self.new }
        ensures distinct { IsDistinct self.new.terms }
        ensures refusal { IfErr result (λ fault. RefusesSubst fault (ArePairsFitting self.old term_pairs.now)
            (sub (type.pairs_at self.old.types type_pairs.now) (term_pairs_at self.old term_pairs.now) (term_at self.old id.0))) }
        ensures unchanged { OnErr result (self.new ≡ self.old) }
    {
        let mark = self.mark();
        if !self.fits(term_pairs) {
            return Err(Fault::Refused(Kind::BadSubst));
        }
        let made = self.raw_subst(type_pairs, term_pairs, id);
        self.settle(mark, made)
    }

    /// Whether each pair's term has its variable's type.
    pub fn fits(&self, pairs: &[(Variable, TermId)]) -> bool
        requires { AreTermPairs self.now pairs.now }
        ensures { IsTrue result ↔ ArePairsFitting self.now pairs.now }
    {
        for (variable, id) in pairs {
            if self.type_of(*id) != variable.ty {
                return false;
            }
        }
        true
    }

    /// What the pairs make of a tree, whatever its size and depth.
    pub fn raw_subst(
        &mut self,
        type_pairs: &[(Name, TypeId)],
        term_pairs: &[(Variable, TermId)],
        id: TermId,
    ) -> Result<TermId, Memory>
        requires pairs { AreKnownPairs self.old type_pairs.now term_pairs.now }
        requires id { id.0 < length self.old.terms }
        ensures known { IfOk result (λ r. r.0 < length self.new.terms) }
        ensures made { IfOk result (λ r. Holds self.new r.0 (image_of self.old type_pairs.now term_pairs.now (term_at self.old id.0))) }
        ensures keeps { Keeps self.old self.new }
    {
        let index = PutIndex::new(self.alloc, term_pairs)?;
        let made = self.image(type_pairs, term_pairs, &index, id);
        drop(index);
        made
    }

    /// What pairs, with their index, make of a tree, whatever its size and depth.
    pub fn image(
        &mut self,
        type_pairs: &[(Name, TypeId)],
        term_pairs: &[(Variable, TermId)],
        index: &PutIndex,
        id: TermId,
    ) -> Result<TermId, Memory>
        requires pairs { AreKnownPairs self.old type_pairs.now term_pairs.now }
        requires index { IsIndexOf index.now term_pairs.now }
        requires id { id.0 < length self.old.terms }
        ensures known { IfOk result (λ r. r.0 < length self.new.terms) }
        ensures made { IfOk result (λ r. Holds self.new r.0 (image_of self.old type_pairs.now term_pairs.now (term_at self.old id.0))) }
        ensures keeps { Keeps self.old self.new }
    {
        let putting = Putting {
            types: type_pairs,
            terms: term_pairs,
            index,
        };
        if self.is_left(&putting, id) {
            return Ok(id);
        }
        self.image_by_parts(&putting, id)
    }

    // What is made of a tree, part by part.
    fn image_by_parts(&mut self, putting: &Putting<'_>, id: TermId) -> Result<TermId, Memory>
        requires pairs { AreKnownPairs self.old putting.now.types.now putting.now.terms.now }
        requires index { IsIndexOf putting.now.index.now putting.now.terms.now }
        requires id { id.0 < length self.old.terms }
        ensures known { IfOk result (λ r. r.0 < length self.new.terms) }
        ensures made { IfOk result (λ r. Holds self.new r.0 (image_of self.old putting.now.types.now putting.now.terms.now (term_at self.old id.0))) }
        ensures keeps { Keeps self.old self.new }
    {
        let mut walk = Substituting::new(self.alloc);
        walk.tasks.push(Turn::Visit(id))?;
        while let Some(task) = walk.tasks.pop() {
            self.substitution_turn(putting, task, &mut walk)?;
        }
        Ok(walk.take())
    }

    // Whether it is told that what is put leaves a tree alone: by the masks, or where the pairs are few by the numbers of
    // their variables.
    fn is_left(&self, putting: &Putting<'_>, id: TermId) -> bool
        requires pairs { AreKnownPairs self.now putting.now.types.now putting.now.terms.now }
        requires index { IsIndexOf putting.now.index.now putting.now.terms.now }
        requires id { id.0 < length self.now.terms }
        ensures { IsTrue result → IsItsImage self.now putting.now.types.now putting.now.terms.now id }
    {
        if self.is_its_image(putting, id) {
            return true;
        }
        if putting.terms.len() > FEW {
            return false;
        }
        if !putting.types.is_empty() {
            return false;
        }
        self.are_absent(putting.terms, id)
    }

    // Whether the masks tell that what is put leaves a tree alone. With types to put they do not.
    fn is_its_image(&self, putting: &Putting<'_>, id: TermId) -> bool
        requires index { IsIndexOf putting.now.index.now putting.now.terms.now }
        requires id { id.0 < length self.now.terms }
        ensures { IsTrue result → IsItsImage self.now putting.now.types.now putting.now.terms.now id }
    {
        if !putting.types.is_empty() {
            return false;
        }
        self.measures_of(id).mask & putting.index.mask == 0
    }

    // What is made of a tree, if what is put leaves it alone or it is made already.
    fn image_found(&self, putting: &Putting<'_>, images: &Images, id: TermId) -> Option<TermId>
        requires index { IsIndexOf putting.now.index.now putting.now.terms.now }
        requires id { id.0 < length self.now.terms }
        ensures { IfSome result (λ r. ((r ≡ id) × IsItsImage self.now putting.now.types.now putting.now.terms.now id) ⊎ IsNoted images.now id r) }
    {
        if self.is_its_image(putting, id) {
            return Some(id);
        }
        images.find(id)
    }

    // One turn of a substitution.
    fn substitution_turn(
        &mut self,
        putting: &Putting<'_>,
        task: Turn,
        walk: &mut Substituting,
    ) -> Result<(), Memory>
        requires index { IsIndexOf putting.now.index.now putting.now.terms.now }
        requires walk { (from : Trees) × (root : ATerm)
            × IsSubstituting from root self.old putting.now.types.now putting.now.terms.now (task ∷ walk.old.tasks) walk.old.made walk.old.images }
        ensures keeps { Keeps self.old self.new }
        ensures walk { OnOk result ((from : Trees) (root : ATerm)
            → IsSubstituting from root self.old putting.now.types.now putting.now.terms.now (task ∷ walk.old.tasks) walk.old.made walk.old.images
            → IsSubstituting from root self.new putting.now.types.now putting.now.terms.now walk.new.tasks walk.new.made walk.new.images) }
        ensures less { OnOk result ((from : Trees) (root : ATerm)
            → IsSubstituting from root self.old putting.now.types.now putting.now.terms.now (task ∷ walk.old.tasks) walk.old.made walk.old.images
            → steps from walk.new.tasks < steps from (task ∷ walk.old.tasks)) }
    {
        match task {
            Turn::Visit(id) => self.visit_image(putting, id, walk),
            Turn::Apply(id) => self.apply_images(putting, id, walk),
            Turn::Abstract(id, ty) => self.abstract_image(putting, id, ty, walk),
        }
    }

    // Finds what is made of a term already, or sets out to make it.
    fn visit_image(
        &mut self,
        putting: &Putting<'_>,
        id: TermId,
        walk: &mut Substituting,
    ) -> Result<(), Memory>
        requires index { IsIndexOf putting.now.index.now putting.now.terms.now }
        requires walk { (from : Trees) × (root : ATerm)
            × IsSubstituting from root self.old putting.now.types.now putting.now.terms.now (the_turn.Visit id ∷ walk.old.tasks) walk.old.made walk.old.images }
        ensures keeps { Keeps self.old self.new }
        ensures walk { OnOk result ((from : Trees) (root : ATerm)
            → IsSubstituting from root self.old putting.now.types.now putting.now.terms.now (the_turn.Visit id ∷ walk.old.tasks) walk.old.made walk.old.images
            → IsSubstituting from root self.new putting.now.types.now putting.now.terms.now walk.new.tasks walk.new.made walk.new.images) }
        ensures less { OnOk result ((from : Trees) (root : ATerm)
            → IsSubstituting from root self.old putting.now.types.now putting.now.terms.now (the_turn.Visit id ∷ walk.old.tasks) walk.old.made walk.old.images
            → steps from walk.new.tasks < steps from (the_turn.Visit id ∷ walk.old.tasks)) }
    {
        match self.image_found(putting, &walk.images, id) {
            Some(made) => walk.made.push(made),
            None => self.visit_image_anew(putting, id, walk),
        }
    }

    // Makes what stands for a leaf, or sets out to make what stands for the parts of a term.
    fn visit_image_anew(
        &mut self,
        putting: &Putting<'_>,
        id: TermId,
        walk: &mut Substituting,
    ) -> Result<(), Memory>
        requires index { IsIndexOf putting.now.index.now putting.now.terms.now }
        requires walk { (from : Trees) × (root : ATerm)
            × IsSubstituting from root self.old putting.now.types.now putting.now.terms.now (the_turn.Visit id ∷ walk.old.tasks) walk.old.made walk.old.images }
        ensures keeps { Keeps self.old self.new }
        ensures walk { OnOk result ((from : Trees) (root : ATerm)
            → IsSubstituting from root self.old putting.now.types.now putting.now.terms.now (the_turn.Visit id ∷ walk.old.tasks) walk.old.made walk.old.images
            → IsSubstituting from root self.new putting.now.types.now putting.now.terms.now walk.new.tasks walk.new.made walk.new.images) }
        ensures less { OnOk result ((from : Trees) (root : ATerm)
            → IsSubstituting from root self.old putting.now.types.now putting.now.terms.now (the_turn.Visit id ∷ walk.old.tasks) walk.old.made walk.old.images
            → steps from walk.new.tasks < steps from (the_turn.Visit id ∷ walk.old.tasks)) }
    {
        match self.view(id) {
            TermView::Free(name, ty) => {
                let name = name.clone()?;
                let made = self.free_image(putting, name, ty)?;
                walk.keep(id, made)
            }
            TermView::Bound(_) => walk.keep(id, id),
            TermView::Const(name, ty) => {
                let name = name.clone()?;
                let made = self.constant_image(putting.types, name, ty)?;
                walk.keep(id, made)
            }
            TermView::App(f, x) => walk.set_out(id, f, x),
            TermView::Lam(ty, body) => {
                let binder = self.type_image(putting.types, ty)?;
                walk.set_out_to(id, binder, body)
            }
        }
    }

    // Makes an application of what was made of its parts.
    fn apply_images(
        &mut self,
        putting: &Putting<'_>,
        id: TermId,
        walk: &mut Substituting,
    ) -> Result<(), Memory>
        requires { (from : Trees) × (root : ATerm)
            × IsSubstituting from root self.old putting.now.types.now putting.now.terms.now (the_turn.Apply id ∷ walk.old.tasks) walk.old.made walk.old.images }
        ensures keeps { Keeps self.old self.new }
        ensures walk { OnOk result ((from : Trees) (root : ATerm)
            → IsSubstituting from root self.old putting.now.types.now putting.now.terms.now (the_turn.Apply id ∷ walk.old.tasks) walk.old.made walk.old.images
            → IsSubstituting from root self.new putting.now.types.now putting.now.terms.now walk.new.tasks walk.new.made walk.new.images) }
        ensures less { OnOk result ((from : Trees) (root : ATerm)
            → IsSubstituting from root self.old putting.now.types.now putting.now.terms.now (the_turn.Apply id ∷ walk.old.tasks) walk.old.made walk.old.images
            → steps from walk.new.tasks < steps from (the_turn.Apply id ∷ walk.old.tasks)) }
    {
        let argument = walk.take();
        let function = walk.take();
        let made = self.add(Node::App(function, argument))?;
        walk.keep(id, made)
    }

    // Makes an abstraction of what was made of its body.
    fn abstract_image(
        &mut self,
        putting: &Putting<'_>,
        id: TermId,
        ty: TypeId,
        walk: &mut Substituting,
    ) -> Result<(), Memory>
        requires { (from : Trees) × (root : ATerm)
            × IsSubstituting from root self.old putting.now.types.now putting.now.terms.now
            (the_turn.Abstract id ty ∷ walk.old.tasks) walk.old.made walk.old.images }
        ensures keeps { Keeps self.old self.new }
        ensures walk { OnOk result ((from : Trees) (root : ATerm)
            → IsSubstituting from root self.old putting.now.types.now putting.now.terms.now
            (the_turn.Abstract id ty ∷ walk.old.tasks) walk.old.made walk.old.images
            → IsSubstituting from root self.new putting.now.types.now putting.now.terms.now walk.new.tasks walk.new.made walk.new.images) }
        ensures less { OnOk result ((from : Trees) (root : ATerm)
            → IsSubstituting from root self.old putting.now.types.now putting.now.terms.now
            (the_turn.Abstract id ty ∷ walk.old.tasks) walk.old.made walk.old.images
            → steps from walk.new.tasks < steps from (the_turn.Abstract id ty ∷ walk.old.tasks)) }
    {
        let body = walk.take();
        let made = self.add(Node::Lam(ty, body))?;
        walk.keep(id, made)
    }

    // What the pairs make of a free variable: what the first pair of its name and its new type gives, if there is one.
    fn free_image(
        &mut self,
        putting: &Putting<'_>,
        name: Name,
        ty: TypeId,
    ) -> Result<TermId, Memory>
        requires pairs { AreKnownPairs self.old putting.now.types.now putting.now.terms.now }
        requires index { IsIndexOf putting.now.index.now putting.now.terms.now }
        requires ty { ty.0 < length self.old.types }
        ensures known { IfOk result (λ r. r.0 < length self.new.terms) }
        ensures made { IfOk result (λ r. Holds self.new r.0 (image_of self.old putting.now.types.now putting.now.terms.now (free_tree name (type_at self.old ty.0)))) }
        ensures keeps { Keeps self.old self.new }
    {
        let put = self.type_image(putting.types, ty)?;
        let variable = Variable { name, ty: put };
        match putting.find(&variable) {
            Some(id) => {
                drop(variable);
                Ok(id)
            }
            None => self.add(Node::Free(variable.name, put)),
        }
    }

    // What the pairs make of a constant.
    fn constant_image(
        &mut self,
        type_pairs: &[(Name, TypeId)],
        name: Name,
        ty: TypeId,
    ) -> Result<TermId, Memory>
        requires pairs { type.ArePairsKnown self.old.types type_pairs.now }
        requires ty { ty.0 < length self.old.types }
        ensures known { IfOk result (λ r. r.0 < length self.new.terms) }
        ensures made { IfOk result (λ r. Holds self.new r.0 (constant_tree name (substitute (type.pairs_at self.old.types type_pairs.now) (type_at self.old ty.0)))) }
        ensures keeps { Keeps self.old self.new }
    {
        let put = self.type_image(type_pairs, ty)?;
        self.add(Node::Const(name, put))
    }

    // What the pairs make of a type. No term is made.
    fn type_image(&mut self, pairs: &[(Name, TypeId)], ty: TypeId) -> Result<TypeId, Memory>
        requires pairs { type.ArePairsKnown self.old.types pairs.now }
        requires ty { ty.0 < length self.old.types }
        ensures known { IfOk result (λ r. r.0 < length self.new.types) }
        ensures made { IfOk result (λ r. type_at self.new r.0 ≡ substitute (type.pairs_at self.old.types pairs.now) (type_at self.old ty.0)) }
        ensures one_each { type.IsDistinct self.new.types }
        ensures terms { self.new.terms ≡ self.old.terms }
        ensures keeps { Keeps self.old self.new }
    {
        self.types.raw_subst(pairs, ty)
    }
}
