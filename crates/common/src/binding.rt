//! Tables of trees with numbers for bound variables.
ghost use Rattle.std.specs.Prelude.{◌≡◌, ℕ, suc, ◌+◌, List, IfOk, OnErr};
ghost use Rattle.common.specs.Binding.{puts, Pairwise};

/// A table of trees in which a variable is the number of binders between it and its own, and a variable that
/// passes all binders of its tree is loose.
///
/// A call that fails leaves the table as before. A loose variable whose number would not fit its type is want of
/// memory.
pub trait Binding {
    /// The number of a tree.
    type Id: Copy;
    /// Why a call fails.
    type Fault;

    // What a number stands for.
    ghost Tree: { Type 0 };
    // The table has this tree under the number.
    ghost holds: { Self → Self.Id → Self.Tree → Type 0 };
    // The tree whose loose variables rise by so many.
    ghost lifted: { ℕ → Self.Tree → Self.Tree };
    // The second tree, as a part under so many binders, with the first put for the innermost variable outside them.
    ghost put_under: { ℕ → Self.Tree → Self.Tree → Self.Tree };
    // The tree with the list's trees put for its innermost loose variables at once, the last for the innermost.
    ghost put_list: { List Self.Tree → Self.Tree → Self.Tree };

    /// The tree with its loose variables raised by `k`.
    fn lift(&mut self, k: u128, id: Self::Id) -> Result<Self::Id, Self::Fault>
        requires known { (t : Self.Tree) × Self.holds self.old id t }
        ensures made { IfOk result (λ r. (t : Self.Tree) → Self.holds self.old id t → Self.holds self.new r (Self.lifted k t)) }
        ensures keeps { (i : Self.Id) (t : Self.Tree) → Self.holds self.old i t → Self.holds self.new i t }
        ensures unchanged { OnErr result (self.new ≡ self.old) };

    /// The body of a binder with `arg` put for its variable.
    fn put(&mut self, arg: Self::Id, body: Self::Id) -> Result<Self::Id, Self::Fault>
        requires arg { (a : Self.Tree) × Self.holds self.old arg a }
        requires body { (t : Self.Tree) × Self.holds self.old body t }
        ensures made { IfOk result (λ r. (a t : Self.Tree) → Self.holds self.old arg a → Self.holds self.old body t → Self.holds self.new r (Self.put_under 0 a t)) }
        ensures keeps { (i : Self.Id) (t : Self.Tree) → Self.holds self.old i t → Self.holds self.new i t }
        ensures unchanged { OnErr result (self.new ≡ self.old) };

    /// The body of as many binders as there are arguments, with each argument put for its variable. They stand in
    /// the order of an application: the last is put for the innermost.
    fn put_all(&mut self, args: &[Self::Id], body: Self::Id) -> Result<Self::Id, Self::Fault>
        requires args { (us : List Self.Tree) × Pairwise (Self.holds self.old) args.now us }
        requires body { (t : Self.Tree) × Self.holds self.old body t }
        ensures made { IfOk result (λ r. (us : List Self.Tree) (t : Self.Tree) → Pairwise (Self.holds self.old) args.now us → Self.holds self.old body t
            → Self.holds self.new r (Self.put_list us t)) }
        ensures keeps { (i : Self.Id) (t : Self.Tree) → Self.holds self.old i t → Self.holds self.new i t }
        ensures unchanged { OnErr result (self.new ≡ self.old) };

    // To lift twice is to lift by the sum.
    ghost lift_twice: { (j k : ℕ) (t : Self.Tree) → Self.lifted j (Self.lifted k t) ≡ Self.lifted (j + k) t };
    // What is put into a lifted tree finds no variable.
    ghost put_into_lifted: { (a t : Self.Tree) → Self.put_under 0 a (Self.lifted 1 t) ≡ t };
    // To put into what a put made is to put into both before.
    ghost put_into_put: { (d : ℕ) (a b t : Self.Tree) → Self.put_under d b (Self.put_under 0 a t) ≡ Self.put_under 0 (Self.put_under d b a) (Self.put_under (suc d) b t) };
    // To put a list is to put its trees one after another.
    ghost put_list_puts: { (us : List Self.Tree) (t : Self.Tree) → Self.put_list us t ≡ puts Self.lifted (Self.put_under 0) 0 us t };
    // A number has one tree.
    ghost one_tree: { (table : Self) (i : Self.Id) (t u : Self.Tree) → Self.holds table i t → Self.holds table i u → t ≡ u };
}
