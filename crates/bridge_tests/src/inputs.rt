//! The articles and the module that are cut or changed. The commands of an article, each of which ends with a blank.

/// The article that proves and exports `p = p`.
pub(crate) const SMALLEST: &str =
    r#"6 version "p" "bool" typeOp nil opType 0 def var varTerm 1 def refl nil "=" const "->" typeOp 0 ref "->" typeOp 0 ref 0 ref nil cons cons opType nil cons cons opType constTerm 1 ref appTerm 1 ref appTerm thm "#;

/// The article that exports I = I under p and q, for the identity I of truth values.
pub(crate) const ONE: &str =
    r#"6 version "y" "bool" typeOp nil opType var "y" "bool" typeOp nil opType var varTerm absTerm refl "p" "bool" typeOp nil opType var varTerm "q" "bool" typeOp nil opType var varTerm nil cons cons "=" const "->" typeOp "->" typeOp "bool" typeOp nil opType "bool" typeOp nil opType nil cons cons opType "->" typeOp "->" typeOp "bool" typeOp nil opType "bool" typeOp nil opType nil cons cons opType "bool" typeOp nil opType nil cons cons opType nil cons cons opType constTerm "y" "bool" typeOp nil opType var "y" "bool" typeOp nil opType var varTerm absTerm appTerm "y" "bool" typeOp nil opType var "y" "bool" typeOp nil opType var varTerm absTerm appTerm thm "#;

/// The article that assumes I = I under q and p, and exports it under q, p and r.
pub(crate) const TWO: &str =
    r#"6 version "q" "bool" typeOp nil opType var varTerm "p" "bool" typeOp nil opType var varTerm nil cons cons "=" const "->" typeOp "->" typeOp "bool" typeOp nil opType "bool" typeOp nil opType nil cons cons opType "->" typeOp "->" typeOp "bool" typeOp nil opType "bool" typeOp nil opType nil cons cons opType "bool" typeOp nil opType nil cons cons opType nil cons cons opType constTerm "z" "bool" typeOp nil opType var "z" "bool" typeOp nil opType var varTerm absTerm appTerm "z" "bool" typeOp nil opType var "z" "bool" typeOp nil opType var varTerm absTerm appTerm axiom "q" "bool" typeOp nil opType var varTerm "p" "bool" typeOp nil opType var varTerm "r" "bool" typeOp nil opType var varTerm nil cons cons cons "=" const "->" typeOp "->" typeOp "bool" typeOp nil opType "bool" typeOp nil opType nil cons cons opType "->" typeOp "->" typeOp "bool" typeOp nil opType "bool" typeOp nil opType nil cons cons opType "bool" typeOp nil opType nil cons cons opType nil cons cons opType constTerm "z" "bool" typeOp nil opType var "z" "bool" typeOp nil opType var varTerm absTerm appTerm "z" "bool" typeOp nil opType var "z" "bool" typeOp nil opType var varTerm absTerm appTerm thm "#;

/// The module of the first article.
pub(crate) const MODULE: &str = r#"type : Type.
bool : type.
ind : type.
arr : type -> type -> type.
def term : type -> Type.
[a, b] term (arr a b) --> term a -> term b.
eq : a : type -> term (arr a (arr a bool)).
select : a : type -> term (arr (arr a bool) a).
proof : term bool -> Type.
refl : a : type -> x : term a -> proof (eq a x x).
fun_ext : a : type -> b : type -> f : term (arr a b) -> g : term (arr a b) -> (x : term a -> proof (eq b (f x) (g x))) -> proof (eq (arr a b) f g).
app_thm : a : type -> b : type -> f : term (arr a b) -> g : term (arr a b) -> x : term a -> y : term a -> proof (eq (arr a b) f g) -> proof (eq a x y) -> proof (eq b (f x) (g y)).
prop_ext : p : term bool -> q : term bool -> (proof p -> proof q) -> (proof q -> proof p) -> proof (eq bool p q).
eq_mp : p : term bool -> q : term bool -> proof (eq bool p q) -> proof p -> proof q.
sub : a : type -> p : term (arr a bool) -> w : term a -> proof (p w) -> type.
sub_abs : a : type -> p : term (arr a bool) -> w : term a -> h : proof (p w) -> term (arr a (sub a p w h)).
sub_rep : a : type -> p : term (arr a bool) -> w : term a -> h : proof (p w) -> term (arr (sub a p w h) a).
sub_abs_rep : a : type -> p : term (arr a bool) -> w : term a -> h : proof (p w) -> x : term (sub a p w h) -> proof (eq (sub a p w h) (sub_abs a p w h (sub_rep a p w h x)) x).
sub_rep_abs : a : type -> p : term (arr a bool) -> w : term a -> h : proof (p w) -> x : term a -> proof (eq bool (eq a (sub_rep a p w h (sub_abs a p w h x)) x) (p x)).
(; bound 10764582912 ;)
thm sym : v0 : type -> v1 : term v0 -> v2 : term v0 -> v3 : proof (eq v0 v1 v2) -> proof (eq v0 v2 v1) := v0 : type => v1 : term v0 => v2 : term v0 => v3 : proof (eq v0 v1 v2) => eq_mp (eq v0 v1 v1) (eq v0 v2 v1) (app_thm v0 bool (eq v0 v1) (eq v0 v2) v1 v1 (app_thm v0 (arr v0 bool) (eq v0) (eq v0) v1 v2 (refl (arr v0 (arr v0 bool)) (eq v0)) v3) (refl v0 v1)) (refl v0 v1).
(; bound 5451776000 ;)
thm trans : v0 : type -> v1 : term v0 -> v2 : term v0 -> v3 : term v0 -> v4 : proof (eq v0 v1 v2) -> v5 : proof (eq v0 v2 v3) -> proof (eq v0 v1 v3) := v0 : type => v1 : term v0 => v2 : term v0 => v3 : term v0 => v4 : proof (eq v0 v1 v2) => v5 : proof (eq v0 v2 v3) => eq_mp (eq v0 v1 v2) (eq v0 v1 v3) (app_thm v0 bool (eq v0 v1) (eq v0 v1) v2 v3 (refl (arr v0 bool) (eq v0 v1)) v5) v4.
(; bound 13144256 ;)
thm T0 : v0 : term bool -> proof (eq bool v0 v0) := v0 : term bool => refl bool v0.
(; bound 10648000 ;)
thm E0 : v0 : term bool -> proof (eq bool v0 v0) := v0 : term bool => T0 v0.
"#;
