//! The forms of declarations.

/// What a declaration is to conversion.
#[derive(Clone, Copy, Debug, PartialEq, Eq)]
pub enum Form {
    /// `name : T.`, a symbol without a body.
    Symbol,
    /// `def name : T := t.`, a symbol that stands for its body.
    Def,
    /// `thm name : T := t.`, a symbol with a proof, for which it never stands.
    Thm,
}
