//! The kinds of faults of a text.

use crate::ident::Ident;
use thiserror::Error;

/// The fault of a text.
#[derive(Debug, Drop, PartialEq, Eq, Error)]
pub enum DkKind {
    /// The text does not begin as every module's does.
    #[error("the signature is missing")]
    NoPrelude,
    /// A token can't follow, a byte begins no token, or a comment or a declaration does not end.
    #[error("bad text")]
    BadText,
    /// An identifier names no binder round it and no earlier symbol.
    #[error("unknown name")]
    UnknownName(Ident),
    /// A declared name is a symbol's already.
    #[error("a name is declared twice")]
    NameTwice(Ident),
    /// A type or a body is too deep.
    #[error("too deep")]
    DkTooDeep,
    /// The text is longer than the limit.
    #[error("too long")]
    DkTooLong,
}
