//! What is pending while a type is inferred.
use crate::context::Context;
use common::Stack;
use lp_term::LpId;

/// A function, an argument, and the application of the two.
#[derive(Clone, Copy)]
pub struct Application {
    pub(crate) function: LpId,
    pub(crate) argument: LpId,
    pub(crate) whole: LpId,
}

/// An application, with the domain and the body of its function's type, where both are to have so many last arguments of the function
/// put in.
#[derive(Clone, Copy)]
pub struct Argument {
    pub(crate) domain: LpId,
    pub(crate) body: LpId,
    pub(crate) count: usize,
    pub(crate) app: Application,
}

/// The domain that the type of an argument is to meet, and the body, which is to have so many last arguments of the application put in,
/// with the application and the argument's type.
#[derive(Clone, Copy)]
pub struct Expected {
    pub(crate) domain: LpId,
    pub(crate) body: LpId,
    pub(crate) count: usize,
    pub(crate) whole: LpId,
    pub(crate) found: LpId,
}

/// What goes on with a type that was found.
#[derive(Clone, Copy)]
pub enum Frame {
    /// That of the function of an application.
    Function(Application),
    /// The sort of this product, which the type of the application's function reaches.
    Reached(LpId, Application),
    /// That of an argument.
    Argument(Argument),
    /// The sort of the domain that the type of an argument is to meet.
    Expected(Expected),
    /// The sort of an abstraction's domain, with its body.
    Domain(LpId, LpId),
    /// The type of an abstraction's body, with its domain.
    Body(LpId),
    /// The sort of a product's domain, with its body.
    ProductDomain(LpId, LpId),
    /// The sort of a product's body.
    ProductBody,
}

/// What is next: to ask for a type, to go on with one, or nothing.
#[derive(Clone, Copy)]
pub enum Next {
    Ask(LpId),
    Tell(LpId),
    /// To go on with this type, once so many last arguments of this application are put in.
    Under(LpId, usize, LpId),
    No,
    Over,
}

/// What is pending.
#[derive(Drop)]
pub struct State {
    pub(crate) context: Context,
    pub(crate) frames: Stack<Frame>,
    // The number of the context.
    pub(crate) key: usize,
}

/// A tree whose type is asked for by itself, with the number of its context, and what goes on with it.
#[derive(Drop)]
pub struct Waiting {
    pub(crate) id: LpId,
    pub(crate) key: usize,
    pub(crate) frames: Stack<Frame>,
}
