//! What a call needs of the token that it brings.
use scope_filters::object::Object;
use scope_names::action::Action;

/// What a token has to be good for.
#[derive(Clone, Copy)]
pub enum Need {
    /// Nothing but that it is good.
    GoodToken,
    /// The action, on some object at all.
    Held(Action),
    /// The action, on this object.
    On(Action, Object),
}
