//! Laws of the definitions.
ghost use Rattle.std.specs.Prelude.{◌≡◌, ℕ, List, Result};
ghost use Rattle.http_wire.specs.declared.error.WireError.{WireError};
ghost use Rattle.http_wire.specs.declared.head.Head.{Head};
ghost use Rattle.http_wire.specs.declared.request.Request.{Request};
ghost use Rattle.http_wire.specs.Stream.{HeadNext};
ghost use Rattle.http_wire.specs.Requests.{RequestNext};

/// However a stream is read, at most one head or refusal of a head stands next on it.
pub fn next_head_is_one()
    ensures { (stream : List ℕ) (a b : Result Head WireError) → HeadNext stream a → HeadNext stream b → a ≡ b }
{}

/// However a stream is read, at most one request or refusal of a request stands next on it.
pub fn next_request_is_one()
    ensures { (stream : List ℕ) (a b : Result Request WireError) → RequestNext stream a → RequestNext stream b → a ≡ b }
{}
