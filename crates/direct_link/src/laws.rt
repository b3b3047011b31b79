//! What the contract of a link comes to.
ghost use Rattle.std.specs.Prelude.{◌≡◌, ◌⊎◌, ℕ, true, List, Some, Ok};
ghost use Rattle.http_wire.specs.declared.request.Request.{Request};
ghost use Rattle.hub_core.specs.declared.start.Start.{Start};
ghost use Rattle.hub_run.specs.Turns.{View};
ghost use Rattle.access_laws.specs.Asks.{OnlyReads};
ghost use Rattle.direct_link.specs.Answered.{IsTurnOf, IsRefused};
ghost use Rattle.direct_link.specs.Direct.{Direct};

/// Where bytes read as one request that closes its connection, a reply to them is that of the request's one turn, which is right in the
/// state that it found; or they were refused unread, and are no text of that request.
pub fn an_ask_gets_its_turn()
    ensures { (start : Start) (x y : View) (request bytes : List ℕ) (q : Request) → x.pass.base ≡ Some start → OnlyReads request q
        → q.close ≡ true → Direct x request (Ok bytes) y → IsTurnOf start x q bytes y ⊎ IsRefused request q bytes }
{}
