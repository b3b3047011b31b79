//! What the contract of a connection comes to.
ghost use Rattle.std.specs.Prelude.{◌≡◌, ◌<◌, ◌+◌, ◌-◌, ◌^◌, ◌⊎◌, ◌++◌, ◌∷◌, ℕ, true, false, List, map, Option, Some, Ok};
ghost use Rattle.http_wire.specs.Request.{IsRequestText};
ghost use Rattle.http_wire.specs.declared.request.Request.{Request};
ghost use Rattle.hub_api.specs.Calls.{call_read};
ghost use Rattle.hub_core.specs.Needs.{needs_token};
ghost use Rattle.hub_core.specs.Removed.{IsRemoved};
ghost use Rattle.hub_core.specs.declared.start.Start.{Start};
ghost use Rattle.hub_devices.specs.Faults.{Rises};
ghost use Rattle.hub_machine.specs.Replies.{Answer, Reply};
ghost use Rattle.hub_machine.specs.declared.call.Asked.{Asked};
ghost use Rattle.hub_machine.specs.declared.change.Change.{Change};
ghost use Rattle.hub_run.specs.Complete.{IsOf, IsDue, IsDone, IsUndone, IsServed, IsSetOut, IsLetOn, IsWithoutWork, IsOfFault, is_work};
ghost use Rattle.hub_run.specs.Gained.{turn_gain};
ghost use Rattle.hub_run.specs.Removed.{Knows, StandsIn, IsTurnedAway};
ghost use Rattle.hub_run.specs.Routed.{Asking};
ghost use Rattle.hub_run.specs.Turns.{Turn, Turns, TurnAt, View, Visit, Visits, Errand, Works, Routes, Moves, IsAnswered, IsSent, IsWorked};
ghost use Rattle.hub_run.specs.Turns.{IsLet, IsRouted, IsUnsaid, at_chain, undrawn};
ghost use Rattle.server_work.specs.Gains.{Gains, sum_of};

use http_wire::laws::next_request_is_one;

/// The turn at the front of bytes that begin with a request is of this very request, unless it is a 507.
pub fn a_request_gets_its_turn()
    ensures { (start : Start) (left : Option (List ℕ)) (text more rest : List ℕ) (request : Request) (turn : Turn)
        → IsRequestText request text → TurnAt start left (text ++ more) turn rest → IsOf request turn }
{
    next_request_is_one()
}

/// A visited request has the reply of the one answer that the definition gives to its call in the state, at the moment and with the draw of
/// the visit, with the answer's change as the visit's entry; or 503 `keeper` with no entry, only where the answer has a change and the
/// keeper's count of faults rose in that visit. Where that answer owes work, it is what was done; and where it lets the call ask the route
/// link, that was asked. Where there was no memory for the reply, or for the visit, the visit changed nothing, or that answer owes no work.
pub fn a_visited_request_gets_its_answer()
    ensures answered { (start : Start) (request : Request) (v : Visit) (r : Reply) (a : Answer)
        → IsAnswered start request v r → IsDue start request v a → IsDone v r a ⊎ IsUndone v r a }
    ensures sent { (start : Start) (request : Request) (v : Visit) (e : Errand) (a : Answer)
        → IsSent start request v e → IsDue start request v a → IsSetOut request v e a }
    ensures let_on { (start : Start) (request : Request) (v : Visit) (asking : Asking) (a : Answer)
        → IsLet start request v asking → IsDue start request v a → IsLetOn request v asking a }
    ensures unsaid { (start : Start) (request : Request) (v : Visit) (a : Answer)
        → IsUnsaid start request v → IsDue start request v a → IsWithoutWork v a }
{}

/// On a connection in which no visit was counted among those that met a failing keeper, the turn of each request gives it the reply of the
/// definition's answer, whatever its call, or of the chain that this answer owes, or the refusal of a request that asks no call, or a 503
/// where no draw came, or a 507.
pub fn a_request_without_faults_is_served()
    ensures { (start : Start) (x y : View) (before after : List Turn) (turn : Turn) (left : Option (List ℕ)) (text more rest : List ℕ)
        (request : Request)
        → Turns x (before ++ turn ∷ after) y → y.pass.failed ≡ x.pass.failed → y.pass.faults < 2 ^ 64 - 1
        → IsRequestText request text → TurnAt start left (text ++ more) turn rest → IsServed start request turn }
{
    next_request_is_one()
}

/// A visited request is answered 503 only where the keeper refused its rows, and the pass counts this visit and knows the count of faults
/// that rose in it, unless the keeper's count stood at its greatest. A worked request is answered 503 only by a refusal that names the
/// spawner, the proxy or the keeper, whose count rose meanwhile; one that the route link was asked for only where the link's count rose;
/// and one for which no draw came only where the count of the draws' source rose.
pub fn a_503_is_counted()
    ensures visited { (start : Start) (x y : View) (request : Request) (v : Visit) (r : Reply)
        → IsAnswered start request v r → Visits x v y → r.status ≡ 503 → v.faults < 2 ^ 64 - 1
        → (y.pass.failed ≡ x.pass.failed + 1) × (x.pass.faults < y.pass.faults) }
    ensures worked { (start : Start) (x y : View) (request : Request) (v : Visit) (e : Errand) (r : Reply)
        → IsWorked start request v e r → Works x v e y → r.status ≡ 503 → y.pass.faults < 2 ^ 64 - 1 → IsOfFault x y r }
    ensures routed { (start : Start) (x y : View) (request : Request) (v : Visit) (a : Asking) (r : Reply)
        → IsRouted start request v a r → Routes x v a y → r.status ≡ 503 → IsOfFault x y r }
    ensures undrawn { (x y : View) (text : List ℕ) (request : Request) → Moves x (undrawn text request) y
        → Rises x.faults.random y.faults.random }
{}

/// A turn that is neither work nor asks the route link makes no call on the spawner or the route link.
pub fn only_work_makes_calls()
    ensures { (x y : View) (turn : Turn) → Moves x turn y → is_work turn ≡ false → (y.spawner ≡ x.spawner) × (y.routes ≡ x.routes) }
{}

/// What a connection gains is the sum of what its turns gain, in their order and nothing else: the pass's own entries are those that its
/// visits added and those of the chains that were owed, and the calls on the spawner and the route link are those of these chains and those
/// that the route link was asked by the calls on its routes, where the devices tell them. Where the pass is alone, the history grew by
/// these entries alone.
pub fn a_connection_gains_what_its_turns_gain()
    ensures turn { (x y : View) (turn : Turn) → Moves x turn y → Gains (at_chain x) (turn_gain turn) (at_chain y) }
    ensures turns { (x y : View) (turns : List Turn) → Turns x turns y → Gains (at_chain x) (sum_of (map turn_gain turns)) (at_chain y) }
{}

/// Revocation. A token was removed by an entry that the pass has seen, or that stands before the revision that the request names, and no
/// later entry up to the visit put its hash again: then a call that needs a token and brings this text gets from its visit 403 `no valid
/// token`, 412 or 507, and has no entry.
pub fn a_removed_token_is_turned_away()
    ensures { (start : Start) (x y : View) (left : Option (List ℕ)) (bytes more rest : List ℕ) (request : Request) (asked : Asked)
        (text : List ℕ)
        (gone later : List Change) → IsRequestText request bytes → call_read request ≡ Ok asked → asked.token ≡ Some text
        → needs_token asked.call ≡ true → IsRemoved start.machine text gone later → Knows x asked gone
        → (turn : Turn) → TurnAt start left (bytes ++ more) turn rest → Moves x turn y → StandsIn (gone ++ later) turn
        → IsTurnedAway asked turn }
{
    next_request_is_one()
}
