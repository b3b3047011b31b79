//! What the rules of a sign-in come to.
ghost use Rattle.guard_login.specs.Laws.{PassesOnlyAdmitted, GivesOnlyTraded, GoesOnlyWithin};

/// A request is passed on only where the hub's reply in this call is 200 with `access` true, to an ask for its own token. A
/// cookie has only the token of a 200 to a trade in this call, for a state that the browser has, and the browser then goes
/// on only to a place that begins with the server's base.
pub fn sign_in_laws()
    ensures passes { PassesOnlyAdmitted }
    ensures gives { GivesOnlyTraded }
    ensures within { GoesOnlyWithin }
{}
