//! What a place of the history decides.
ghost use Rattle.std.specs.Prelude.{◌≡◌, ◌++◌, ℕ, true, List, [], Option, Some};
ghost use Rattle.hub_machine.specs.State.{Hub};
ghost use Rattle.hub_machine.specs.Replies.{Answer};
ghost use Rattle.hub_machine.specs.declared.call.Asked.{Asked};
ghost use Rattle.hub_machine.specs.declared.change.Change.{Change};
ghost use Rattle.hub_core.specs.History.{Answers, state_after};
ghost use Rattle.hub_core.specs.Needs.{needs_token};
ghost use Rattle.hub_core.specs.Removed.{IsRemoved, IsTokenRefused};
ghost use Rattle.hub_core.specs.Visits.{Entry, Reached};
ghost use Rattle.hub_core.specs.declared.start.Start.{Start};

/// The entries of a history lead to one state. It does nothing: its contract is the law.
pub fn entries_lead_to_one_state()
    ensures { (start : Start) (before : List Entry) (s t : Hub) → Reached start before s → Reached start before t → s ≡ t }
{}

/// No entries lead to the state of the opening. It does nothing: its contract is the law.
pub fn no_entries_lead_to_the_opening()
    ensures { (start : Start) (s : Hub) → Reached start [] s → s ≡ start.machine }
{}

/// An asked call has one answer in a state, at a moment and with what was drawn. It does nothing: its contract is the law.
pub fn a_call_has_one_answer()
    ensures { (s : Hub) (now : ℕ) (draw : Option (List ℕ)) (asked : Asked) (r r' : Answer) → Answers s now draw asked r
        → Answers s now draw asked r' → r ≡ r' }
{}

/// Once a token was removed, and while no entry puts its hash again, a call that needs a token and brings its text is refused: 403
/// `no valid token`, or 412 before it. It does nothing: its contract is the law.
pub fn a_removed_token_stays_refused()
    ensures { (start : Hub) (text : List ℕ) (gone later : List Change) (now : ℕ) (draw : Option (List ℕ)) (asked : Asked) (a : Answer)
        → IsRemoved start text gone later
        → asked.token ≡ Some text → needs_token asked.call ≡ true → Answers (state_after start (gone ++ later)) now draw asked a
        → IsTokenRefused (state_after start (gone ++ later)) asked a }
{}
