//! Answers of calls that the rules decide.
ghost use Rattle.std.specs.Prelude.{◌≡◌, IfOk, Ok, Err, alloc_error};
ghost use Rattle.admin_rules.specs.Rules as rules;
ghost use Rattle.hub_machine.specs.Answers.{answer_view};
ghost use Rattle.hub_machine.specs.Replies as spec;
ghost use Rattle.hub_machine.specs.State.{Hub};
ghost use Rattle.hub_view.specs.Body.{body_tokens};
ghost use Rattle.hub_view.specs.Json.{Json};
ghost use Rattle.hub_calls.specs.Calling.{after_rows, refusal_of, by_rules, done};

use admin_rules::refusals::RuleRefusal;
use hub_machine::answer::{Answer, plain, rows_then};
use hub_machine::refusal::{Refusal, worded};
use hub_rows::changes::RowChange;
use hub_view::Body;
use std::alloc::{AllocError, Global};

/// How a refusal of the rules is said. Want of memory stays that.
fn refusal_said(alloc: Global, refusal: RuleRefusal) -> Result<Refusal, AllocError>
    ensures said { IfOk result (λ r. r ≡ refusal_of refusal) }
    ensures memory { refusal ≡ RuleRefusal.Memory → result ≡ Err alloc_error }
{
    match refusal {
        RuleRefusal::Exists(key) => Ok(Refusal::Exists(key)),
        RuleRefusal::LiveServers => worded(alloc, "live servers", ""),
        RuleRefusal::UnknownUser(user) => worded(alloc, "unknown user ", user.as_str()),
        RuleRefusal::UnknownServer(server) => worded(alloc, "unknown server ", server.as_str()),
        RuleRefusal::FixedRole => worded(alloc, "fixed role", ""),
        RuleRefusal::UnknownScope(scope) => worded(alloc, "unknown scope ", scope.as_str()),
        RuleRefusal::UnknownHolder(name) => worded(alloc, "unknown holder ", name.as_str()),
        RuleRefusal::Full { kind, limit } => Ok(Refusal::Full { kind, limit }),
        RuleRefusal::Memory => Err(AllocError),
    }
}

/// The answer of a call that a rule refuses.
pub fn refused(alloc: Global, refusal: RuleRefusal) -> Result<Answer, AllocError>
    ensures { IfOk result (λ a. (answer : rules.Answer) → rules.Says answer (Err refusal) → (s : Hub) (reply : Hub → spec.Good)
        → answer_view a ≡ by_rules s answer reply) }
{
    Ok(Answer::Refuses(refusal_said(alloc, refusal)?))
}

/// The answer of a call whose Ok has no body.
pub fn carried(
    alloc: Global,
    rows: Result<Vec<RowChange>, RuleRefusal>,
) -> Result<Answer, AllocError>
    ensures { IfOk result (λ a. (answer : rules.Answer) → rules.Says answer rows → (s : Hub) → answer_view a ≡ by_rules s answer done) }
{
    match rows {
        Ok(rows) => Ok(rows_then(rows, plain(204, Body::Nothing))),
        Err(refusal) => refused(alloc, refusal),
    }
}

/// The answer of a call whose Ok shows what the rows leave. Where there was no memory for the body, the rows go too.
pub fn answered(
    rows: Vec<RowChange>,
    status: u16,
    body: Result<Body, AllocError>,
) -> Result<Answer, AllocError>
    ensures { IfOk result (λ a. (answer : rules.Answer) → answer ≡ Ok rows.items → (s : Hub) (shown : Hub → Json)
        → IfOk body (λ b. body_tokens b ≡ shown (after_rows rows.items s))
        → answer_view a ≡ by_rules s answer (λ after. spec.good status (shown after))) }
{
    match body {
        Ok(body) => Ok(rows_then(rows, plain(status, body))),
        Err(error) => Err(error),
    }
}
