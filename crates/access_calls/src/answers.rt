//! Answers of calls that change rows or are refused by a rule.
ghost use Rattle.std.specs.Prelude.{◌≡◌, ◌++◌, List, Err, IfOk, alloc_error, codes, decimal};
ghost use Rattle.hub_rows.specs.declared.changes.RowChange.{RowChange};
ghost use Rattle.hub_view.specs.Body.{body_tokens};
ghost use Rattle.hub_view.specs.Json as json;
ghost use Rattle.hub_machine.specs.Answers.{answer_view};
ghost use Rattle.hub_machine.specs.Replies as replies;
ghost use Rattle.access_calls.specs.ShareCalls.{refusal_of};

use hub_kit::text::Text;
use hub_machine::answer::{Answer, plain, rows_then};
use hub_machine::refusal::{Refusal, worded};
use hub_rows::changes::RowChange;
use hub_view::Body;
use shares::allowed::ShareError;
use std::alloc::{AllocError, Global};

/// The answer with these rows and this body, where there was memory for both.
pub(crate) fn told(
    rows: Result<Vec<RowChange>, AllocError>,
    status: u16,
    body: Result<Body, AllocError>,
) -> Result<Answer, AllocError>
    ensures { IfOk result (λ a. (made : List RowChange) (shown : json.Json) → IfOk rows (λ r. r.items ≡ made)
        → IfOk body (λ b. body_tokens b ≡ shown)
        → answer_view a ≡ replies.rows_then made (replies.good status shown)) }
{
    match rows {
        Ok(rows) => match body {
            Ok(body) => Ok(rows_then(rows, plain(status, body))),
            Err(error) => Err(error),
        },
        Err(error) => Err(error),
    }
}

/// The answer of a call that a rule on shares refuses. Want of memory stays that.
pub(crate) fn refused(alloc: Global, refusal: ShareError) -> Result<Answer, AllocError>
    ensures said { IfOk result (λ a. answer_view a ≡ replies.refuses (refusal_of refusal)) }
    ensures memory { refusal ≡ ShareError.Memory → result ≡ Err alloc_error }
{
    Ok(Answer::Refuses(refusal_said(alloc, refusal)?))
}

/// How a refusal is said.
fn refusal_said(alloc: Global, refusal: ShareError) -> Result<Refusal, AllocError>
    ensures said { IfOk result (λ r. r ≡ refusal_of refusal) }
    ensures memory { refusal ≡ ShareError.Memory → result ≡ Err alloc_error }
{
    match refusal {
        ShareError::ScopeNotAllowed(place) => scope_refused(alloc, place),
        ShareError::NoRecipient => worded(alloc, "no recipient", ""),
        ShareError::CodeUnknown => worded(alloc, "code unknown", ""),
        ShareError::CodeExpired(_) => worded(alloc, "code expired", ""),
        ShareError::LifeTooShort(_) => worded(alloc, "life too short", ""),
        ShareError::Memory => Err(AllocError),
    }
}

/// The refusal of the scope at a place, counted from 0.
fn scope_refused(alloc: Global, place: usize) -> Result<Refusal, AllocError>
    ensures { IfOk result (λ r. r ≡ Refusal.Rule (codes "share scope " ++ decimal place)) }
{
    let text = format!(in alloc; "share scope {place}")?;
    Ok(Refusal::Rule(Text::from_string(text)))
}
