//! Why the hub refuses a call.
ghost use Rattle.std.specs.Prelude.{◌≡◌, ◌++◌, IfOk};
ghost use Rattle.std.specs.Option.{option_copied};
ghost use Rattle.hub_view.specs.Body.{body_tokens};
ghost use Rattle.hub_view.specs.Json.{message_body};
ghost use Rattle.hub_machine.specs.Replies as spec;

use hub_kit::text::Text;
use hub_view::{Body, add_member, line};
use scope_names::action::{Action, action_text};
use std::alloc::{AllocError, Global};

/// A refusal of the rules.
#[derive(Drop)]
pub enum Refusal {
    /// The caller has seen a longer history than there is: 412.
    SeenPast { seen: u64, length: u64 },
    /// No text is given, or it is no kept token's, or its token is over: 403.
    NoValidToken,
    /// The action is held on no object at all: 403.
    Needs(Action),
    /// The action isn't allowed on the object, or the object isn't there: 404.
    NotFound,
    /// The scope that a token asks for and its owner doesn't hold, as its text: 403.
    NotHeld(Text),
    /// An authorization is asked for with a token of a service: 403.
    NeedsUser,
    /// A rule of the call, in its own words: 400.
    Rule(Text),
    /// A rule of the authorization code grant, by its word in RFC 6749, section 5.2: 400, with a body of its own.
    Grant(Text),
    /// What the call would make is there: 409.
    Exists(Text),
    /// Each target of the pool is leased: 429.
    AllLeased { live: u64, pool: u64 },
    /// A kind of rows has reached its limit: 500.
    Full { kind: u8, limit: u32 },
    /// The history has reached its limit: 500.
    TrailFull,
    /// No random bytes came for a call that draws: 503.
    NoDraw,
    /// The keeper refused the rows: 503.
    KeeperFault,
    /// A call that a start or a stop owes its spawner failed: 503.
    SpawnerFault,
    /// A call that a start or a stop owes the proxy failed: 503.
    ProxyFault,
    /// A stop was asked before the server was ready: 409.
    StoppedWhileStarting,
}

impl Refusal {
    pub fn status(&self) -> u16
        ensures { result ≡ spec.status_of self.now }
    {
        match self {
            Refusal::SeenPast { .. } => 412,
            Refusal::NoValidToken | Refusal::Needs(_) | Refusal::NotHeld(_) | Refusal::NeedsUser =>
                403,
            Refusal::NotFound => 404,
            Refusal::Rule(_) | Refusal::Grant(_) => 400,
            Refusal::Exists(_) | Refusal::StoppedWhileStarting => 409,
            Refusal::AllLeased { .. } => 429,
            Refusal::Full { .. } | Refusal::TrailFull => 500,
            Refusal::NoDraw | Refusal::KeeperFault | Refusal::SpawnerFault | Refusal::ProxyFault =>
                503,
        }
    }

    pub fn message(&self, alloc: Global) -> Result<Text, AllocError>
        ensures { IfOk result (λ text. text ≡ spec.message_of self.now) }
    {
        match self {
            Refusal::SeenPast { seen, length } => seen_message(alloc, *seen, *length),
            Refusal::NoValidToken => Text::from_str(alloc, "no valid token"),
            Refusal::Needs(action) => joined(alloc, "needs ", action_text(action)),
            Refusal::NotFound => Text::from_str(alloc, "not found"),
            Refusal::NotHeld(scope) => joined(alloc, "not held: ", scope.as_str()),
            Refusal::NeedsUser => Text::from_str(alloc, "needs a user"),
            Refusal::Rule(text) | Refusal::Grant(text) => text.copy(alloc),
            Refusal::Exists(key) => joined(alloc, "exists: ", key.as_str()),
            Refusal::AllLeased { live, pool } => leased_message(alloc, *live, *pool),
            Refusal::Full { kind, limit } => full_message(alloc, *kind, *limit),
            Refusal::TrailFull => Text::from_str(alloc, "trail full"),
            Refusal::NoDraw => Text::from_str(alloc, "random"),
            Refusal::KeeperFault => Text::from_str(alloc, "keeper"),
            Refusal::SpawnerFault => Text::from_str(alloc, "spawner"),
            Refusal::ProxyFault => Text::from_str(alloc, "proxy"),
            Refusal::StoppedWhileStarting => Text::from_str(alloc, "stopped while starting"),
        }
    }

    /// The word of a refusal of the grant, or else the message and the status.
    pub fn body(&self, alloc: Global) -> Result<Body, AllocError>
        ensures { IfOk result (λ body. body_tokens body ≡ spec.refusal_body self.now) }
    {
        match self.grant_word() {
            Some(word) => error_body(alloc, word.as_str()),
            None => self.message_body(alloc),
        }
    }

    /// The word of a refusal of the grant.
    fn grant_word(&self) -> Option<&Text>
        ensures { option_copied result ≡ spec.word_of self.now }
    {
        match self {
            Refusal::Grant(word) => Some(word),
            _ => None,
        }
    }

    fn message_body(&self, alloc: Global) -> Result<Body, AllocError>
        ensures { IfOk result (λ body. body_tokens body ≡ message_body (spec.status_of self.now) (spec.message_of self.now)) }
    {
        let message = self.message(alloc)?;
        hub_view::message_body(alloc, self.status(), message.as_str())
    }
}

/// The body of a refusal of the grant.
fn error_body(alloc: Global, word: &str) -> Result<Body, AllocError>
    ensures { IfOk result (λ body. body_tokens body ≡ spec.error_body word.now) }
{
    let mut fields = Vec::new(alloc);
    add_member(alloc, &mut fields, true, "error", line(alloc, word)?)?;
    Ok(Body::Pairs(fields))
}

/// A rule's refusal in words, which stand in two parts.
pub fn worded(alloc: Global, front: &str, back: &str) -> Result<Refusal, AllocError>
    ensures { IfOk result (λ r. r ≡ Refusal.Rule (front.now ++ back.now)) }
{
    Ok(Refusal::Rule(joined(alloc, front, back)?))
}

/// Two texts as one.
fn joined(alloc: Global, front: &str, back: &str) -> Result<Text, AllocError>
    ensures { IfOk result (λ text. text ≡ front.now ++ back.now) }
{
    let mut text = Text::from_str(alloc, front)?;
    text.push_str(back)?;
    Ok(text)
}

fn seen_message(alloc: Global, seen: u64, length: u64) -> Result<Text, AllocError>
    ensures { IfOk result (λ text. text ≡ spec.seen_message seen length) }
{
    let text = format!(in alloc; "seen {seen}, revision {length}")?;
    Ok(Text::from_string(text))
}

fn leased_message(alloc: Global, live: u64, pool: u64) -> Result<Text, AllocError>
    ensures { IfOk result (λ text. text ≡ spec.leased_message live pool) }
{
    let text = format!(in alloc; "{live} of {pool} servers")?;
    Ok(Text::from_string(text))
}

fn full_message(alloc: Global, kind: u8, limit: u32) -> Result<Text, AllocError>
    ensures { IfOk result (λ text. text ≡ spec.full_message kind limit) }
{
    let text = format!(in alloc; "full: {kind} {limit}")?;
    Ok(Text::from_string(text))
}
