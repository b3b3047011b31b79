//! What is shown of a server.
ghost use Rattle.std.specs.Prelude.{◌≡◌, ◌++◌, OnOk, IfOk};
ghost use Rattle.hub_view.specs.Body.{body_tokens};
ghost use Rattle.hub_view.specs.Json as json;
ghost use Rattle.hub_view.specs.Servers as spec;

use crate::body::Body;
use crate::facts::ServerFacts;
use crate::fields::Fields;
use crate::members::line;
use crate::parts::{fixed, moment_or_null, truth};
use crate::word::Word;
use hub_kit::names::ServerKey;
use hub_kit::text::Text;
use server_life::Phase;
use std::alloc::{AllocError, Global};

/// Whether a server in this phase is live.
pub fn is_live(phase: Phase) -> bool
    ensures { result ≡ spec.is_live phase }
{
    !matches!(phase, Phase::Stopped)
}

fn is_ready(phase: Phase) -> bool
    ensures { result ≡ spec.is_ready phase }
{
    matches!(phase, Phase::Ready(_))
}

/// `spawn` for a server that is starting, `stop` for one that is ending or still has to, else null.
fn pending(phase: Phase) -> Body
    ensures { body_tokens result ≡ spec.pending phase }
{
    match phase {
        Phase::Stopped | Phase::Ready(_) => Body::Null,
        Phase::Adopting(_) | Phase::Spawning(_) | Phase::Routing(_) => fixed(Word::Spawn),
        Phase::Unrouting(_) | Phase::Stopping(_) | Phase::Parked(_, _) => fixed(Word::Stop),
    }
}

fn url_line(alloc: Global, key: &ServerKey) -> Result<Body, AllocError>
    ensures { IfOk result (λ body. body_tokens body ≡ json.line (spec.server_url key.now)) }
{
    Ok(Body::Line(server_url(alloc, key)?))
}

/// Where the server is entered: `/user/U/` for the default server, else `/user/U/S/`.
pub fn server_url(alloc: Global, key: &ServerKey) -> Result<Text, AllocError>
    ensures { IfOk result (λ text. text ≡ spec.server_url key.now) }
{
    let mut url = Text::from_str(alloc, "/user/")?;
    url.push_str(key.user.as_str())?;
    url.push_str("/")?;
    push_server(&mut url, key.server.as_str())?;
    Ok(url)
}

/// The part of the path behind the user.
fn push_server(url: &mut Text, server: &str) -> Result<(), AllocError>
    ensures { OnOk result (url.new ≡ url.old ++ spec.server_path server.now) }
{
    if server.is_empty() {
        return Ok(());
    }
    url.push_str(server)?;
    url.push_str("/")
}

/// All fields of a server.
pub fn server_body(alloc: Global, server: &ServerFacts) -> Result<Body, AllocError>
    ensures { IfOk result (λ body. body_tokens body ≡ spec.server_body server.now) }
{
    let row = &server.row;
    let phase = server.life.phase;
    let mut fields = Fields::new(alloc, 6);
    let last_activity = moment_or_null(row.last_activity);
    fields.add(true, Word::LastActivity, Ok(last_activity));
    fields.add(true, Word::Name, line(alloc, row.key.server.as_str()));
    fields.add(true, Word::Pending, Ok(pending(phase)));
    fields.add(true, Word::Ready, Ok(truth(is_ready(phase))));
    fields.add(true, Word::Started, Ok(moment_or_null(row.started)));
    fields.add(true, Word::Url, url_line(alloc, &row.key));
    fields.into_body()
}
