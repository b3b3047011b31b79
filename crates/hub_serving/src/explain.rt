//! What is said to people of a `serve` that didn't do its work. No contract speaks of it, and it changes no status.
use crate::end::{End, Ended, Line, NotServed};
use crate::plan::Plan;
use hub_kit::text::Text;
use hub_main::cause::Cause;
use hub_main::explain::place_of_name;
use hub_words::serve::read_serve;
use std::alloc::{AllocError, Global};

/// The words that the command takes.
const USAGE: &str =
    "hub serve --config FILE [--db FILE] [--no-trail] [--workers N] [--connections N]";

/// The name of the file of configuration in the words.
pub fn config_name(alloc: Global, words: &[Text]) -> Result<Text, AllocError> {
    match read_serve(alloc, words) {
        Ok(serve) => serve.config.copy(alloc),
        Err(_) => Ok(Text::new(alloc)),
    }
}

/// Why these words or their file are none to serve by, in a line.
pub fn explain_refusal(
    alloc: Global,
    words: &[Text],
    why: &NotServed,
) -> Result<String, AllocError> {
    match why {
        NotServed::Because(Cause::Words) => format!(in alloc; "{why}: {USAGE}"),
        NotServed::Because(Cause::NoFile) | NotServed::NoAddress => {
            let name = config_name(alloc, words)?;
            let name = name.as_str();
            format!(in alloc; "{why}: {name}")
        }
        NotServed::Because(Cause::NoConfig(bytes)) => {
            let name = config_name(alloc, words)?;
            let name = name.as_str();
            let cause = hub_config::explain::explain(alloc, bytes.as_slice())?;
            format!(in alloc; "{why}: {name}: {cause}")
        }
        NotServed::Because(_) => format!(in alloc; "{why}"),
    }
}

/// Why the line wasn't written, or the listener ended the serving.
fn explain_ended(ended: &Ended) -> Option<&'static str> {
    if ended.failed {
        return Some("the listener failed");
    }
    match ended.line {
        Line::Written => None,
        Line::Failed => Some("writing the output failed"),
        Line::NoMemory => Some("there is no memory"),
    }
}

/// Why `serve` didn't do its work by the plan of these words, in a line; nothing where it did.
pub fn explain_end(
    alloc: Global,
    words: &[Text],
    plan: &Plan,
    end: &End,
) -> Result<Option<String>, AllocError> {
    match end {
        Ok(ended) => match explain_ended(ended) {
            Some(said) => Ok(Some(String::from_str(alloc, said)?)),
            None => Ok(None),
        },
        Err(NotServed::Because(Cause::UnknownName(name))) => {
            let file = config_name(alloc, words)?;
            let file = file.as_str();
            let place = place_of_name(alloc, &plan.hub, name)?;
            let place = place.as_str();
            let name = *name;
            Ok(Some(format!(in alloc; "{name} is neither kept nor configured: {file}: {place}")?))
        }
        Err(why) => Ok(Some(format!(in alloc; "{why}")?)),
    }
}
