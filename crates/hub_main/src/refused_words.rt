//! What is said to people of words that are no command: which word isn't one, and what may stand there. No contract speaks of it. It reads
//! parts of the words by the reader that the contract speaks of, so that it has no rules of its own.
use hub_kit::text::Text;
use hub_words::session::read_session;
use hub_words::word_error::WordError;
use std::alloc::{AllocError, Global};

/// The words that each command takes.
const USAGE: &str = "hub session NOW USER TOKEN [--admin] [--config FILE] [--db FILE] [--no-trail]";

fn add(alloc: Global, words: &mut Vec<Text>, word: &str) -> Result<(), AllocError> {
    words.push(Text::from_str(alloc, word)?)?;
    Ok(())
}

/// Whether these words are read with good ones behind them: the value of an option, if that is asked for, and the last `n` of NOW, USER
/// and TOKEN.
fn is_read_with(alloc: Global, words: &[Text], value: bool, n: usize) -> Result<bool, AllocError> {
    let mut whole = Vec::new(alloc);
    for word in words {
        add(alloc, &mut whole, word.as_str())?;
    }
    if value {
        add(alloc, &mut whole, "file")?;
    }
    if n > 2 {
        add(alloc, &mut whole, "0")?;
    }
    if n > 1 {
        add(alloc, &mut whole, "user")?;
    }
    if n > 0 {
        add(alloc, &mut whole, "12345678")?;
    }
    match read_session(alloc, whole.as_slice()) {
        Ok(_) => Ok(true),
        Err(WordError::Refused) => Ok(false),
        Err(WordError::Memory) => Err(AllocError),
    }
}

/// Whether a command begins with these words.
fn begins(alloc: Global, words: &[Text]) -> Result<bool, AllocError> {
    for n in 0..4 {
        if is_read_with(alloc, words, false, n)? || is_read_with(alloc, words, true, n)? {
            return Ok(true);
        }
    }
    Ok(false)
}

/// The first word that isn't one, and what a command takes.
pub(crate) fn explain_words(alloc: Global, words: &[Text]) -> Result<String, AllocError> {
    let mut begun = Vec::new(alloc);
    for word in words {
        let word = word.as_str();
        add(alloc, &mut begun, word)?;
        if !begins(alloc, begun.as_slice())? {
            return format!(in alloc; "the word {word} isn't expected there: {USAGE}");
        }
    }
    format!(in alloc; "words are missing: {USAGE}")
}
