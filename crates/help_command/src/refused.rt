//! Whether any command takes words.
ghost use Rattle.std.specs.Prelude.{◌≡◌, true, None, Option};
ghost use Rattle.hub_words.specs.Commands.{Answers};
ghost use Rattle.help_command.specs.Refused.{AreRefused};

use hub_kit::text::Text;
use hub_words::backup::read_backup;
use hub_words::check::read_check;
use hub_words::cull::read_cull;
use hub_words::guard::read_guard;
use hub_words::load::read_load;
use hub_words::proxy::read_proxy;
use hub_words::serve::read_serve;
use hub_words::session::read_session;
use hub_words::word_error::WordError;
use std::alloc::Global;

/// Whether a reader refused its words.
fn is_refused<W: Drop>(read: Result<W, WordError>) -> bool
    ensures { (meaning : Option W) → Answers meaning read → result ≡ true → meaning ≡ None }
{
    match read {
        Ok(_) | Err(WordError::Memory) => false,
        Err(WordError::Refused) => true,
    }
}

/// Whether each command refuses these words. Not where memory is wanting.
pub fn are_refused(alloc: Global, words: &[Text]) -> bool
    ensures { result ≡ true → AreRefused words.now }
{
    if !is_refused(read_serve(alloc, words)) {
        return false;
    }
    if !is_refused(read_check(alloc, words)) {
        return false;
    }
    if !is_refused(read_backup(alloc, words)) {
        return false;
    }
    if !is_refused(read_proxy(alloc, words)) {
        return false;
    }
    if !is_refused(read_guard(alloc, words)) {
        return false;
    }
    if !is_refused(read_cull(alloc, words)) {
        return false;
    }
    if !is_refused(read_session(alloc, words)) {
        return false;
    }
    is_refused(read_load(alloc, words))
}
