//! With what a hub is set up: what its file says, and for a session its words on top.
ghost use Rattle.std.specs.Prelude.{◌≡◌, ◌≤◌, Some, IfOk, IfErr, OnOk};
ghost use Rattle.hub_main.specs.Configured as spec;
ghost use Rattle.hub_main.specs.Told.{files_told};

use crate::cause::Cause;
use hub_config::config::FileConfig;
use hub_config::reading::read_config;
use hub_config::setting::ConfigError;
use hub_devices::files::Files;
use hub_devices::link_error::LinkError;
use hub_kit::bytes::Bytes;
use hub_kit::list::List;
use hub_kit::text::Text;
use hub_opening::config::{ConfigToken, ConfigUser, HubConfig, greatest_limits};
use hub_words::session::SessionWords;
use scope_filters::holder::Owner;
use scope_filters::scope::RawScope;
use server_life::Pool;
use std::alloc::{AllocError, Global};

/// The greatest size of a file of configuration.
const MOST: usize = 1_048_576;

// ---- the file

/// A hub without a file: an empty pool, the greatest limits, and nobody.
fn bare(alloc: Global) -> HubConfig
    ensures { result ≡ spec.bare }
{
    HubConfig {
        pool: Pool::empty(alloc),
        hub_url: None,
        limits: greatest_limits(),
        no_trail: false,
        users: List::new(alloc),
        groups: List::new(alloc),
        services: List::new(alloc),
        roles: List::new(alloc),
        tokens: List::new(alloc),
        custom_scopes: List::new(alloc),
    }
}

/// The configuration that these bytes are.
fn file_in(alloc: Global, bytes: Bytes) -> Result<FileConfig, Cause>
    ensures ok { IfOk result (spec.IsSaid bytes) }
    ensures err { IfErr result (spec.SaysNothing bytes) }
{
    match read_config(alloc, bytes.as_slice()) {
        Ok(file) => {
            drop(bytes);
            Ok(file)
        }
        Err(ConfigError::Refused(_)) => Err(Cause::NoConfig(bytes)),
        Err(ConfigError::Memory) => {
            drop(bytes);
            Err(Cause::Memory)
        }
    }
}

/// The configuration in the file of this name.
pub fn found_file<F: Files>(alloc: Global, files: &mut F, name: &Text) -> Result<FileConfig, Cause>
    ensures ok { IfOk result (spec.IsFile (files_told F.files F.faults files.old) name.now) }
    ensures err { IfErr result (spec.IsUnfound (files_told F.files F.faults files.old) (files_told F.files F.faults files.new)
        (Some name.now)) }
    ensures kept { F.files files.new ≡ F.files files.old }
    ensures counted { F.faults files.old ≤ F.faults files.new }
{
    match files.text(name, MOST) {
        Ok(bytes) => file_in(alloc, bytes),
        Err(LinkError::Failed) => Err(Cause::NoFile),
        Err(LinkError::Memory) => Err(Cause::Memory),
    }
}

/// What a file says of the hub itself. The rest is for commands that listen, and start programs.
fn hub_of(file: FileConfig) -> HubConfig
    ensures { result ≡ file.hub }
{
    let FileConfig {
        hub,
        managed,
        listen,
        command,
        proxy,
    } = file;
    drop(managed);
    drop(listen);
    drop(command);
    drop(proxy);
    hub
}

/// The hub that the file of this name configures, or one without a file.
fn found_hub<F: Files>(
    alloc: Global,
    files: &mut F,
    name: &Option<Text>,
) -> Result<HubConfig, Cause>
    ensures ok { IfOk result (spec.IsFound (files_told F.files F.faults files.old) name.now) }
    ensures err { IfErr result (spec.IsUnfound (files_told F.files F.faults files.old) (files_told F.files F.faults files.new) name.now) }
    ensures kept { F.files files.new ≡ F.files files.old }
    ensures counted { F.faults files.old ≤ F.faults files.new }
{
    let Some(name) = name else {
        return Ok(bare(alloc));
    };
    match found_file(alloc, files, name) {
        Ok(file) => Ok(hub_of(file)),
        Err(cause) => Err(cause),
    }
}

// ---- the words

/// The token of the words, which holds all that the user holds.
fn token_of(alloc: Global, words: &SessionWords) -> Result<ConfigToken, AllocError>
    ensures { IfOk result (λ token. token ≡ spec.token_of words.entry.now) }
{
    let scopes = vec![in alloc; RawScope::Inherit]?;
    let text = words.token.copy(alloc)?;
    Ok(ConfigToken {
        text,
        owner: Owner::User(words.user),
        scopes: List::from_vec(scopes),
    })
}

/// Adds the user of the words and the user's token behind all others.
fn add_words(alloc: Global, hub: &mut HubConfig, words: &SessionWords) -> Result<(), AllocError>
    ensures { OnOk result (hub.new ≡ spec.with_words words.entry.now hub.old) }
{
    let token = token_of(alloc, words)?;
    let user = ConfigUser {
        name: words.user,
        admin: words.admin,
    };
    hub.no_trail = words.no_trail;
    hub.tokens.push(token)?;
    hub.users.push(user)?;
    Ok(())
}

/// The configuration of a session.
pub(crate) fn config_of<F: Files>(
    alloc: Global,
    files: &mut F,
    words: &SessionWords,
) -> Result<HubConfig, Cause>
    ensures ok { IfOk result (spec.IsConfig (files_told F.files F.faults files.old) words.entry.now) }
    ensures err { IfErr result (spec.IsUnfound (files_told F.files F.faults files.old) (files_told F.files F.faults files.new)
        words.entry.now.config) }
    ensures kept { F.files files.new ≡ F.files files.old }
    ensures counted { F.faults files.old ≤ F.faults files.new }
{
    let mut hub = found_hub(alloc, files, &words.config)?;
    match add_words(alloc, &mut hub, words) {
        Ok(()) => Ok(hub),
        Err(_) => {
            // in one call, since it has many parts
            drop(hub);
            Err(Cause::Memory)
        }
    }
}
