//! What the words of `serve` and their file say.
ghost use Rattle.std.specs.Prelude.{◌≡◌, ◌≤◌, None, IfOk, IfErr};
ghost use Rattle.hub_main.specs.Told.{files_told};
ghost use Rattle.hub_serving.specs.Plans as spec;
ghost use Rattle.hub_words.specs.Serve.{serve_read};

use crate::end::NotServed;
use hub_config::config::{ConfigManaged, FileConfig};
use hub_devices::files::Files;
use hub_kit::list::List;
use hub_kit::target::Target;
use hub_kit::text::Text;
use hub_main::cause::Cause;
use hub_main::configured::found_file;
use hub_opening::config::HubConfig;
use hub_words::serve::{ServeWords, read_serve};
use hub_words::word_error::WordError;
use std::alloc::Global;

/// With what a hub is set up, where it listens, and what serves.
pub struct Plan {
    /// What it begins with.
    pub hub: HubConfig,
    /// Where it listens, `HOST:PORT`.
    pub listen: Text,
    /// The services whose programs the hub starts.
    pub managed: List<ConfigManaged>,
    /// The words of the program that is started for a server. Without any, each start fails.
    pub command: List<Text>,
    /// The target of the proxy's interface, and its secret.
    pub proxy: Option<(Target, Text)>,
    /// The place of the store.
    pub db: Option<Text>,
    /// How many workers the program gives a kit of devices: 1 to 16.
    pub workers: u32,
    /// After how many connections the hub ends.
    pub connections: u64,
}

impl Drop for Plan {
    fn drop(self) {
        let Plan {
            hub: _,
            listen: _,
            managed: _,
            command: _,
            proxy: _,
            db: _,
            workers: _,
            connections: _,
        } = self;
    }
}

/// Reads the words `serve --config F [--db F] [--no-trail] [--workers N] [--connections N]` and their file, once. The status of a refusal
/// is 2 where the words are refused; 3 where the file can't be read, is no configuration, or names no address to listen at; and 7 where
/// memory is wanting.
pub fn read_plan<F: Files>(alloc: Global, files: &mut F, words: &[Text]) -> Result<Plan, NotServed>
    ensures ok { IfOk result (spec.IsPlanOf (serve_read words.now) (files_told F.files F.faults files.old)) }
    ensures err { IfErr result (spec.HasNoPlan (serve_read words.now) (files_told F.files F.faults files.old)
        (files_told F.files F.faults files.new)) }
    ensures kept { F.files files.new ≡ F.files files.old }
    ensures counted { F.faults files.old ≤ F.faults files.new }
{
    match read_serve(alloc, words) {
        Ok(words) => plan_of(alloc, files, words),
        Err(WordError::Refused) => Err(NotServed::Because(Cause::Words)),
        Err(WordError::Memory) => Err(NotServed::Because(Cause::Memory)),
    }
}

/// What these words and their file say.
fn plan_of<F: Files>(alloc: Global, files: &mut F, words: ServeWords) -> Result<Plan, NotServed>
    ensures ok { IfOk result (spec.IsPlan (files_told F.files F.faults files.old) words) }
    ensures err { IfErr result (spec.IsUnplanned (files_told F.files F.faults files.old) (files_told F.files F.faults files.new)
        words.config) }
    ensures kept { F.files files.new ≡ F.files files.old }
    ensures counted { F.faults files.old ≤ F.faults files.new }
{
    match found_file(alloc, files, &words.config) {
        Ok(file) => with_words(file, words),
        Err(cause) => {
            drop(words);
            Err(NotServed::Because(cause))
        }
    }
}

/// The file's part and that of the words.
fn with_words(file: FileConfig, words: ServeWords) -> Result<Plan, NotServed>
    ensures ok { IfOk result (spec.IsOf file words) }
    ensures err { IfErr result (λ why. (why ≡ NotServed.NoAddress) × (file.listen ≡ None)) }
{
    let FileConfig {
        mut hub,
        managed,
        listen,
        command,
        proxy,
    } = file;
    let ServeWords {
        config,
        db,
        no_trail,
        workers,
        connections,
    } = words;
    drop(config);
    hub.no_trail = no_trail;
    match listen {
        Some(listen) => Ok(Plan {
            hub,
            listen,
            managed,
            command,
            proxy,
            db,
            workers,
            connections,
        }),
        None => {
            // in one call each, since they have many parts
            drop(hub);
            drop(managed);
            drop(command);
            drop(proxy);
            drop(db);
            Err(NotServed::NoAddress)
        }
    }
}
