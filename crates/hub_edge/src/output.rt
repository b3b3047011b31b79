//! Standard output as a device, which counts its errors and doesn't tell what it holds, and a line on standard error.
ghost use Rattle.std.specs.Prelude.{◌≡◌, ℕ, None, false};

use crate::clock::SystemClock;
use hub_devices::clock::Clock;
use hub_devices::sink::Sink;
use hub_devices::source::Failed;
use hub_kit::moments::moment_text;
use hub_kit::text::Text;
use std::io::{self, Write};
use std::process::ExitCode;

/// Standard output.
#[derive(Clone, Copy)]
pub struct Output {
    rt: HostRuntime,
    faults: u64,
}

impl Output {
    /// Standard output, which has not failed yet.
    pub fn new(rt: HostRuntime) -> Output
        ensures { ⟦<Output as Sink>⟧.faults result ≡ 0 }
    {
        Output { rt, faults: 0 }
    }
}

impl Sink for Output {
    ghost held = { λ s. None };

    ghost faults = { λ s. s.faults };

    ghost closed = { λ s. false };

    fn write(&mut self, from: &[u8]) -> Result<usize, Failed> {
        let rt = self.rt;
        match io::writer(&rt).write(from) {
            Ok(count) if count > 0 || from.is_empty() => Ok(count),
            _ => {
                self.faults = self.faults.saturating_add(1);
                Err(Failed)
            }
        }
    }
}

/// The moment of the system's clock, by which a line begins that is about something that happens while the program runs. It is empty where
/// there is no memory for it.
pub fn moment_now(rt: &HostRuntime) -> Text {
    let mut clock = SystemClock::new(*rt);
    match moment_text(rt.alloc(), clock.now()) {
        Ok(text) => text,
        Err(_) => Text::new(rt.alloc()),
    }
}

/// Says on standard error why there is this status. Where it can't be said nothing is.
pub fn say(rt: &HostRuntime, status: u8, why: &str) -> ExitCode {
    let _ = eprintln!(rt; "hub: {why}");
    ExitCode::from(status)
}
