//! A listener of TCP connections.
ghost use Rattle.std.specs.Prelude.{◌≡◌, ℕ, None, IfOk};

use crate::connection::{SocketSink, SocketSource, sides};
use crate::limits::{
    ACCEPT_AGAIN_MILLIS, ACCEPT_TRIES, READ_OR_WRITE_SECONDS, SILENT_CALLERS, SILENT_SECONDS,
    WAIT_SECONDS, WAITING_CALLERS,
};
use crate::sockets::{is_want, keep_alive, next_stream};
use crate::waiting::{awaited, comes_first, is_over, is_there, millis_of};
use hub_devices::listener::Listener;
use hub_devices::source::Failed;
use libc::net::{SHUT_RDWR, listen, poll, shutdown};
use libc::types::pollfd;
use std::alloc::{AllocError, Global};
use std::io::{self, ErrorKind};
use std::net::{TcpListener, TcpStream};
use std::os::fd::{AsRawFd, OwnedFd};
use std::sync::Arc;
use std::sync::atomic::{AtomicBool, AtomicU64, Ordering};
use std::thread;
use std::time::{Duration, Instant};

/// How many seconds one wait for silent callers takes at most, so that those are let go in time that have been silent for too long.
const LOOK_SECONDS: u64 = 1;

/// A listening socket, which its connections share: they see who waits there.
pub(crate) struct Door {
    listener: TcpListener,
    /// How many workers wait for a caller.
    free: AtomicU64,
    /// How many callers were silent when a worker last came from here.
    silent: AtomicU64,
    is_closed: AtomicBool,
}

impl Drop for Door {
    fn drop(self) {
        let Door {
            listener: _,
            free: _,
            silent: _,
            is_closed: _,
        } = self;
    }
}

impl Door {
    fn new(listener: TcpListener) -> Door {
        Door {
            listener,
            free: AtomicU64::new(0),
            silent: AtomicU64::new(0),
            is_closed: AtomicBool::new(false),
        }
    }

    pub(crate) fn listener(&self) -> &TcpListener {
        &self.listener
    }

    pub(crate) fn has_silent_callers(&self) -> bool {
        self.silent.load(Ordering::SeqCst) != 0
    }

    /// Whether a caller waits, or may, and no worker is free to see to it.
    pub(crate) fn is_crowded(&self) -> bool {
        self.free.load(Ordering::SeqCst) == 0
            && (self.has_silent_callers() || is_there(&self.listener))
    }
}

/// A connection that has sent nothing yet.
#[derive(Drop)]
struct Silent {
    stream: TcpStream,
    since: Instant,
}

/// Listens at an address. Workers take it in turn. A connection is given once it has sent something, so that silent ones hold no worker.
pub struct SocketListener {
    rt: HostRuntime,
    door: Arc<Door, Global>,
    /// The longest silent first.
    silent: Vec<Silent>,
    faults: u64,
}

impl Drop for SocketListener {
    fn drop(self) {
        let SocketListener {
            rt: _,
            door: _,
            silent: _,
            faults: _,
        } = self;
    }
}

/// Ends the waits at a listener.
pub struct Closer {
    door: Arc<Door, Global>,
}

impl Drop for Closer {
    fn drop(self) {
        let Closer { door: _ } = self;
    }
}

impl Closer {
    /// From now on each `accept` of the listener fails, one that waits already too.
    pub fn close(&self) {
        self.door.is_closed.store(true, Ordering::SeqCst);
        shutdown(self.door.listener.as_raw_fd(), SHUT_RDWR);
    }

    /// Whether the listener was closed here.
    pub fn is_closed(&self) -> bool {
        self.door.is_closed.load(Ordering::SeqCst)
    }
}

impl SocketListener {
    /// Listens at `HOST:PORT`. What it accepts has the options that are set here.
    pub fn bind(rt: HostRuntime, address: &str) -> io::Result<SocketListener>
        ensures { IfOk result (λ listener. ⟦<SocketListener as Listener>⟧.faults listener ≡ 0) }
    {
        let listener = TcpListener::bind(&rt, address)?;
        set_up(&listener)?;
        let door = Arc::new(rt.alloc(), Door::new(listener))?;
        Ok(SocketListener {
            rt,
            door,
            silent: Vec::new(rt.alloc()),
            faults: 0,
        })
    }

    /// The port that it listens at, which the system picks where the address has port 0.
    pub fn port(&self) -> io::Result<u16> {
        Ok(self.door.listener.local_addr()?.port())
    }

    pub fn closer(&self) -> io::Result<Closer> {
        Ok(Closer {
            door: Arc::try_clone(&self.door)?,
        })
    }

    /// The next connection that has sent something, as its two sides. Where none can be taken it waits before the next try, and for want
    /// of descriptors or memory it goes on so for as long as these lack.
    fn next_sides(&mut self) -> io::Result<(SocketSource, SocketSink)>
        ensures { self.new.faults ≡ self.old.faults }
    {
        let mut failed = 0u32;
        for _ in 0..u64::MAX {
            match self.try_sides() {
                Ok(Some(sides)) => return Ok(sides),
                Ok(None) => failed = 0,
                Err(error) => {
                    if !is_want(&error) {
                        failed = failed.saturating_add(1);
                    }
                    if failed > ACCEPT_TRIES || self.door.is_closed.load(Ordering::SeqCst) {
                        return Err(error);
                    }
                    self.make_room();
                }
            }
        }
        Err(io::Error::from(ErrorKind::Other))
    }

    /// The two sides of a caller, if one came. A caller for whose sides there is no memory is let go.
    fn try_sides(&mut self) -> io::Result<Option<(SocketSource, SocketSink)>>
        ensures { self.new.faults ≡ self.old.faults }
    {
        match self.try_next()? {
            Some(stream) => Ok(Some(self.sides_of(stream)?)),
            None => Ok(None),
        }
    }

    fn sides_of(&self, stream: TcpStream) -> Result<(SocketSource, SocketSink), AllocError> {
        let door = Arc::try_clone(&self.door)?;
        sides(self.rt, stream, Some(door))
    }

    /// Waits for a caller or for a silent one to say something.
    fn try_next(&mut self) -> io::Result<Option<TcpStream>>
        ensures { self.new.faults ≡ self.old.faults }
    {
        if !self.silent.is_empty() {
            if let Some(stream) = self.next_silent()? {
                return Ok(Some(stream));
            }
            self.forget_silent()?;
            if !is_there(&self.door.listener) {
                return Ok(None);
            }
        }
        self.next_caller()
    }

    /// Waits for the listener and the silent callers. Takes the first of these that has sent something, or left.
    fn next_silent(&mut self) -> io::Result<Option<TcpStream>>
        ensures { self.new.faults ≡ self.old.faults }
    {
        match self.first_to_speak()? {
            Some(at) if at < self.silent.len() => Ok(Some(self.silent.remove(at).stream)),
            _ => Ok(None),
        }
    }

    /// Waits for a caller. One that sends nothing is kept.
    fn next_caller(&mut self) -> io::Result<Option<TcpStream>>
        ensures { self.new.faults ≡ self.old.faults }
    {
        match next_stream(&self.door.listener) {
            Ok(stream) => self.take(stream),
            Err(error) if is_no_fault(error.kind()) => Ok(None),
            Err(error) => Err(error),
        }
    }

    /// Gives a caller that sends something before the next one comes, and keeps another. Where silent ones are there already, nobody is
    /// waited for here.
    fn take(&mut self, stream: TcpStream) -> io::Result<Option<TcpStream>>
        ensures { self.new.faults ≡ self.old.faults }
    {
        let since = Instant::now(&self.rt)?;
        let speaks = if self.silent.is_empty() {
            let limit = Duration::from_secs(LOOK_SECONDS);
            comes_first(&stream, &self.door.listener, limit)
        } else {
            is_there(&stream)
        };
        if speaks {
            return Ok(Some(stream));
        }
        self.keep_silent(Silent { stream, since })?;
        Ok(None)
    }

    /// Waits for the listener and the silent callers. Gives the place of the first of these that has sent something, or left.
    fn first_to_speak(&self) -> io::Result<Option<usize>> {
        let mut asked = Vec::new(self.rt.alloc());
        for each in &self.silent {
            asked.push(awaited(&each.stream))?;
        }
        asked.push(awaited(&self.door.listener))?;
        poll(
            asked.as_mut_slice(),
            millis_of(Duration::from_secs(LOOK_SECONDS)),
        );
        Ok(first_answered(asked.as_slice(), self.silent.len()))
    }

    /// Keeps a caller that has sent nothing yet, and lets the longest silent one go where there are too many.
    fn keep_silent(&mut self, caller: Silent) -> io::Result<()>
        ensures { self.new.faults ≡ self.old.faults }
    {
        if self.silent.len() >= SILENT_CALLERS {
            self.let_go_first();
        }
        self.silent.push(caller)?;
        Ok(())
    }

    /// Lets those go that have been silent for too long.
    fn forget_silent(&mut self) -> io::Result<()>
        ensures { self.new.faults ≡ self.old.faults }
    {
        for _ in 0..self.silent.len() {
            if !self.first_is_over()? {
                break;
            }
            self.let_go_first();
        }
        Ok(())
    }

    /// Whether the longest silent caller has been so for too long.
    fn first_is_over(&self) -> io::Result<bool> {
        let limit = Duration::from_secs(SILENT_SECONDS);
        match self.silent.first() {
            Some(first) => is_over(&self.rt, first.since, limit),
            None => Ok(false),
        }
    }

    /// Lets the longest silent caller go.
    fn let_go_first(&mut self)
        ensures { self.new.faults ≡ self.old.faults }
    {
        if !self.silent.is_empty() {
            drop(self.silent.remove(0));
        }
    }

    /// Lets the longest silent caller go, since descriptors may lack, or waits a little.
    fn make_room(&mut self)
        ensures { self.new.faults ≡ self.old.faults }
    {
        if self.silent.is_empty() {
            thread::sleep(&self.rt, Duration::from_millis(ACCEPT_AGAIN_MILLIS));
        } else {
            self.let_go_first();
        }
    }
}

/// The first of these descriptors for which something came, among the first `count`.
fn first_answered(asked: &[pollfd], count: usize) -> Option<usize> {
    for at in 0..asked.len() {
        if at < count && asked[at].revents != 0 {
            return Some(at);
        }
    }
    None
}

/// Sets the options of the connections that come, and how many may wait.
fn set_up(listener: &TcpListener) -> io::Result<()> {
    let sockets = TcpStream::from(OwnedFd::from(listener.try_clone()?));
    sockets.set_read_timeout(Some(Duration::from_secs(READ_OR_WRITE_SECONDS)))?;
    set_writing(&sockets)?;
    keep_alive(listener)?;
    if listen(listener.as_raw_fd(), WAITING_CALLERS) != 0 {
        return Err(io::Error::from(ErrorKind::Other));
    }
    Ok(())
}

/// Sets how long a write waits at once, and that small ones are sent at once.
pub(crate) fn set_writing(stream: &TcpStream) -> io::Result<()> {
    stream.set_write_timeout(Some(Duration::from_secs(WAIT_SECONDS)))?;
    stream.set_nodelay(true)
}

/// Whether nobody came within the limit of a wait, a signal did, or a caller has left.
fn is_no_fault(kind: ErrorKind) -> bool {
    matches!(
        kind,
        ErrorKind::WouldBlock | ErrorKind::Interrupted | ErrorKind::ConnectionAborted
    )
}

impl Listener for SocketListener {
    type In = SocketSource;

    type Out = SocketSink;

    ghost are_sides = { λ _ _. Unit };

    ghost given = { λ _. None };

    ghost faults = { λ l. l.faults };

    fn accept(&mut self) -> Result<(SocketSource, SocketSink), Failed> {
        self.door.free.fetch_add(1, Ordering::SeqCst);
        let next = self.next_sides();
        let silent = self.silent.len() as u64;
        self.door.silent.store(silent, Ordering::SeqCst);
        self.door.free.fetch_sub(1, Ordering::SeqCst);
        match next {
            Ok(sides) => Ok(sides),
            Err(_) => {
                self.faults = self.faults.saturating_add(1);
                Err(Failed)
            }
        }
    }
}
