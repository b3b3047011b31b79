//! Connections to targets.
use crate::connection::{SocketSink, SocketSource, sides};
use crate::limits::{CONNECT_SECONDS, LET_GO_SECONDS, LOOK_AGAIN_MILLIS, WAIT_SECONDS};
use crate::sockets;
use crate::waiting::{is_over, time_left};
use hub_kit::target::Target;
use std::io::{self, ErrorKind};
use std::net::{SocketAddr, TcpStream, ToSocketAddrs};
use std::thread;
use std::time::{Duration, Instant};

/// `HOST:PORT` of a target.
pub(crate) fn address_of(target: &Target) -> &str {
    let text = target.as_text().as_str();
    match text.strip_prefix("http://") {
        Some(address) => address,
        None => text,
    }
}

/// A stream to the target. Most have their address as a number, and none is looked up.
fn stream_to(rt: &HostRuntime, target: &Target) -> io::Result<TcpStream> {
    let text = address_of(target);
    let limit = Duration::from_secs(CONNECT_SECONDS);
    match text.parse::<SocketAddr>() {
        Ok(address) => stream_at(rt, address, limit),
        Err(_) => stream_to_named(rt, text, limit),
    }
}

/// A stream to the first address of a name that answers, or the last error. All of them together have this time, once the name was looked
/// up: for that there is no limit.
fn stream_to_named(rt: &HostRuntime, text: &str, limit: Duration) -> io::Result<TcpStream> {
    let mut last = io::Error::from(ErrorKind::InvalidInput);
    let addresses = text.to_socket_addrs(rt)?;
    let begun = Instant::now(rt)?;
    for address in addresses {
        let Some(left) = time_left(rt, begun, limit)? else {
            break;
        };
        match stream_at(rt, address, left) {
            Ok(stream) => return Ok(stream),
            Err(error) => last = error,
        }
    }
    Err(last)
}

/// A stream to an address, if it is made within this time.
fn stream_at(rt: &HostRuntime, address: SocketAddr, limit: Duration) -> io::Result<TcpStream> {
    match address {
        SocketAddr::V4(numbers) => sockets::stream_to(numbers, limit),
        SocketAddr::V6(_) => TcpStream::connect_timeout(rt, &address, limit),
    }
}

/// Whether somebody listens at the target. It isn't known where no connection is made, and none is refused.
pub(crate) fn is_served(rt: &HostRuntime, target: &Target) -> io::Result<bool> {
    match stream_to(rt, target) {
        Ok(stream) => {
            drop(stream);
            Ok(true)
        }
        Err(error) if error.kind() == ErrorKind::ConnectionRefused => Ok(false),
        Err(error) => Err(error),
    }
}

/// Whether a target is still served once those that end have had time to let go of it.
pub(crate) fn is_held(rt: &HostRuntime, target: &Target) -> io::Result<bool> {
    let begun = Instant::now(rt)?;
    for _ in 0..10_000 {
        if !is_served(rt, target)? {
            return Ok(false);
        }
        if is_over(rt, begun, Duration::from_secs(LET_GO_SECONDS))? {
            break;
        }
        thread::sleep(rt, Duration::from_millis(LOOK_AGAIN_MILLIS));
    }
    Ok(true)
}

/// A connection to a target. What its writes need is set where one may wait. A read waits again and again, each time for as long as is
/// set here.
pub fn connect(rt: HostRuntime, target: &Target) -> io::Result<(SocketSource, SocketSink)> {
    connect_waiting(rt, target, Duration::from_secs(WAIT_SECONDS))
}

/// The same, where a read by `read_within` waits for so long at once.
pub fn connect_waiting(
    rt: HostRuntime,
    target: &Target,
    wait: Duration,
) -> io::Result<(SocketSource, SocketSink)> {
    let stream = stream_to(&rt, target)?;
    stream.set_read_timeout(Some(wait))?;
    Ok(sides(rt, stream, None)?)
}
