//! Waits with a limit.
use libc::net::{POLLIN, POLLRDHUP, poll};
use libc::types::pollfd;
use std::os::fd::{AsRawFd, RawFd};
use std::time::{Duration, Instant};
use std::{io, thread};

/// What is left of a time that began at an instant. `None`: it is over.
pub(crate) fn time_left(
    rt: &HostRuntime,
    begun: Instant,
    limit: Duration,
) -> io::Result<Option<Duration>> {
    Ok(match limit.checked_sub(begun.elapsed(rt)?) {
        Some(left) if !left.is_zero() => Some(left),
        _ => None,
    })
}

/// Whether a time that began at an instant is over.
pub(crate) fn is_over(rt: &HostRuntime, begun: Instant, limit: Duration) -> io::Result<bool> {
    Ok(time_left(rt, begun, limit)?.is_none())
}

/// Sleeps so many milliseconds, and says how many it should be the next time: twice as many, up to 50.
pub(crate) fn pause(rt: &HostRuntime, millis: u64) -> u64 {
    thread::sleep(rt, Duration::from_millis(millis));
    millis.saturating_mul(2).min(50)
}

/// A descriptor whose bytes, connections or end are waited for.
pub(crate) fn awaited(fd: &impl AsRawFd) -> pollfd {
    pollfd {
        fd: fd.as_raw_fd(),
        events: POLLIN,
        revents: 0,
    }
}

/// Milliseconds as `poll` takes them, at least one, so that a wait of less doesn't spin.
pub(crate) fn millis_of(limit: Duration) -> i32 {
    limit.as_millis().clamp(1, 1_000_000) as i32
}

/// Whether something comes within this time. A signal counts as something.
pub(crate) fn comes_within(fd: &impl AsRawFd, limit: Duration) -> bool {
    poll(&mut [awaited(fd)], millis_of(limit)) != 0
}

/// Whether something is there.
pub(crate) fn is_there(fd: &impl AsRawFd) -> bool {
    poll(&mut [awaited(fd)], 0) > 0
}

/// Whether the peer of a socket sends no more. It has left, or has shut its sending side alone: nothing tells these apart.
pub(crate) fn has_ended(fd: &impl AsRawFd) -> bool {
    let asked = pollfd {
        fd: fd.as_raw_fd(),
        events: POLLRDHUP,
        revents: 0,
    };
    poll(&mut [asked], 0) > 0
}

/// Whether something comes within this time for the first of the two, and before something comes for the other.
pub(crate) fn comes_first(fd: &impl AsRawFd, other: &impl AsRawFd, limit: Duration) -> bool {
    let mut asked = [awaited(fd), awaited(other)];
    poll(&mut asked, millis_of(limit));
    asked[0].revents != 0
}
