//! Calls of the system for sockets, where fewer do than the library makes.
use crate::limits::{KEEP_AGAIN_SECONDS, KEEP_SILENT_SECONDS, KEEP_TRIES};
use libc::net::{
    AF_INET, IPPROTO_TCP, SO_KEEPALIVE, SOCK_CLOEXEC, SOCK_STREAM, SOL_SOCKET, TCP_KEEPCNT,
    TCP_KEEPIDLE, TCP_KEEPINTVL, accept4, connect, setsockopt, socket,
};
use os::FromRawFd;
use std::io::{self, ErrorKind};
use std::net::{SocketAddrV4, TcpListener, TcpStream};
use std::os::fd::{AsRawFd, OwnedFd, RawFd};
use std::time::Duration;

/// How often a connection is waited for again that a signal interrupts.
const TRIES: u32 = 1000;

/// How many bytes of an address of four numbers the system reads.
const ADDRESS_BYTES: u32 = 16;

/// How many bytes of an option that is a number the system reads.
const OPTION_BYTES: u32 = 4;

/// No descriptor is free in the whole system.
const ENFILE: i32 = 23;

/// The system has no memory for a socket.
const ENOBUFS: i32 = 105;

/// Whether descriptors or memory lack, here or in the whole system, which passes once others give some back.
pub(crate) fn is_want(error: &io::Error) -> bool {
    error.kind() == ErrorKind::OutOfMemory
        || matches!(error.raw_os_error(), Some(libc::EMFILE | ENFILE | ENOBUFS))
}

/// Why the system refused the last call.
fn last_error() -> io::Error {
    io::Error::from_raw_os_error(os::errno())
}

/// The stream of a descriptor that the system has just made, and nobody else has.
fn stream_of(fd: RawFd) -> io::Result<TcpStream> {
    if fd < 0 {
        return Err(last_error());
    }
    Ok(TcpStream::from(unsafe { OwnedFd::from_raw_fd(fd) }))
}

/// A stream to an address of four numbers. It waits as a write does, for which the limit is set before: the library asks the system
/// twice more, since it waits by itself.
pub(crate) fn stream_to(address: SocketAddrV4, limit: Duration) -> io::Result<TcpStream> {
    let stream = stream_of(unsafe { socket(AF_INET, SOCK_STREAM | SOCK_CLOEXEC, 0) })?;
    stream.set_write_timeout(Some(limit))?;
    let raw = raw_address(address);
    for _ in 0..TRIES {
        if unsafe { connect(stream.as_raw_fd(), &raw, ADDRESS_BYTES) } == 0 {
            return Ok(stream);
        }
        let error = last_error();
        // one that a signal interrupts goes on, and the next call waits for it
        if error.kind() != ErrorKind::Interrupted {
            return Err(error);
        }
    }
    Err(io::Error::from(ErrorKind::Interrupted))
}

/// The family, the port and the four numbers of an address, as the system reads them.
fn raw_address(address: SocketAddrV4) -> [u8; 128] {
    let [low, high] = (AF_INET as u16).to_ne_bytes();
    let port = address.port();
    let [first, second, third, fourth] = address.ip().octets();
    let mut raw = [0; 128];
    raw[0] = low;
    raw[1] = high;
    raw[2] = (port / 256) as u8;
    raw[3] = (port % 256) as u8;
    raw[4] = first;
    raw[5] = second;
    raw[6] = third;
    raw[7] = fourth;
    raw
}

/// The next connection of a listener, whoever called.
pub(crate) fn next_stream(listener: &TcpListener) -> io::Result<TcpStream> {
    let mut address = [0; 128];
    let mut len = 128;
    let fd = unsafe { accept4(listener.as_raw_fd(), &mut address, &mut len, SOCK_CLOEXEC) };
    stream_of(fd)
}

/// Has the system ask a silent peer whether it is still there, so that one that is gone without a word is found. What a listener accepts
/// has this from the listener.
pub(crate) fn keep_alive(socket: &impl AsRawFd) -> io::Result<()> {
    let fd = socket.as_raw_fd();
    let (on, silent) = (option_of(1), option_of(KEEP_SILENT_SECONDS));
    let (again, tries) = (option_of(KEEP_AGAIN_SECONDS), option_of(KEEP_TRIES));
    // each call names its option, so that the check can tell that the system takes it
    check(unsafe { setsockopt(fd, SOL_SOCKET, SO_KEEPALIVE, &on, OPTION_BYTES) })?;
    check(unsafe { setsockopt(fd, IPPROTO_TCP, TCP_KEEPIDLE, &silent, OPTION_BYTES) })?;
    check(unsafe { setsockopt(fd, IPPROTO_TCP, TCP_KEEPINTVL, &again, OPTION_BYTES) })?;
    check(unsafe { setsockopt(fd, IPPROTO_TCP, TCP_KEEPCNT, &tries, OPTION_BYTES) })
}

/// A number as the system reads it in an option.
fn option_of(number: i32) -> [u8; 16] {
    let [first, second, third, fourth] = number.to_ne_bytes();
    let mut option = [0; 16];
    option[0] = first;
    option[1] = second;
    option[2] = third;
    option[3] = fourth;
    option
}

/// Whether a call of the system succeeded, or why not.
fn check(status: i32) -> io::Result<()> {
    if status < 0 {
        Err(last_error())
    } else {
        Ok(())
    }
}
