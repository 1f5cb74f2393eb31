//! Trusted: the ports of a process.
//!
//! It binds a socket at a port once, and gives further handles of it. A contract knows nothing of what it gives.

use std::io;
use std::io::ErrorKind;
use std::net::{Ipv4Addr, Ipv6Addr, Net, TcpListener, TcpStream};
use std::os::fd::AsRawFd;

/// A port that is bound.
#[derive(Drop)]
pub struct Port {
    number: u16,
    listener: TcpListener,
}

/// Whether this machine has no IPv6: the system knows no such addresses, or none of them is here.
fn is_without_ipv6(error: &io::Error) -> bool {
    error.kind() == ErrorKind::AddrNotAvailable || error.raw_os_error() == Some(libc::EAFNOSUPPORT)
}

/// Listens at a port, for IPv6 and IPv4 together where the machine has both, or for IPv4 alone. A port that another program has for
/// either, or that is not allowed, is refused.
fn bound<R: Net<Listener = TcpListener, Stream = TcpStream>>(
    rt: &R,
    port: u16,
) -> io::Result<TcpListener> {
    match TcpListener::bind(rt, (Ipv6Addr::UNSPECIFIED, port)) {
        Err(error) if is_without_ipv6(&error) => {
            TcpListener::bind(rt, (Ipv4Addr::UNSPECIFIED, port))
        }
        answer => answer,
    }
}

/// The same listener behind the numbers of the standard streams: where one of these was closed, what is printed must not meet it.
fn apart(listener: TcpListener) -> io::Result<TcpListener> {
    if listener.as_raw_fd() <= 2 {
        return listener.try_clone();
    }
    Ok(listener)
}

/// A handle of the listener of this port, which is bound at the first call.
pub(crate) fn listener_at<R: Net<Listener = TcpListener, Stream = TcpStream>>(
    rt: &R,
    ports: &mut Vec<Port>,
    port: u16,
) -> io::Result<TcpListener> {
    for known in ports.iter() {
        if known.number == port {
            return known.listener.try_clone();
        }
    }
    let listener = apart(bound(rt, port)?)?;
    let door = listener.try_clone()?;
    ports.push(Port {
        number: port,
        listener,
    })?;
    Ok(door)
}
