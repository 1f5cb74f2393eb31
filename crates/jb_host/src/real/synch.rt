//! Trusted: the marks of Telnet's Synch, which come as urgent data.
//!
//! It asks the system what is to be read of a connection (`poll`), and reads it. A contract knows how long the bytes are, and not that
//! a mark stands where it was sent.
//!
//! A Synch is IAC and the data mark. A caller sends one of the two as urgent: the mark, as the standard has it, or the IAC, as GNU's
//! telnet does. The system takes an urgent byte out of what it gives, and would join what stands around it; the option that leaves the
//! byte in its place (SO_OOBINLINE) cannot be had here. But a read ends before an urgent byte, and the system tells whether one is still
//! to come. So an IAC that is the last byte of a read waits for its mark, and a mark that is the first byte of one has lost its IAC.
//! What the urgent byte was is not told: another command that is sent so is read as a mark, too.
ghost use Rattle.std.specs.Prelude.{◌≤◌, ℕ, IfOk, length};

use crate::real::tcp::{TRIES, read_some};
use crate::telnet::{DATA_MARK, IAC, put_dropped_mark, put_iac, put_mark};
use libc::net::{POLLIN, POLLPRI, poll};
use libc::types::pollfd;
use std::io;
use std::net::TcpStream;
use std::os::fd::AsRawFd;

/// What the system tells of a connection: which of these events is there, or its end. Waits for one of these for so long, again where
/// a signal came between, and tells nothing where none came.
pub(crate) fn told_of(stream: &TcpStream, events: i16, milliseconds: i32) -> i16 {
    let mut asked = [pollfd {
        fd: stream.as_raw_fd(),
        events,
        revents: 0,
    }];
    for _ in 0..TRIES {
        if poll(&mut asked, milliseconds) >= 0 {
            break;
        }
    }
    asked[0].revents
}

/// Reads behind an IAC where an urgent byte is to come, and puts the mark of a Synch back in its place; the system tells this now. Where
/// the mark is due right behind another IAC, it is of that one: the system has dropped the mark before, which is put back, too.
fn read_behind_iac(stream: &mut TcpStream, into: &mut [u8], told: i16) -> io::Result<usize>
    requires { 2 ≤ length into.old }
    ensures { IfOk result (λ n. n ≤ length into.old) }
{
    if told & POLLIN == 0 {
        into[0] = DATA_MARK;
        return Ok(1);
    }
    // The mark comes next or later. A read that starts at the mark passes it.
    let n = read_some(stream, &mut into[..1])?;
    let told = told_of(stream, POLLIN | POLLPRI, 0);
    let is_iac = into[0] == IAC;
    if told & POLLPRI == 0 || is_iac && told & POLLIN == 0 {
        put_mark(into);
        return Ok(n + 1);
    }
    if !is_iac || into.len() < 4 {
        return Ok(n);
    }
    let more = read_some(stream, &mut into[3..4])?;
    if told_of(stream, POLLIN | POLLPRI, 0) & POLLPRI != 0 {
        into[1] = into[3];
        return Ok(n + more);
    }
    put_dropped_mark(into);
    Ok(3 + more)
}

/// Reads where an urgent byte is next or to come, with something behind it, and puts what the system takes out of a Synch back in its
/// place.
pub(crate) fn read_marked(
    stream: &mut TcpStream,
    into: &mut [u8],
    is_behind_iac: bool,
    told: i16,
) -> io::Result<usize>
    requires { 2 ≤ length into.old }
    ensures { IfOk result (λ n. n ≤ length into.old) }
{
    if is_behind_iac {
        return read_behind_iac(stream, into, told);
    }
    let n = read_some(stream, &mut into[1..])?;
    Ok(put_iac(into, n))
}
