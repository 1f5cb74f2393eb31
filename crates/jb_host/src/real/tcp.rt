//! Trusted: the connection of a caller over TCP.
//!
//! It reads and writes a socket, sets what it does at once, waits so long as a caller may be silent or take no more, lets a refusal
//! wait, and closes the socket. A contract knows its counts, and no byte: not what came, not that what is called sent was, no moment, and
//! no line that the operator is told.
ghost use Rattle.std.specs.Prelude.{◌≡◌, ◌≤◌, ℕ, IfOk, length};
ghost use Rattle.jb_host.specs.Real.{silent_wire};

use crate::answers::{read_of, write_of};
use crate::link::{Learned, Link, LinkFailed};
use crate::real::synch::{read_marked, told_of};
use crate::telnet::ends_in_iac;
use libc::net::{POLLIN, POLLPRI};
use std::io::{ErrorKind, Read, Write};
use std::net::{Shutdown, SocketAddr, TcpStream};
use std::os::fd::AsRawFd;
use std::time::{Duration, Instant};
use std::{io, thread, time};

/// Seconds from the moment that a caller is taken, in which somebody logs in; then a read fails.
pub const MOST_LOGIN_SECONDS: u64 = 120;
/// Seconds for which a caller who has logged in may be silent.
pub const MOST_SILENT_SECONDS: u64 = 1_800;
/// Seconds from the moment that a reader of news is taken, in which the first line ends; and for which a reader may be silent then.
pub const MOST_FIRST_LINE_SECONDS: u64 = 60;

pub const MOST_SILENT_READER_SECONDS: u64 = 600;
/// Seconds in which a caller takes a piece of what is sent, so many bytes; then a write fails. While nobody has logged in, it fails when
/// a read would.
pub const MOST_STUCK_SECONDS: u64 = 600;

pub const PIECE_BYTES: usize = 65_536;
/// Seconds for which one write of the system waits. It is made anew until the piece is taken: the system wakes who waits only when much
/// of what it holds was taken, but gives room for less to who asks.
const WRITE_SECONDS: u64 = 1;
/// Seconds that a refused log-in waits for its answer.
const REFUSED_SECONDS: u64 = 2;
/// Seconds for which the end of a caller is waited for, once it is hung up, in so many reads of so many bytes at most.
const LAST_SECONDS: u64 = 1;

const LAST_READS: u32 = 16;

const LAST_BYTES: usize = 4_096;
/// How often a call is made again where a signal came between, and a caller is waited for where one went at once.
pub(crate) const TRIES: u32 = 16;

/// The connection of a caller. What is sent goes out at once.
#[derive(Drop)]
pub struct TcpLink<R: Eprint + time::Clock + Drop> {
    rt: R,
    node: u32,
    peer: SocketAddr,
    stream: TcpStream,
    taken: Instant,
    is_reader: bool,
    // Somebody has logged in, or the first line of a reader has ended.
    is_known: bool,
    is_silent: bool,
    // What was given ends in an IAC of Telnet that is not half of a doubled one; the mark of a Synch may come.
    is_behind_iac: bool,
    // The piece that is being sent: how much of it is left, and since when.
    piece_left: usize,
    piece_begun: Instant,
    faults: u64,
    ends: u64,
    unsent: u64,
}

impl<R: Eprint + time::Clock + Drop> TcpLink<R> {
    /// A link of this node over the connection of this caller, unless the connection refuses what a link needs.
    pub fn new(rt: R, node: u32, stream: TcpStream, peer: SocketAddr) -> io::Result<TcpLink<R>>
        ensures { IfOk result (λ link. silent_wire link.faults link.ends link.unsent ≡ silent_wire 0 0 0) }
    {
        // As for a port, the numbers of the standard streams are left alone.
        let stream = if stream.as_raw_fd() <= 2 {
            stream.try_clone()?
        } else {
            stream
        };
        stream.set_nodelay(true)?;
        stream.set_write_timeout(Some(Duration::from_secs(WRITE_SECONDS)))?;
        let taken = Instant::now(&rt)?;
        Ok(TcpLink {
            rt,
            node,
            peer: SocketAddr::new(peer.ip().to_canonical(), peer.port()),
            stream,
            taken,
            is_reader: false,
            is_known: true,
            is_silent: false,
            is_behind_iac: false,
            piece_left: 0,
            piece_begun: taken,
            faults: 0,
            ends: 0,
            unsent: 0,
        })
    }

    // For how many seconds the caller may be silent now; in all, while nobody is known.
    fn most_silent(&self) -> u64 {
        match (self.is_reader, self.is_known) {
            (false, false) => MOST_LOGIN_SECONDS,
            (false, true) => MOST_SILENT_SECONDS,
            (true, false) => MOST_FIRST_LINE_SECONDS,
            (true, true) => MOST_SILENT_READER_SECONDS,
        }
    }

    // What is left of so many seconds since a moment, and of those in which the caller has to be known.
    fn time_left(&self, since: Instant, seconds: u64) -> io::Result<Duration> {
        let now = Instant::now(&self.rt)?;
        let left = Duration::from_secs(seconds).saturating_sub(now.duration_since(since));
        if self.is_known {
            return Ok(left);
        }
        let most = Duration::from_secs(self.most_silent());
        Ok(left.min(most.saturating_sub(now.duration_since(self.taken))))
    }

    // Waits for one of these events, as long as the caller may be silent.
    fn wait_for(&mut self, events: i16) -> io::Result<i16>
        ensures faults { self.new.faults ≡ self.old.faults }
        ensures ends { self.new.ends ≡ self.old.ends }
        ensures unsent { self.new.unsent ≡ self.old.unsent }
    {
        let left = self.time_left(Instant::now(&self.rt)?, self.most_silent())?;
        if !left.is_zero() {
            let told = told_of(&self.stream, events, milliseconds(left));
            if told != 0 {
                return Ok(told);
            }
        }
        self.is_silent = true;
        Err(ErrorKind::TimedOut.into())
    }

    // Reads what comes in time.
    fn read_in_time(&mut self, into: &mut [u8]) -> io::Result<usize>
        ensures within { IfOk result (λ n. n ≤ length into.old) }
        ensures faults { self.new.faults ≡ self.old.faults }
        ensures ends { self.new.ends ≡ self.old.ends }
        ensures unsent { self.new.unsent ≡ self.old.unsent }
    {
        let told = self.wait_for(POLLIN | POLLPRI)?;
        if told & POLLPRI == 0 || into.len() < 2 {
            return read_some(&mut self.stream, into);
        }
        // An urgent byte is next, and nothing behind it yet.
        if told & POLLIN == 0 && !self.is_behind_iac {
            let _ = self.wait_for(POLLIN)?;
        }
        read_marked(&mut self.stream, into, self.is_behind_iac, told)
    }

    // Sends some of a piece while there is time for it.
    fn write_in_time(&mut self, bytes: &[u8]) -> io::Result<usize>
        ensures within { IfOk result (λ n. n ≤ length bytes.now) }
        ensures faults { self.new.faults ≡ self.old.faults }
        ensures ends { self.new.ends ≡ self.old.ends }
        ensures unsent { self.new.unsent ≡ self.old.unsent }
    {
        if self.piece_left == 0 {
            self.piece_left = bytes.len().min(PIECE_BYTES);
            self.piece_begun = Instant::now(&self.rt)?;
        }
        let piece = &bytes[..bytes.len().min(self.piece_left)];
        let left = self.time_left(self.piece_begun, MOST_STUCK_SECONDS)?;
        write_within(&self.rt, &mut self.stream, piece, left)
    }

    /// Ends the connection. What the caller still sends is taken for a short while first, since the last bytes that were sent to it are
    /// lost where some of its own are not taken.
    pub(crate) fn close(self) {
        let mut stream = self.stream;
        let mut piece = [0u8; LAST_BYTES];
        let _ = stream.shutdown(Shutdown::Write);
        let Ok(begun) = Instant::now(&self.rt) else {
            return;
        };
        for _ in 0..LAST_READS {
            let Ok(passed) = begun.elapsed(&self.rt) else {
                return;
            };
            let left = Duration::from_secs(LAST_SECONDS).saturating_sub(passed);
            if left.is_zero() || told_of(&stream, POLLIN, milliseconds(left)) == 0 {
                return;
            }
            if !matches!(stream.read(&mut piece), Ok(1..)) {
                return;
            }
        }
    }
}

/// A time in whole milliseconds, and one more.
fn milliseconds(time: Duration) -> i32 {
    i32::try_from(time.as_millis()).map_or(i32::MAX, |count| count.saturating_add(1))
}

/// Reads, again where a signal came between.
pub(crate) fn read_some(stream: &mut TcpStream, into: &mut [u8]) -> io::Result<usize>
    ensures { IfOk result (λ n. n ≤ length into.old) }
{
    for _ in 0..TRIES {
        match stream.read(into) {
            Err(error) if error.kind() == ErrorKind::Interrupted => {}
            done => return done,
        }
    }
    Err(io::Error::from(ErrorKind::Interrupted))
}

/// Writes, again where a signal came between.
fn write_some(stream: &mut TcpStream, bytes: &[u8]) -> io::Result<usize>
    ensures { IfOk result (λ n. n ≤ length bytes.now) }
{
    for _ in 0..TRIES {
        match stream.write(bytes) {
            Err(error) if error.kind() == ErrorKind::Interrupted => {}
            done => return done,
        }
    }
    Err(io::Error::from(ErrorKind::Interrupted))
}

/// Writes, again while there is no room and so much time is left.
fn write_within<R: time::Clock>(
    rt: &R,
    stream: &mut TcpStream,
    bytes: &[u8],
    left: Duration,
) -> io::Result<usize>
    ensures { IfOk result (λ n. n ≤ length bytes.now) }
{
    let begun = Instant::now(rt)?;
    for _ in 0..u32::MAX {
        match write_some(stream, bytes) {
            Err(error) if error.kind() == ErrorKind::WouldBlock => {}
            done => return done,
        }
        if begun.elapsed(rt)? >= left {
            break;
        }
    }
    Err(ErrorKind::TimedOut.into())
}

impl<R: Eprint + time::Clock + Drop> Link for TcpLink<R> {
    ghost wire = { λ link. silent_wire link.faults link.ends link.unsent };

    fn read(&mut self, into: &mut [u8]) -> Result<usize, LinkFailed> {
        let answer = self.read_in_time(into);
        if let Ok(n) = answer {
            self.is_behind_iac = ends_in_iac(&into[..n], self.is_behind_iac);
            self.is_known = self.is_known || self.is_reader && into[..n].contains(&b'\n');
        }
        read_of(answer, into.len(), &mut self.faults, &mut self.ends)
    }

    fn write(&mut self, bytes: &[u8]) -> Result<usize, LinkFailed> {
        let answer = self.write_in_time(bytes);
        if let Ok(n) = answer {
            self.piece_left = self.piece_left.saturating_sub(n);
        }
        write_of(answer, bytes.len(), &mut self.faults, &mut self.unsent)
    }

    fn note(&mut self, line: &str) {
        let (node, peer) = (self.node, self.peer);
        let _ = eprintln!(self.rt; "node {node}: {peer} {line}");
    }

    fn learn(&mut self, what: Learned) {
        match what {
            Learned::IsReader => self.is_reader = true,
            Learned::LoggedIn => self.is_known = true,
            Learned::Refused => thread::sleep(&self.rt, Duration::from_secs(REFUSED_SECONDS)),
        }
    }

    fn silence(&self) -> Option<u64> {
        self.is_silent.then_some(self.most_silent())
    }
}
