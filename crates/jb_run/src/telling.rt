//! What the operator is told of a run: that callers may come, what the areas then hold, and whose password all may know.
ghost use Rattle.std.specs.Prelude.{◌≡◌, ◌≤◌, IsTrue, length};
ghost use Rattle.std.specs.List.{list_all};
ghost use Rattle.jb_conf.specs.Ranges.{is_printed};
ghost use Rattle.jb_run.specs.Telling.{AreNamed, area_line, listening_line, news_line};

use arrayvec::ArrayString;
use itoa::Buffer;
use jb_conf::{Board, BoardArea, BoardUser};
use jb_host::{Door, Host};
use jb_server::Worker;

/// A line of at most 64 bytes; it takes no memory.
type Line = ArrayString<64>;

/// The digests of examples/board.toml: one that nobody has a password for, and those of two passwords that stand beside them.
const EXAMPLE_DIGESTS: [[u8; 32]; 3] = [
    [0; 32],
    *b"\xc8\x4c\x8b\xa6\x90\x37\xd5\xfd\x80\x21\x50\x41\x74\x03\xae\x73\xdc\x63\x5e\x2c\x63\xa8\x5b\xad\x33\x7f\xab\x10\x5a\x62\xbf\x29",
    *b"\xcb\xdf\x6a\xe7\x3a\x91\xaa\x13\x56\x12\xe9\xc2\x0f\xd0\x2a\xf5\x7f\x2c\xb3\x30\xa0\x33\xf1\x25\xb6\xc1\x21\xb7\x98\xf6\xdd\xbc",
];

/// The line of the port and the number of nodes, without its end.
fn listening_line(port: u16, nodes: u32) -> Line
    ensures { result.bytes ≡ listening_line port nodes }
{
    let mut digits = Buffer::new();
    let mut line = Line::new();
    line.push_str("listening port ");
    line.push_str(digits.format(port));
    line.push_str(" nodes ");
    line.push_str(digits.format(nodes));
    line
}

/// The line of the port of news, without its end.
fn news_line(port: u16) -> Line
    ensures { result.bytes ≡ news_line port }
{
    let mut digits = Buffer::new();
    let mut line = Line::new();
    line.push_str("news on port ");
    line.push_str(digits.format(port));
    line
}

/// The line of an area with so many live messages, without its end.
fn area_line(name: &[u8], live: usize) -> Line
    requires short { length name.now ≤ 24 }
    requires printed { IsTrue (list_all is_printed name.now) }
    ensures { result.bytes ≡ area_line name.now live }
{
    let mut digits = Buffer::new();
    let mut line = Line::new();
    let Ok(name) = str::from_utf8(name) else {
        unreachable!()
    };
    line.push_str("area ");
    line.push_str(name);
    line.push_str(" live ");
    line.push_str(digits.format(live));
    line
}

/// Tells at which port readers of news may come, where they may.
fn tell_news<H: Host>(host: &mut H, port: Option<u16>)
    ensures { H.desk host.new ≡ H.desk host.old }
{
    if let Some(port) = port {
        let line = news_line(port);
        host.note(line.as_str());
    }
}

/// Tells each area with its number of live messages.
fn tell_areas<H: Host>(host: &mut H, areas: &[BoardArea], live: &[usize])
    requires named { AreNamed areas.now }
    ensures { H.desk host.new ≡ H.desk host.old }
{
    for (area, live) in areas.iter().zip(live) {
        let line = area_line(area.name.as_slice(), *live);
        host.note(line.as_str());
    }
}

/// The line of a user whose digest is one of the example, without its end.
fn example_line(place: usize) -> Line {
    let mut digits = Buffer::new();
    let mut line = Line::new();
    line.push_str("user.");
    line.push_str(digits.format(place));
    line.push_str(".digest is one of the example");
    line
}

/// Tells each user, counted from 1, whose digest is one of the example.
fn tell_examples<H: Host>(host: &mut H, users: &[BoardUser])
    ensures { H.desk host.new ≡ H.desk host.old }
{
    for (at, user) in users.iter().enumerate() {
        if EXAMPLE_DIGESTS.iter().any(|it| *it == user.digest) {
            let line = example_line(at.saturating_add(1));
            host.note(line.as_str());
        }
    }
}

/// The port of the board; where that is 0 the system has picked one, which the doors know.
pub(crate) fn port_of<D: Door, B, C, E>(board: &Board, workers: &Vec<Worker<D, B, C, E>>) -> u16 {
    match workers.as_slice().first() {
        Some(Worker::Node(slot)) => slot.door.port().unwrap_or(board.port),
        _ => board.port,
    }
}

/// The port of news in the same way, where there is one.
pub(crate) fn news_port_of<D: Door, B, C, E>(
    board: &Board,
    workers: &Vec<Worker<D, B, C, E>>,
) -> Option<u16> {
    match workers.as_slice().last() {
        Some(Worker::News(slot)) => slot.door.port().or(board.news_port),
        _ => board.news_port,
    }
}

/// Tells at which port callers may come and how many at once, at which readers of news, each area with its number of live messages, and
/// each user whose digest is one of the example.
pub(crate) fn tell_open<H: Host>(
    host: &mut H,
    board: &Board,
    port: u16,
    news: Option<u16>,
    live: &[usize],
)
    ensures { H.desk host.new ≡ H.desk host.old }
{
    let line = listening_line(port, board.nodes);
    host.note(line.as_str());
    tell_news(host, news);
    tell_areas(host, board.areas.as_slice(), live);
    tell_examples(host, board.users.as_slice());
}
