//! What the operator is told of a session: lines on its link, which say nothing of passwords and texts.
ghost use Rattle.std.specs.Prelude.{◌≡◌};

use crate::end::SessionEnd;
use arrayvec::ArrayString;
use jb_host::{Clock, Link};
use jb_menu::Given;
use jb_model::{Command, Reply};
use jb_speech::{Act, Request, Speaker};
use jb_state::SharedFault;
use std::fmt::Write;

/// A line takes no memory. What does not fit is left out.
type Line = ArrayString<96>;

type Shown = ArrayString<36>;

/// What an area did that the operator is to know of, with its place.
#[derive(Clone, Copy)]
enum Deed {
    Doubt(u32),
    Pack { area: u32, live: u32, dropped: u32 },
}

/// What is known of a session until now.
#[derive(Drop)]
pub(crate) struct Log {
    since: u32,
    /// The name whose password is awaited.
    tried: Option<Shown>,
    /// The name of who has logged in, if one has.
    user: Option<Shown>,
    deed: Option<Deed>,
    /// The area of which a doubt was ended.
    settled: Option<u32>,
}

/// A name as it is shown: its first bytes, with `?` in place of those that are not printed in ASCII.
fn shown(name: &[u8]) -> Shown {
    let mut shown = Shown::new();
    for byte in name {
        let is_printed = matches!(*byte, 32..=126);
        let _ = shown.try_push(if is_printed { char::from(*byte) } else { '?' });
    }
    shown
}

/// How a session ends, in words.
fn words_of(end: SessionEnd) -> &'static str {
    match end {
        SessionEnd::Quit => "left",
        SessionEnd::Hangup => "hung up",
        SessionEnd::LoginRefused => "three log-ins refused",
        SessionEnd::LinkFault => "the line broke",
        SessionEnd::Spent => "sent too much",
        SessionEnd::OutOfMemory => "no memory",
    }
}

impl Log {
    /// Tells that a caller has come, at this moment.
    pub(crate) fn begin<L: Link>(link: &mut L, since: u32) -> Log
        ensures { L.wire link.new ≡ L.wire link.old }
    {
        link.note("connected");
        Log {
            since,
            tried: None,
            user: None,
            deed: None,
            settled: None,
        }
    }

    /// Looks whose password is awaited, before more is heard.
    pub(crate) fn look<T: Speaker>(&mut self, talk: &T) {
        self.tried = talk.name_tried().map(shown);
    }

    /// Tells that a pack begins, where one is asked.
    pub(crate) fn ask<L: Link>(&self, link: &mut L, request: &Request)
        ensures { L.wire link.new ≡ L.wire link.old }
    {
        let Request::Area(asked) = request else {
            return;
        };
        if let Act::Ask(Command::Pack) = &asked.act {
            let mut line = Line::new();
            let area = asked.area.saturating_add(1);
            let _ = write!(line, "area {area}: pack begins");
            link.note(line.as_str());
        }
    }

    /// Keeps what the answer to a request of an area says of it, and whether a doubt was ended for it.
    pub(crate) fn keep(&mut self, request: &Request, given: &Given, has_settled: bool) {
        let Request::Area(asked) = request else {
            return;
        };
        let area = asked.area.saturating_add(1);
        if has_settled {
            self.settled = Some(area);
        }
        match given {
            Given::Fault(SharedFault::StoreFault) => self.deed = Some(Deed::Doubt(area)),
            Given::Reply(Reply::Packed { live, dropped, .. }) => {
                self.deed = Some(Deed::Pack {
                    area,
                    live: *live,
                    dropped: *dropped,
                });
            }
            _ => {}
        }
    }

    /// Tells what came of the bytes that were heard since the look.
    pub(crate) fn tell<T: Speaker, L: Link>(&mut self, link: &mut L, talk: &T)
        ensures { L.wire link.new ≡ L.wire link.old }
    {
        if let Some(area) = self.settled.take() {
            let mut line = Line::new();
            let _ = write!(line, "area {area}: settled");
            link.note(line.as_str());
        }
        let mut line = Line::new();
        if talk.is_logged_in() && self.user.is_none() {
            self.user = self.tried.take();
            if let Some(name) = &self.user {
                let _ = write!(line, "logged in as {name}");
            }
        } else if talk.name_tried().is_none() {
            if let Some(name) = self.tried.take() {
                let _ = write!(line, "refused a log-in as {name}");
            }
        }
        match self.deed.take() {
            Some(Deed::Doubt(area)) => {
                let _ = write!(line, "area {area}: the device failed, in doubt");
            }
            Some(
                Deed::Pack {
                    area,
                    live,
                    dropped,
                },
            ) => {
                let _ = write!(line, "area {area}: packed, live {live} dropped {dropped}");
            }
            None => {}
        }
        if !line.is_empty() {
            link.note(line.as_str());
        }
    }

    /// Tells how the session ends, and after how many seconds.
    pub(crate) fn end<L: Link, C: Clock>(
        &self,
        link: &mut L,
        clock: &C,
        end: SessionEnd,
    ) -> SessionEnd
        ensures same { result ≡ end }
        ensures wire { L.wire link.new ≡ L.wire link.old }
    {
        let seconds = clock.glance().saturating_sub(self.since);
        let mut line = Line::new();
        let _ = write!(line, "ended after {seconds} s: {}", words_of(end));
        if let Some(name) = &self.user {
            let _ = write!(line, ", {name}");
        }
        link.note(line.as_str());
        end
    }
}
