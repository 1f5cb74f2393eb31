//! Pages: two nodes send in a thread each while a third takes.
ghost use Rattle.std.specs.Prelude.{◌≤◌, All};
ghost use Rattle.jb_page.specs.Pagers.{IsPagerOf};

use jb_page::{Pager, Pages};
use std::sync::Wait;
use std::sync::atomic::{AtomicU32, Ordering};
use std::thread;
use std::thread::Threads;
use trial_rows::{Row, Words};

// So many pages of each of two nodes have room in one queue.
const MOST_PAGES: u32 = 32;

// Sends so many pages to the third node.
fn send<R: Wait>(rt: &R, pages: &Pages, pager: &mut Pager, count: u32)
    requires of { IsPagerOf pages.now pager.old }
    requires three { 3 ≤ pages.now.nodes }
    ensures { IsPagerOf pages.now pager.new }
{
    for _ in 0..count {
        let _ = pages.send(rt, pager, 3, b"lunch?");
    }
}

// Takes pages until so many of each of the first two nodes have come, and counts those that are not the next of their node.
fn take<R: Wait>(rt: &R, pages: &Pages, pager: &mut Pager, count: u32, wrong: &AtomicU32)
    requires { IsPagerOf pages.now pager.old }
    ensures { IsPagerOf pages.now pager.new }
{
    let (mut first, mut second) = (0_u64, 0_u64);
    for _ in rt.forever() {
        if first.min(second) >= u64::from(count) {
            break;
        }
        if let Some(page) = pages.take(rt, pager) {
            let is_first = page.from == 1;
            let next = (if is_first { first } else { second }).saturating_add(1);
            if page.serial != next || page.text.as_slice() != b"lunch?".as_slice() {
                wrong.store(1, Ordering::SeqCst);
            }
            if is_first {
                first = next;
            } else {
                second = next;
            }
        }
    }
}

// The first two nodes send in a thread each while the third takes.
fn exchange<R: Threads + Wait + Sync>(
    rt: &R,
    pages: &Pages,
    pagers: &mut [Pager],
    count: u32,
    wrong: &AtomicU32,
)
    requires three { 3 ≤ pages.now.nodes }
    requires of { All (IsPagerOf pages.now) pagers.old }
    ensures { All (IsPagerOf pages.now) pagers.new }
{
    thread::for_each_mut(
        rt,
        pagers,
        3,
        &|place: usize, pager: &mut Pager|
            requires { (IsPagerOf pages.now pager.now) × (3 ≤ pages.now.nodes) }
            ensures { IsPagerOf pages.entry.now pager.exit.now }
        {
            if place < 2 {
                send(rt, pages, pager, count)
            } else {
                take(rt, pages, pager, count, wrong)
            }
        },
    );
}

/// `pages COUNT`: two nodes send so many pages to a third in a thread each, while that takes them in another: whether each came behind the
/// one before of its node, and how many are left.
pub fn put_pages<R: Threads + Wait + Sync>(rt: &R, row: &Row, words: &mut Words) {
    let count = row.u32(1, words);
    if count > MOST_PAGES {
        return words.unknown(1);
    }
    let Ok((pages, mut pagers)) = Pages::new(words.alloc, 3) else {
        return words.lack();
    };
    let wrong = AtomicU32::new(0);
    exchange(rt, &pages, pagers.as_mut_slice(), count, &wrong);
    match pages.close(rt, pagers) {
        Ok(left) => {
            words.word(if wrong.load(Ordering::SeqCst) == 0 {
                "in order,"
            } else {
                "otherwise,"
            });
            words.number(left.len() as u64);
            words.word("left");
        }
        Err(_) => words.word("not closed"),
    }
}
