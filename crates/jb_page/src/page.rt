//! A page, and why one is not sent.

use jb_state::Short;
use thiserror::Error;

/// A short text that one node sends to another.
#[derive(Clone, Copy)]
pub struct Page {
    /// The number of the pager that sent it.
    pub from: u32,
    /// Which of that pager's pages it is, from 1 on, over all nodes.
    pub serial: u64,
    pub text: Short<72>,
}

/// Why a page is not sent. The pages that were sent stay as they are.
#[derive(Clone, Copy, Debug, PartialEq, Eq, Error)]
pub enum PageError {
    /// 64 pages wait for the node `to`. A later call may find room.
    #[error("64 pages wait for node {to}")]
    Full { to: u32 },
    /// The pager has sent 2^56 pages: this many, and no call of it sends one more.
    #[error("{sent} pages were sent, and no more can be")]
    Spent { sent: u64 },
}
