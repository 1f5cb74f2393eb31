//! What the history of a shared area began from.

use jb_base::{AreaRules, Bytes};
use jb_state::Loaded;

/// How an area stood when it was shared: its rules, what was loaded, its texts where the disk tells its files, how often its
/// device had failed, at how many moments so far it tells what a crash leaves, and how often it had been packed. No value of it is
/// made: it exists in proofs alone.
pub struct Opening {
    pub rules: AreaRules,
    pub loaded: Loaded,
    pub texts: Option<Bytes>,
    pub faults: u64,
    pub moments: u64,
    pub packs: u64,
}
