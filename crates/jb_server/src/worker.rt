//! The workers.

use crate::tally::Tally;
use jb_backup::BackupError;
use jb_base::User;
use jb_page::Pager;
use jb_shared::{Backed, Pass};

/// What a node works with: the number of its passes, from 1, its door, a clock, a pass of each area in order, its pager, and what it has
/// counted.
#[derive(Drop)]
pub struct NodeSlot<R, C> {
    pub node: u32,
    pub door: R,
    pub clock: C,
    pub passes: Vec<Pass>,
    pub pager: Option<Pager>,
    pub tally: Tally,
}

/// What a server of news works with: the same, on passes behind those of the packer and without a pager.
pub type NewsSlot<R, C> = NodeSlot<R, C>;

/// What a packer works with: the number of its passes, its bell, a clock, a pass of each area in order, the user that it is, how many
/// packs were done, the disks onto which areas are backed up, in the same order, and what came of the backups.
///
/// Each target is there while the packer works. An area behind the last one is not backed up.
#[derive(Drop)]
pub struct PackSlot<B, C, E> {
    pub node: u32,
    pub bell: B,
    pub clock: C,
    pub passes: Vec<Pass>,
    pub user: User,
    /// It stops at its greatest value.
    pub packs: u32,
    pub targets: Vec<Option<E>>,
    /// As many as targets; none where no ring came for the area.
    pub backups: Vec<Option<Result<Backed, BackupError>>>,
}

/// One that works at the same time as others.
#[derive(Drop)]
pub enum Worker<R, B, C, E> {
    /// It serves callers by the menus.
    Node(NodeSlot<R, C>),
    /// It packs areas, and backs them up.
    Packer(PackSlot<B, C, E>),
    /// It serves readers of news.
    News(NewsSlot<R, C>),
}
