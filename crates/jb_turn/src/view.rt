//! What a seat knows. No value of these types is made: they exist in proofs alone.
use std::collections::LinkedList;

/// Where a seat stands in the queue. Tickets are counted from 0 and never wrap here.
pub enum TicketStage {
    /// It has no ticket.
    Idle,
    /// It has drawn this ticket.
    Waits(u64),
    /// The turn of its ticket has come, and the state is out with it.
    Came(u64),
}

/// What is known of one node.
pub struct Row<O, E, Q> {
    pub node: u64,
    /// The opening of the history.
    pub opening: Option<O>,
    /// The beginning of the history that the seat has seen.
    pub front: LinkedList<E>,
    /// The node's calls in `front`.
    pub mine: LinkedList<E>,
    /// What `give` named, in order.
    pub remarks: LinkedList<Q>,
}

/// A seat has one row. One that took in others has their rows too, and one that was taken in has none.
pub struct View<O, E, Q> {
    pub stage: TicketStage,
    pub rows: LinkedList<Row<O, E, Q>>,
    /// At the seat that was made last the number of seats that were made, at every other 0.
    pub made: u64,
}
