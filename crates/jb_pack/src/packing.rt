//! What a pack comes to.

/// What [`plan`](crate::plan) answers.
#[derive(Clone, Copy, Debug)]
pub enum Packing {
    /// The area is packed by the change: its new base, how many messages are live, and how many killed ones it drops.
    Fits { base: u32, live: u32, dropped: u32 },
    /// The texts of the live messages together, in bytes, are longer than .JDT may be. There is no change.
    TextFull { length: u64 },
}
