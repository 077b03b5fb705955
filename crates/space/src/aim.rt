/// What space is asked for.
#[derive(Clone, Copy, Debug, PartialEq, Eq)]
pub enum Aim {
    /// A new object of a client, whose destination is this storage pool.
    New {
        pool: u32,
    },
    /// A copy that moves: from the pool `from`, where the transaction `placed` placed it, to the pool `to` or, with `along`, to the first pool
    /// with room of the hierarchy that begins with `to`.
    Move {
        from: u32,
        placed: u64,
        to: u32,
        along: bool,
    },
    /// A further copy, in this copy pool or, where a volume is restored, in this primary one.
    Copy {
        to: u32,
    },
}
