//! How far a ring has come.

/// A position in a ring.
#[derive(Clone, Copy, Debug, PartialEq, Eq)]
pub struct Position {
    /// In a packed ring the slot, below the ring's size. In a split ring the index, which runs on modulo 65,536.
    pub place: u16,

    /// In a packed ring the wrap counter, which toggles each time round (VIRTIO 1.2, 2.8.1). A split ring leaves it.
    pub wrap: bool,
}

impl Position {
    /// The position of a ring from which nothing was taken yet.
    pub const FIRST: Position = Position {
        place: 0,
        wrap: true,
    };
}

/// The two positions that a device keeps in a ring.
#[derive(Clone, Copy, Debug, PartialEq, Eq)]
pub struct Positions {
    /// Where the next chain is taken.
    pub taking: Position,

    /// Where the next used chain is published.
    pub used: Position,
}

impl Positions {
    /// The positions of a ring from which nothing was taken yet.
    pub const FIRST: Positions = Positions {
        taking: Position::FIRST,
        used: Position::FIRST,
    };
}
