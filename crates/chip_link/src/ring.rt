ghost use Rattle.std.specs.Prelude.{◌≡◌, ℕ, ◌+◌, ◌%◌, ◌<◌};

use std::marker::Model;

/// The most cells that the ring of an edge has.
pub const MAX_RING: u64 = 64;

/// The number of cells in the ring of an edge, 1 to `MAX_RING`. Contracts see it as that number.
#[derive(Clone, Copy)]
pub struct Ring {
    cells: u8,
}

impl Model for Ring {
    ghost use Rattle.std.specs.Prelude.{ℕ};
    ghost use Rattle.chip_link.specs.Rings.{IsRing};

    ghost Value = { ℕ };

    ghost view = { λ a. a.cells };

    ghost invariant = { λ a. IsRing a.cells };

    ghost inverse = { λ n. record { cells = n } };
}

impl Ring {
    ghost use Rattle.chip_link.specs.Rings.{IsRing, ring_of};

    /// A ring of 1 to `MAX_RING` cells, or else `None`.
    pub fn new(cells: u64) -> Option<Ring>
        ensures { result ≡ ring_of cells }
    {
        if cells == 0 || cells > MAX_RING {
            return None;
        }
        Some(Ring::of(cells))
    }

    /// A ring of 1 to `MAX_RING` cells.
    pub fn of(cells: u64) -> Ring
        requires { IsRing cells }
        ensures { result ≡ cells }
    {
        Ring { cells: cells as u8 }
    }

    /// The number of cells.
    pub fn cells(self) -> u64
        ensures number { result ≡ self }
        ensures range { IsRing result }
    {
        u64::from(self.cells)
    }

    /// The cell after this one, cyclically.
    pub(crate) fn after(self, cell: u8) -> u8
        requires { cell < self }
        ensures place { (place : ℕ) → cell ≡ place % self → result ≡ (place + 1) % self }
        ensures inside { result < self }
    {
        let next = cell + 1;
        if next == self.cells { 0 } else { next }
    }

    /// The cell before this one, cyclically.
    pub(crate) fn before(self, cell: u8) -> u8
        requires { cell < self }
        ensures place { (place : ℕ) → cell ≡ (place + 1) % self → result ≡ place % self }
        ensures inside { result < self }
    {
        if cell == 0 { self.cells - 1 } else { cell - 1 }
    }
}
