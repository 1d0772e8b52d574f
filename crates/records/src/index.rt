// An index of a ring, known to be one.
ghost use Rattle.std.specs.Prelude.{◌<◌};

use geometry::Ring;

// Where a record of the ring is put or read.
#[derive(Clone, Copy)]
pub struct RingIndex {
    pub ring: Ring,
    pub index: u32,
    ghost in_ring: { index < ring.length },
}
