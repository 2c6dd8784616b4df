// The cells of a run, and the records that set them.
ghost use Rattle.std.specs.Prelude.{◌≤◌};

use probe_parts::record::Record;
use probe_parts::wire::{bits, half, signed};

// How many cells an ordering of one set has, and how many values the list.
pub const CELLS: usize = 4112;

const BLANK: u32 = 1515870810;

// The cells of one set's orderings.
#[derive(Clone, Copy)]
pub struct Cells {
    pub ind: [u32; CELLS],
    pub val: [u32; CELLS],
}

// So many cells are lent, from two cells into `ind` on and three into `val`.
pub fn many(w: u64) -> usize
    ensures { result ≤ 4104 }
{
    (half(w) as usize).min(4104)
}

impl Cells {
    // As they are before anything was written.
    pub fn new() -> Cells {
        Cells {
            ind: [BLANK; CELLS],
            val: [BLANK; CELLS],
        }
    }

    // The first n cells blank again.
    pub fn blank(&mut self, n: usize) {
        let end = n.min(CELLS);
        self.ind[..end].fill(BLANK);
        self.val[..end].fill(BLANK);
    }
}

// Sets a cell, lent or not.
pub fn put(r: Record, cells: &mut [u32; CELLS]) {
    if r.n < CELLS {
        cells[r.n] = half(r.lo);
    }
}

// Lists n values from v on: each is as far above the last one as the mask's low half says, counted round within a number of values.
pub fn list_values(r: Record, list: &mut [i32; CELLS]) {
    let by = half(r.lo) as u64;
    let round = half(r.lo >> 32) as u64 + 1;
    let mut x = r.hi % round;
    for v in list[..r.n.min(CELLS)].iter_mut() {
        *v = signed(bits(r.v).wrapping_add(x));
        x = x.wrapping_add(by) % round;
    }
}
