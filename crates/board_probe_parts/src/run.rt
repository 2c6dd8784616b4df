// What a run holds: a board, registers, and ids. Lists of ids that calls are given are parts of these.
ghost use Rattle.std.specs.Prelude.{◌<◌};

use board::Board;
use probe_parts::record::Record;
use probe_parts::regs::Registers;
use probe_parts::wire::half;

// How many ids there are.
pub const IDS: usize = 224;

#[derive(Clone, Copy)]
pub struct Run {
    pub board: Board,
    pub regs: Registers,
    ids: [u32; IDS],
}

impl Run {
    // A new board, and all else of 0 bits.
    pub fn new() -> Run {
        Run {
            board: board_enter::new(),
            regs: Registers::new(),
            ids: [0; IDS],
        }
    }

    // Four ids from place n on; none of them where there is no room for all.
    pub fn put_ids(&mut self, r: Record) {
        let at = r.n;
        if at < IDS - 3 {
            self.ids[at] = half(r.lo);
            self.ids[at + 1] = half(r.lo >> 32);
            self.ids[at + 2] = half(r.hi);
            self.ids[at + 3] = half(r.hi >> 32);
        }
    }

    // The list that a record names.
    pub fn list(&self, r: Record) -> &[u32] {
        let start = (r.lo % 128) as usize;
        let many = (r.hi % 97) as usize;
        &self.ids[start..start + many]
    }

    // The listed values from place b on that a record names.
    pub fn values(&self, r: Record) -> &[i32]
        requires { r.b < 8 }
    {
        let end = r.b + ((r.lo % 4096) as usize).min(152);
        &self.regs.values[r.b..end]
    }
}
