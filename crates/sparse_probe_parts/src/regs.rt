// Sets, saved states and cursors as they stand in the registers of `probe_parts`: sets 0 and 1 are the first two.
use probe_parts::record::Record;
use probe_parts::regs::Register;
use probe_parts::wire::{bits, half, pair, signed};
use sparse_inner::{Sparse, SparseState};

// How many cells of the orderings of set a are lent stands in register 2 + a, `ind` in the low half and `val` in the high half.
pub const LENT: usize = 2;

pub fn set(r: Register) -> Sparse {
    Sparse {
        off: signed(r.lo),
        n: half(r.lo >> 32),
        size: half(r.hi),
        min: half(r.hi >> 32),
        max: half(r.bounds),
    }
}

pub fn of_set(s: Sparse) -> Register {
    Register {
        lo: bits(s.off) | ((s.n as u64) << 32),
        hi: pair(s.size, s.min),
        bounds: s.max as u64,
    }
}

pub fn state(r: Register) -> SparseState {
    SparseState {
        size: half(r.lo),
        min: half(r.lo >> 32),
        max: half(r.hi),
    }
}

pub fn of_state(s: SparseState) -> Register {
    of_pair(pair(s.size, s.min), s.max as u64)
}

pub fn of_pair(lo: u64, hi: u64) -> Register {
    Register { lo, hi, bounds: 0 }
}

// Any five numbers of a record as a set, well formed or not.
pub fn raw_set(r: Record) -> Sparse {
    Sparse {
        off: r.v,
        n: half(r.n as u64),
        size: half(r.lo),
        min: half(r.lo >> 32),
        max: half(r.hi),
    }
}

// Any three as a saved state.
pub fn raw_state(r: Record) -> SparseState {
    SparseState {
        size: half(r.n as u64),
        min: half(r.lo),
        max: half(r.lo >> 32),
    }
}
