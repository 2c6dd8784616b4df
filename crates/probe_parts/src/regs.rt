// The registers of a run: eight domains, eight cursors and eight saved states, and a list of values.
ghost use Rattle.std.specs.Prelude.{◌<◌};

use super::wire;
use domain::BitDomain;
use domain_pairs::BitState;
use domain_values::BitCursor;
use mask::Mask;

// Cursor b is register 8 + b, state b is register 16 + b.
pub const CURSORS: usize = 8;

pub const STATES: usize = 16;

const REGISTERS: usize = 24;

// How many values the list has.
pub const LISTED: usize = 160;

// What a register holds: a mask, and bounds or another number.
#[derive(Clone, Copy, Default)]
pub struct Register {
    pub lo: u64,
    pub hi: u64,
    pub bounds: u64,
}

#[derive(Clone, Copy)]
pub struct Registers {
    held: [Register; REGISTERS],
    pub values: [i32; LISTED],
}

impl Registers {
    // All of 0 bits.
    pub fn new() -> Registers {
        Registers {
            held: [Register::default(); REGISTERS],
            values: [wire::signed(0); LISTED],
        }
    }

    pub fn get(&self, i: usize) -> Register
        requires { i < 24 }
    {
        self.held[i]
    }

    pub fn put(&mut self, i: usize, r: Register)
        requires { i < 24 }
    {
        self.held[i] = r;
    }

    // Four values from i on, two to a word; none of them where the list has no room for all.
    pub fn put_values(&mut self, i: usize, lo: u64, hi: u64) {
        if i < LISTED - 3 {
            self.values[i] = wire::signed(lo);
            self.values[i + 1] = wire::signed(lo >> 32);
            self.values[i + 2] = wire::signed(hi);
            self.values[i + 3] = wire::signed(hi >> 32);
        }
    }
}

pub fn bounds(d: BitDomain) -> u64 {
    wire::bits(d.min) | (wire::bits(d.max) << 32)
}

impl From<BitDomain> for Register {
    fn from(d: BitDomain) -> Register {
        Register {
            lo: d.mask.lo,
            hi: d.mask.hi,
            bounds: bounds(d),
        }
    }
}

impl From<Register> for BitDomain {
    fn from(r: Register) -> BitDomain {
        BitDomain {
            mask: Mask { lo: r.lo, hi: r.hi },
            min: wire::signed(r.bounds),
            max: wire::signed(r.bounds >> 32),
        }
    }
}

impl From<BitCursor> for Register {
    fn from(c: BitCursor) -> Register {
        Register {
            lo: c.mask.lo,
            hi: c.mask.hi,
            bounds: wire::bits(c.min),
        }
    }
}

impl From<Register> for BitCursor {
    fn from(r: Register) -> BitCursor {
        BitCursor {
            mask: Mask { lo: r.lo, hi: r.hi },
            min: wire::signed(r.bounds),
        }
    }
}

impl From<BitState> for Register {
    fn from(s: BitState) -> Register {
        Register {
            lo: s.mask.lo,
            hi: s.mask.hi,
            bounds: s.size as u64,
        }
    }
}

impl From<Register> for BitState {
    fn from(r: Register) -> BitState {
        BitState {
            mask: Mask { lo: r.lo, hi: r.hi },
            size: r.bounds as usize,
        }
    }
}
