// A record of a script: which call, on which registers, with which numbers.
ghost use Rattle.std.specs.Prelude.{◌<◌};

use super::wire;

pub const SIZE: usize = 32;

#[derive(Clone, Copy)]
pub struct Record {
    pub op: u64,
    pub a: usize,
    pub b: usize,
    pub v: i32,
    pub w: i32,
    pub n: usize,
    pub lo: u64,
    pub hi: u64,
}

// The call, two registers of eight, two values, a count, and a mask.
pub fn read(bytes: &[u8; SIZE]) -> Record
    ensures { (result.a < 8) × (result.b < 8) }
{
    let head = wire::word(bytes, 0);
    let tail = wire::word(bytes, 8);
    Record {
        op: head % 256,
        a: (head / 256 % 8) as usize,
        b: (head / 65536 % 8) as usize,
        v: wire::signed(head >> 32),
        w: wire::signed(tail),
        n: (tail >> 32) as usize,
        lo: wire::word(bytes, 16),
        hi: wire::word(bytes, 24),
    }
}
