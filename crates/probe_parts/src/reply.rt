// What a call answered, in numbers: each kind of answer has its own, and a refusal has its number and place.
ghost use Rattle.std.specs.Prelude.{◌≡◌, ◌+◌, ◌≤◌, length};

use super::regs::Register;
use super::wire;
use domain::BitDomain;
use domain_pairs::BitState;
use domain_values::BitCursor;
use mask::Mask;
use rules::{Pair, Refusal, Value, Variable};

pub const SIZE: usize = 64;

// What kind of answer it is, by its number in a script's answers.
#[derive(Clone, Copy)]
pub enum Kind {
    Nothing = 0,
    Done = 1,
    Told = 2,
    Counted = 3,
    Found = 4,
    Made = 5,
    Masked = 6,
    Kept = 7,
    Begun = 8,
    Next = 9,
    NoMore = 10,
    Pair = 11,
    Bounds = 12,
    IdsBegun = 13,
    NextId = 14,
    Refused = 255,
}

impl From<Kind> for u64 {
    fn from(kind: Kind) -> u64 {
        kind as u64
    }
}

// The kind by its number, a refusal's number, a count, a value, and a mask.
#[derive(Clone, Copy)]
pub struct Reply {
    pub kind: u64,
    pub refusal: u32,
    pub count: u64,
    pub value: u64,
    pub lo: u64,
    pub hi: u64,
}

pub fn plain<K: Into<u64>>(kind: K) -> Reply {
    Reply {
        kind: kind.into(),
        refusal: 0,
        count: 0,
        value: 0,
        lo: 0,
        hi: 0,
    }
}

pub fn none() -> Reply {
    plain(Kind::Nothing)
}

pub fn counted<K: Into<u64>>(kind: K, count: u64) -> Reply {
    Reply {
        count,
        ..plain(kind)
    }
}

pub fn valued<K: Into<u64>>(kind: K, v: Value) -> Reply {
    Reply {
        value: wire::bits(v.0),
        ..plain(kind)
    }
}

fn masked(kind: Kind, m: Mask) -> Reply {
    Reply {
        lo: m.lo,
        hi: m.hi,
        ..plain(kind)
    }
}

impl From<Refusal> for Reply {
    fn from(r: Refusal) -> Reply {
        Reply {
            refusal: r.number(),
            count: r.place() as u64,
            ..plain(Kind::Refused)
        }
    }
}

impl<T: Into<Reply>> From<Result<T, Refusal>> for Reply {
    fn from(answer: Result<T, Refusal>) -> Reply {
        match answer {
            Ok(x) => x.into(),
            Err(r) => r.into(),
        }
    }
}

impl From<()> for Reply {
    fn from(_: ()) -> Reply {
        plain(Kind::Done)
    }
}

impl From<bool> for Reply {
    fn from(yes: bool) -> Reply {
        Reply {
            value: u64::from(yes),
            ..plain(Kind::Told)
        }
    }
}

impl From<usize> for Reply {
    fn from(n: usize) -> Reply {
        counted(Kind::Counted, n as u64)
    }
}

impl From<Value> for Reply {
    fn from(v: Value) -> Reply {
        valued(Kind::Found, v)
    }
}

impl From<Option<Value>> for Reply {
    fn from(next: Option<Value>) -> Reply {
        match next {
            Some(v) => valued(Kind::Next, v),
            None => plain(Kind::NoMore),
        }
    }
}

// A domain stands in the register that the answer shows.
impl From<BitDomain> for Reply {
    fn from(_: BitDomain) -> Reply {
        plain(Kind::Made)
    }
}

impl From<Mask> for Reply {
    fn from(m: Mask) -> Reply {
        masked(Kind::Masked, m)
    }
}

impl From<BitState> for Reply {
    fn from(s: BitState) -> Reply {
        Reply {
            count: s.size as u64,
            ..masked(Kind::Kept, s.mask)
        }
    }
}

impl From<BitCursor> for Reply {
    fn from(c: BitCursor) -> Reply {
        Reply {
            value: wire::bits(c.min),
            ..masked(Kind::Begun, c.mask)
        }
    }
}

impl From<Pair> for Reply {
    fn from(p: Pair) -> Reply {
        Reply {
            count: u64::from(p.consistent),
            value: u64::from(p.changed),
            ..plain(Kind::Pair)
        }
    }
}

// The smallest and the largest value.
impl From<(Value, Value)> for Reply {
    fn from((min, max): (Value, Value)) -> Reply {
        Reply {
            lo: wire::bits(max.0),
            ..valued(Kind::Bounds, min)
        }
    }
}

impl From<Option<Variable>> for Reply {
    fn from(next: Option<Variable>) -> Reply {
        match next {
            Some(id) => counted(Kind::NextId, id.0 as u64),
            None => plain(Kind::NoMore),
        }
    }
}

// Writes the answer to `op`, and the register that it left, at `at`.
pub fn write(op: u64, r: Reply, left: Register, out: &mut [u8], at: usize)
    requires { at + 64 ≤ length out.old }
    ensures { length out.new ≡ length out.old }
{
    let words = [
        op | (r.kind << 8) | ((r.refusal as u64) << 16),
        r.count,
        r.value,
        r.lo,
        r.hi,
        left.lo,
        left.hi,
        left.bounds,
    ];
    wire::put_words(&words, out, at);
}
