// What a call on a sparse set left and answered.
use super::regs;
use probe_parts::regs::Register;
use probe_parts::reply;
use probe_parts::reply::{Kind, Reply};
use probe_parts::turn::{Turn, after};
use probe_parts::wire::pair;
use rules::{Refusal, Value};
use sparse::Handed;
use sparse_inner::{Sparse, SparseState};

pub fn handed<A: Into<Reply>>(h: Handed<A>) -> Turn {
    after(regs::of_set(h.set), h.answer.into())
}

// A refused call leaves the register as it was.
pub fn made(answer: Result<Sparse, Refusal>, old: Register) -> Turn {
    match answer {
        Ok(s) => after(regs::of_set(s), reply::plain(Kind::Made)),
        Err(r) => after(old, r.into()),
    }
}

fn kept(s: SparseState) -> Reply {
    Reply {
        count: s.size as u64,
        lo: pair(s.min, s.max),
        ..reply::plain(Kind::Kept)
    }
}

pub fn saved(answer: Result<SparseState, Refusal>, old: Register) -> Turn {
    match answer {
        Ok(s) => after(regs::of_state(s), kept(s)),
        Err(r) => after(old, r.into()),
    }
}

pub fn begun(at: u32) -> Turn {
    after(regs::of_pair(at as u64, 0), reply::plain(Kind::Begun))
}

// A cursor, and what it yielded.
pub fn walked(at: u32, answer: Result<Option<Value>, Refusal>) -> Turn {
    after(regs::of_pair(at as u64, 0), answer.into())
}
