// The cursor over ids, and what the calls on it answered.
use board_ask::{IdCursor, Walked};
use probe_parts::regs::Register;
use probe_parts::reply;
use probe_parts::reply::Kind;
use probe_parts::turn::{Turn, after};
use rules::Refusal;

// It stands in the first word of a register.
fn register(c: IdCursor) -> Register {
    Register {
        lo: c.at as u64,
        hi: 0,
        bounds: 0,
    }
}

// A refused call leaves the register as it was.
pub fn begun(answer: Result<IdCursor, Refusal>, old: Register) -> Turn {
    match answer {
        Ok(c) => after(register(c), reply::counted(Kind::IdsBegun, c.at as u64)),
        Err(r) => after(old, r.into()),
    }
}

pub fn walked(w: Walked) -> Turn {
    after(register(w.cursor), w.answer.into())
}

// The cursor set by hand.
pub fn stood(at: usize) -> Turn {
    after(register(IdCursor { at }), reply::none())
}
