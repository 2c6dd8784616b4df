// What a call does to the register that it is about: what that holds afterwards, and the answer.
use super::regs::Register;
use super::reply::Reply;
use domain_values::Stepped;
use rules::Refusal;

#[derive(Clone, Copy)]
pub struct Turn {
    pub left: Register,
    pub reply: Reply,
}

pub fn after(left: Register, reply: Reply) -> Turn {
    Turn { left, reply }
}

// The register holds what was made; a refused call leaves it as it was.
pub fn made<T: Copy + Into<Register> + Into<Reply>>(
    answer: Result<T, Refusal>,
    old: Register,
) -> Turn {
    match answer {
        Ok(x) => after(x.into(), x.into()),
        Err(r) => after(old, r.into()),
    }
}

pub fn stepped(s: Stepped) -> Turn {
    after(s.cursor.into(), s.answer.into())
}
