// Parts of a board set by hand, which makes boards that aren't well formed too.
ghost use Rattle.std.specs.Prelude.{◌<◌};

use super::call::Call;
use board::{Board, Row};
use domain::BitDomain;
use mask::Mask;
use probe_parts::record::Record;
use rules::Variable;

// The id that a record names.
pub fn id(r: Record) -> Variable {
    Variable((r.n % 4294967296) as u32)
}

fn row(r: Record) -> Row {
    Row {
        id: id(r),
        domain: BitDomain {
            mask: Mask { lo: r.lo, hi: r.hi },
            min: r.v,
            max: r.w,
        },
    }
}

// A row, a saved word, the count, the marks, or the flag.
pub fn set(call: Call, r: Record, b: &mut Board)
    requires { (r.a < 8) × (r.b < 8) }
{
    match call {
        Call::SetRow => {
            b.rows[8 * r.a + r.b] = row(r);
        }
        Call::SetWord => {
            b.saved[r.n % 1024] = r.lo;
        }
        Call::SetCount => {
            b.count = r.n;
        }
        Call::SetMarks => {
            b.marks = r.n;
        }
        Call::SetFlag => {
            b.changed = r.n % 2 == 1;
        }
        _ => {}
    }
}
