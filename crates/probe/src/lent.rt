// The calls that are lent cells. A lent part starts some cells into an array of which the first cells, whether lent or not, stand behind
// the answer. They leave domain a as it was.
ghost use Rattle.std.specs.Prelude.{◌≡◌, ◌<◌, ◌≤◌, length};

use probe_parts::behind::{of_bytes, of_values};
use probe_parts::record::Record;
use probe_parts::regs::Register;
use probe_parts::script::{Done, shown};
use probe_parts::turn::after;

// The most bytes that stand behind an answer.
pub const MOST: usize = 2048;

// Lends n cells from cell b on.
pub fn to_vec(r: Record, left: Register, behind: &mut [u8]) -> Done
    requires { (r.b < 8) × (2048 ≤ length behind.old) }
    ensures { (result.behind ≤ 2048) × (length behind.new ≡ length behind.old) }
{
    let end = r.b + r.n.min(152);
    let mut cells = [1515870810i32; 160];
    let answer = domain_values::to_vec(left.into(), &mut cells[r.b..end]);
    let turn = after(left, answer.into());
    let many = shown(r.lo, 160);
    of_values(turn, &cells, many, behind)
}

pub fn text(r: Record, left: Register, behind: &mut [u8]) -> Done
    requires { (r.b < 8) × (2048 ≤ length behind.old) }
    ensures { (result.behind ≤ 2048) × (length behind.new ≡ length behind.old) }
{
    let end = r.b + r.n.min(2040);
    let mut bytes = [90u8; 2048];
    let answer = domain_text::write_text(left.into(), &mut bytes[r.b..end]);
    let turn = after(left, answer.into());
    let many = shown(r.lo, 2048);
    of_bytes(turn, &bytes, many, behind)
}
