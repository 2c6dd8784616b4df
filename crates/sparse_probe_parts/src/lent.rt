// Cells that calls are lent beside the orderings. A lent part starts some cells into an array; all of it, the cells before and after the part
// among them, goes into one number, and the first of the cells go out behind the answer.
ghost use Rattle.std.specs.Prelude.{◌≡◌, ◌<◌, ◌≤◌, length};

use super::seen;
use probe_parts::behind::{of_bytes, of_values};
use probe_parts::record::Record;
use probe_parts::script::{Done, shown};
use probe_parts::turn::Turn;

// The most bytes that stand behind an answer.
pub const MOST: usize = 1280;

// Lends n cells from cell b on to `call`. The number goes over the cells to 4 past the lent part.
pub fn cells<F: FnOnce(&mut [i32]) -> Turn>(r: Record, behind: &mut [u8], call: F) -> Done
    requires any { F.IsAlwaysCallable call }
    requires room { (r.b < 8) × (1280 ≤ length behind.old) }
    ensures { (result.behind ≤ 1280) × (length behind.new ≡ length behind.old) }
{
    let end = r.b + r.n.min(4100);
    let mut cells = [1515870810i32; 4112];
    let mut turn = call(&mut cells[r.b..end]);
    turn.reply.lo = seen::values(&cells[..end + 4]);
    let many = shown(r.lo, 160);
    of_values(turn, &cells, many, behind)
}

// The same with bytes.
pub fn bytes<F: FnOnce(&mut [u8]) -> Turn>(r: Record, behind: &mut [u8], call: F) -> Done
    requires any { F.IsAlwaysCallable call }
    requires room { (r.b < 8) × (1280 ≤ length behind.old) }
    ensures { (result.behind ≤ 1280) × (length behind.new ≡ length behind.old) }
{
    let end = r.b + r.n.min(49600);
    let mut bytes = [90u8; 49664];
    let mut turn = call(&mut bytes[r.b..end]);
    turn.reply.lo = seen::bytes(&bytes[..end + 4]);
    let many = shown(r.lo, 1280);
    of_bytes(turn, &bytes, many, behind)
}
