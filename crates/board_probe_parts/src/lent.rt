// The calls that are lent cells. A lent part starts some cells into an array of which the first cells, whether lent or not, stand behind
// the answer.
ghost use Rattle.std.specs.Prelude.{◌≡◌, ◌<◌, ◌≤◌, length};

use super::raw::id;
use super::show;
use board::Board;
use probe_parts::behind::{of_each, of_values};
use probe_parts::record::Record;
use probe_parts::script::{Done, shown};
use probe_parts::turn::after;

// Where the lent part ends, from cell b on.
fn end(r: Record) -> usize
    requires { r.b < 8 }
    ensures { (r.b ≤ result) × (result ≤ 160) }
{
    r.b + ((r.lo % 4096) as usize).min(152)
}

pub fn values(r: Record, b: Board, behind: &mut [u8]) -> Done
    requires { (r.b < 8) × (2048 ≤ length behind.old) }
    ensures { (result.behind ≤ 2048) × (length behind.new ≡ length behind.old) }
{
    let mut cells = [1515870810i32; 160];
    let answer = board_ask::get_domain_values_into(b, id(r), &mut cells[r.b..end(r)]);
    let turn = after(show::left(b), answer.into());
    let many = shown(r.hi, 160);
    of_values(turn, &cells, many, behind)
}

pub fn ids(r: Record, b: Board, behind: &mut [u8]) -> Done
    requires { (r.b < 8) × (2048 ≤ length behind.old) }
    ensures { (result.behind ≤ 2048) × (length behind.new ≡ length behind.old) }
{
    let mut cells = [1515870810u32; 160];
    let answer = board_ask::variables_into(b, &mut cells[r.b..end(r)]);
    let turn = after(show::left(b), answer.into());
    let many = shown(r.hi, 160);
    of_each(turn, &cells, |id| id as u64, many, behind)
}
