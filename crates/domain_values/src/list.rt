// All values of a domain, written into lent cells.
#![tactic(auto, unfolding(crate::specs::Calls::to_vec_of))]

ghost use Rattle.std.specs.Prelude.{◌≡◌, true, ◌++◌, ◌≤◌, length, drop};
ghost use Rattle.domain.specs.Set.{well, set_of};
ghost use Rattle.domain_values.specs.Calls.{written, to_vec_of};

use domain::{BitDomain, inner};
use rules::Refusal;

// Writes the n values of d from the first cell on.
fn write(d: BitDomain, n: usize, cells: &mut [i32])
    requires { (well d ≡ true) × (n ≡ length (set_of d)) × (n ≤ length cells.old) }
    ensures { cells.new ≡ set_of d ++ drop n cells.old }
{
    let mut rest = d.mask;
    for cell in cells[..n].iter_mut() {
        *cell = offset::value(d.min, mask::lowest(rest));
        rest = mask::rest(rest);
    }
}

pub fn to_vec(d: BitDomain, cells: &mut [i32]) -> Result<usize, Refusal>
    ensures { written result cells.new ≡ to_vec_of d cells.old }
{
    inner::check(d)?;
    let n = mask::count(d.mask);
    if cells.len() < n {
        return Err(Refusal::NoRoom);
    }
    write(d, n, cells);
    Ok(n)
}
