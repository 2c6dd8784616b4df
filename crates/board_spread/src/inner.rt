// A list over the rows of a well-formed board, in place.
ghost use Rattle.std.specs.Prelude.{◌≡◌, true, ℕ, ◌≤◌, ◌<◌, length, get_or};
ghost use Rattle.masks.specs.Cells.{Room};
ghost use Rattle.board_spread.specs.Gather.{Gathered, Ends32, hold_from};
ghost use Rattle.board_spread.specs.Spread.{sound_rows, pruned, pruned_of};

use alldiff::Passed;
use board::Row;
use masks::Masks;
use rules::Refusal;

// The domains of the first n listed rows: the smallest value of each universe, and each mask.
fn gather(rows: &[Row; 64], at: &[usize; 64], n: usize, mins: &mut [i32; 64], ms: &mut Masks)
    requires { (n ≤ 64) × ((p : ℕ) → p < n → get_or at.now p 0 < 64) × (length mins.old ≡ 64) × Room ms.old }
    ensures { Room ms.new × Gathered rows.now at.now mins.new ms.new n × Ends32 rows.now at.now n }
{
    for p in 0..n {
        let row = rows[at[p]];
        mins[p] = row.domain.min;
        ms[p] = row.domain.mask;
    }
}

// The masks go back into the rows that they came from.
fn scatter(rows: &mut [Row; 64], at: &[usize; 64], n: usize, ms: &Masks)
    requires { (n ≤ 64) × ((p : ℕ) → p < n → get_or at.now p 0 < 64) }
    ensures { rows.new ≡ hold_from rows.old at.now ms.now 0 n }
{
    for p in (0..n).rev() {
        let d = rows[at[p]].domain;
        rows[at[p]].domain = domain::inner::with_mask(d, ms[p]);
    }
}

// A list over rows that are well formed, and that it leaves well formed.
pub fn prune(rows: &mut [Row; 64], count: usize, list: &[u32]) -> Result<Passed, Refusal>
    requires { sound_rows rows.old count ≡ true }
    ensures { pruned rows.new result ≡ pruned_of rows.old count list.now }
{
    let mut at = [0usize; 64];
    board_list::seats(*rows, count, list, &mut at)?;
    let n = list.len();
    let mut mins = [0i32; 64];
    let mut ms = masks::none();
    gather(rows, &at, n, &mut mins, &mut ms);
    let did = alldiff::spread(&mins, &mut ms, n);
    scatter(rows, &at, n, &ms);
    Ok(did)
}
