// Where the ids of a list stand on a board: what a list must pass that is propagated, or asked whether it is ready. For
// callers that know the board to be well formed.
//
// find, find_from: one id; seats: a list; ids_of: the ids to be lent
#![tactic(auto)]

ghost use Rattle.std.specs.Prelude.{◌≡◌, true, ◌≤◌, get_or};
ghost use Rattle.board.specs.Rows.{id_at, seat_in};
ghost use Rattle.board.specs.Well.{differ};
ghost use Rattle.board_list.specs.Places.{Begins, placed, places_of};

use board::Row;
use rules::Refusal;

// Where an id stands among the first `count`, tried one by one.
pub fn find(ids: &[u32; 64], count: usize, id: u32) -> usize
    requires { count ≤ 64 }
    ensures { result ≡ seat_in (λ j. get_or ids.now j 0) count id }
{
    for i in (0..count).rev() {
        if ids[i] == id {
            return i;
        }
    }
    board::NOWHERE
}

// The same, where it is likely to stand at `next`.
pub fn find_from(ids: &[u32; 64], count: usize, next: usize, id: u32) -> usize
    requires { (count ≤ 64) × (differ (λ j. get_or ids.now j 0) count ≡ true) }
    ensures { result ≡ seat_in (λ j. get_or ids.now j 0) count id }
{
    if next < count && ids[next] == id {
        return next;
    }
    find(ids, count, id)
}

// The rows of a list's ids, up to the first id that is unknown or stood earlier: ids that differ stand in different rows, so
// an id stood earlier exactly if its row is used. Lists mostly go in the order of the rows.
fn places(ids: &[u32; 64], count: usize, list: &[u32], at: &mut [usize; 64]) -> Result<(), Refusal>
    requires { (count ≤ 64) × (differ (λ j. get_or ids.now j 0) count ≡ true) }
    ensures { placed result at.new ≡ places_of (λ j. get_or ids.now j 0) count list.now at.old }
{
    if 64 < list.len() {
        return Err(Refusal::TooLong);
    }
    let mut used = mask::empty();
    let mut next = 0;
    for (p, id) in list.iter().enumerate() {
        let row = find_from(ids, count, next, *id);
        if row == board::NOWHERE {
            return Err(Refusal::Unknown(p));
        }
        if mask::has(used, row) {
            return Err(Refusal::Repeated(p));
        }
        used = mask::with(used, row);
        at[p] = row;
        next = row + 1;
    }
    Ok(())
}

// The ids of the first `count` rows, to be lent: rows can't be.
pub fn ids_of(rows: [Row; 64], count: usize) -> [u32; 64]
    requires { count ≤ 64 }
    ensures { Begins (id_at rows) count result }
{
    let mut ids = [0u32; 64];
    for i in 0..count {
        ids[i] = rows[i].id.0;
    }
    ids
}

// As `places`, by the rows of a board.
pub fn seats(
    rows: [Row; 64],
    count: usize,
    list: &[u32],
    at: &mut [usize; 64],
) -> Result<(), Refusal>
    requires { (count ≤ 64) × (differ (id_at rows) count ≡ true) }
    ensures { placed result at.new ≡ places_of (id_at rows) count list.now at.old }
{
    let ids = ids_of(rows, count);
    places(&ids, count, list, at)
}
