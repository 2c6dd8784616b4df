// The destinations of a sheet, registered in order on a blank board.
//
// register
//
// No mark is open and there are no more destinations than rows, so that no registration is refused; each leaves the board well formed, so that none
// has to look it over.
#![tactic(auto)]

ghost use Rattle.std.specs.Prelude.{◌≡◌, ◌≤◌, get_or, length};
ghost use Rattle.board.specs.Rows.{seat_in};
ghost use Rattle.wave_enter.specs.Registered.{Marked, place_for, registered_of};

use board::Row;
use sheet_form::Destination;

// The rows of a board, and how many of them are registered.
#[derive(Clone, Copy)]
pub struct Registered {
    pub rows: [Row; 64],
    pub count: usize,
}

// The row of a destination: its own where it has one, else the next. A cell of the table that isn't set was met by no id before.
fn place_of(ids: &[u32; 64], met: &[bool; 1024], count: usize, id: u32) -> usize
    requires { (count ≤ 64) × Marked ids.now met.now count }
    ensures { result ≡ place_for (seat_in (λ j. get_or ids.now j 0) count id) count }
{
    if !met[(id % 1024) as usize] {
        return count;
    }
    let at = board_list::find(ids, count, id);
    if at < board::NOWHERE {
        return at;
    }
    count
}

pub fn register(ds: &[Destination]) -> Registered
    requires { length ds.now ≤ 64 }
    ensures { result ≡ registered_of ds.now }
{
    let b = board_enter::new();
    let mut rows = b.rows;
    let mut count = 0;
    let mut ids = [0u32; 64];
    let mut met = [false; 1024];
    for d in ds {
        let id = d.id;
        let domain = domain::new(d.min, d.max);
        let to = place_of(&ids, &met, count, id.0);
        rows[to] = Row { id, domain };
        ids[to] = id.0;
        met[(id.0 % 1024) as usize] = true;
        if to == count {
            count += 1;
        }
    }
    Registered { rows, count }
}
