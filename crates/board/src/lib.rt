// The board: destinations in rows, each with its bit domain, and the masks that the open marks saved. It goes in by value
// and is handed back. What each call does is in the crates above; here is what they share: when a board is well formed,
// and where a destination stands.
//
// look, look_among, check
#![tactic(auto)]

ghost use Rattle.std.specs.Prelude.{◌≡◌, true, ◌≤◌, ◌<◌, get_or};
ghost use Rattle.board.specs.Well.{new_to, differ, well_row, look_of, seen, checked_of};

use domain::BitDomain;
use rules::{Refusal, Variable};
use saved::Saved;

// A destination and the chutes that it may still use.
#[derive(Clone, Copy)]
pub struct Row {
    pub id: Variable,
    pub domain: BitDomain,
}

// The first `count` rows are registered, in order of first registration; the first `marks` marks are open.
#[derive(Clone, Copy)]
pub struct Board {
    pub rows: [Row; 64],
    pub count: usize,
    pub saved: Saved,
    pub marks: usize,
    pub changed: bool,
}

// A board handed back, and yes or no.
#[derive(Clone, Copy)]
pub struct Closed {
    pub board: Board,
    pub answer: Result<bool, Refusal>,
}

// A board handed back by a call that has nothing else to tell.
#[derive(Clone, Copy)]
pub struct Settled {
    pub board: Board,
    pub answer: Result<(), Refusal>,
}

// What `board_list::find` answers where an id isn't registered.
pub const NOWHERE: usize = 64;

// Whether no number before place i equals n. Nothing ends it early, so that several are tested at a time.
fn is_new(ids: &[u32; 64], i: usize, n: u32) -> bool
    requires { i ≤ 64 }
    ensures { result ≡ new_to (λ j. get_or ids.now j 0) i n }
{
    let mut met = false;
    for j in 0..i {
        met = met | (ids[j] == n);
    }
    !met
}

// Whether the first `count` ids differ. A cell of the table that is 0 was met by no id before; any other is decided by `is_new`.
fn distinct(ids: &[u32; 64], count: usize) -> bool
    requires { count ≤ 64 }
    ensures { result ≡ differ (λ j. get_or ids.now j 0) count }
{
    let mut met = [0u8; 1024];
    for i in 0..count {
        let n = ids[i];
        let h = (n % 1024) as usize;
        if met[h] != 0 && !is_new(ids, i, n) {
            return false;
        }
        met[h] = 1;
    }
    true
}

// Whether each of the first `count` numbers is larger than the one before: then they differ. Nothing ends it early either.
fn rise(ids: &[u32; 64], count: usize) -> bool
    requires { count ≤ 64 }
    ensures { result ≡ true → differ (λ j. get_or ids.now j 0) count ≡ true }
{
    let mut so = true;
    for i in 1..count {
        so = so & (ids[i - 1] < ids[i]);
    }
    so
}

// Whether the first `count` ids differ, which mostly rise.
fn apart(ids: &[u32; 64], count: usize) -> bool
    requires { count ≤ 64 }
    ensures { result ≡ differ (λ j. get_or ids.now j 0) count }
{
    rise(ids, count) || distinct(ids, count)
}

// Whether the domain of row i is well formed, and every mask saved for it fits its universe: all of them together have to fit it.
fn is_well_row(d: BitDomain, ws: &Saved, marks: usize, i: usize) -> bool
    requires { (marks ≤ 8) × (i < 64) }
    ensures { result ≡ well_row ws.now marks i d }
{
    let joined = saved::join(ws, marks, i, d.mask);
    domain::inner::is_well(domain::inner::with_mask(d, joined))
}

// The one check of a board, by its parts: whether it is well formed, and in which row an id stands, if it is registered. A call
// that has taken a board apart gives them apart: so the saved words, which it hands on as they are, needn't be copied.
pub fn look_among(
    rows: &[Row; 64],
    count: usize,
    ws: &Saved,
    marks: usize,
    id: Variable,
) -> Result<Option<usize>, Refusal>
    ensures { result ≡ seen (look_of rows.now count ws.now marks id.0) }
{
    if 64 < count || 8 < marks {
        return Err(Refusal::Broken);
    }
    let mut ids = [0u32; 64];
    let mut at = count;
    for i in 0..count {
        let row = rows[i];
        if !is_well_row(row.domain, ws, marks, i) {
            return Err(Refusal::Broken);
        }
        ids[i] = row.id.0;
        if row.id.0 == id.0 {
            at = i;
        }
    }
    if !apart(&ids, count) {
        return Err(Refusal::Broken);
    }
    Ok((at < count).then_some(at))
}

// The same, of a whole board.
pub fn look(b: &Board, id: Variable) -> Result<Option<usize>, Refusal>
    ensures { result ≡ seen (look_of b.now.rows b.now.count b.now.saved b.now.marks id.0) }
{
    look_among(&b.rows, b.count, &b.saved, b.marks, id)
}

// That check alone.
pub fn check(b: &Board) -> Result<(), Refusal>
    ensures { result ≡ checked_of b.now }
{
    look(b, Variable(0))?;
    Ok(())
}
