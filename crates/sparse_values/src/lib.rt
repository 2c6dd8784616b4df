// The values of a sparse set one by one, and all at once.
//
// iter, next: the held values, in their order. complement_iter, complement_next: those of the universe that are not held, in theirs.
// to_vec: the held values, into lent cells.
//
// A cursor is a place in the set that is lent with it: it goes in by value and is handed back beside what it yielded. No cursor is refused, and
// one that has ended yields no more. A set that isn't well formed is refused by number, before anything else; a refused call writes no cell.
#![tactic(auto, unfolding(crate::specs::Calls::next_of, crate::specs::Calls::complement_next_of, crate::specs::Calls::to_vec_of))]

ghost use Rattle.std.specs.Prelude.{◌≡◌, ◌≤◌, ◌<◌, length, IfOk, MatchOption};
ghost use Rattle.sparse_inner.specs.Set.{full, Well, set_of, over};
ghost use Rattle.sparse_values.specs.Calls.{before_of, start, next_of, past_held, complement_start, complement_next_of, written, to_vec_of};

use rules::{Refusal, Value};
use sparse_inner::{Sparse, granted};

// The cell of the next held value.
#[derive(Clone, Copy)]
pub struct HeldCursor {
    pub at: u32,
}

// The cell of the next value that is not held; where a held one stands there, the first that isn't.
#[derive(Clone, Copy)]
pub struct ComplementCursor {
    pub at: u32,
}

// A cursor handed back, and what it yielded.
#[derive(Clone, Copy)]
pub struct Stepped<C> {
    pub cursor: C,
    pub answer: Result<Option<Value>, Refusal>,
}

pub fn iter() -> HeldCursor
    ensures { result ≡ start }
{
    HeldCursor { at: 0 }
}

pub fn complement_iter() -> ComplementCursor
    ensures { result ≡ complement_start }
{
    ComplementCursor { at: 0 }
}

// The value in a cell that stands before `end`.
fn before(s: Sparse, ind: &[u32], val: &[u32], at: u32, end: u32) -> Result<Option<Value>, Refusal>
    requires { Well s ind.now val.now → end ≤ s.n }
    ensures value { result ≡ before_of (full s ind.now val.now) at end }
    ensures below { IfOk result (λ v. MatchOption v (end ≤ at) (λ _. at < 4096)) }
{
    sparse_inner::check(s, ind, val)?;
    if at < end {
        Ok(Some(sparse_inner::value(s, val[at as usize])))
    } else {
        Ok(None)
    }
}

pub fn next(s: Sparse, ind: &[u32], val: &[u32], c: HeldCursor) -> Stepped<HeldCursor>
    ensures { result ≡ next_of (full s ind.now val.now) c }
{
    let answer = before(s, ind, val, c.at, s.size);
    let cursor = match answer {
        Ok(Some(_)) => HeldCursor { at: c.at + 1 },
        _ => c,
    };
    Stepped { cursor, answer }
}

// The first cell from `at` on that is not held.
fn past_held(size: u32, at: u32) -> u32
    ensures { result ≡ past_held size at }
{
    if at < size { size } else { at }
}

pub fn complement_next(
    s: Sparse,
    ind: &[u32],
    val: &[u32],
    c: ComplementCursor,
) -> Stepped<ComplementCursor>
    ensures { result ≡ complement_next_of (full s ind.now val.now) c }
{
    let at = past_held(s.size, c.at);
    let answer = before(s, ind, val, at, s.n);
    let cursor = match answer {
        Ok(Some(_)) => ComplementCursor { at: at + 1 },
        _ => c,
    };
    Stepped { cursor, answer }
}

// Writes the held values into the first cells.
fn write(s: Sparse, ind: &[u32], val: &[u32], cells: &mut [i32])
    requires well { Well s ind.now val.now }
    requires size_in_bounds { s.size ≤ length cells.old }
    ensures { cells.new ≡ over (set_of (full s ind.now val.now)) cells.old }
{
    for k in 0..s.size as usize {
        cells[k] = sparse_inner::value(s, val[k]).0;
    }
}

pub fn to_vec(s: Sparse, ind: &[u32], val: &[u32], cells: &mut [i32]) -> Result<usize, Refusal>
    ensures { written result cells.new ≡ to_vec_of (full s ind.now val.now) cells.old }
{
    sparse_inner::check(s, ind, val)?;
    let size = s.size as usize;
    granted(size <= cells.len(), Refusal::NoRoom)?;
    write(s, ind, val, cells);
    Ok(size)
}
