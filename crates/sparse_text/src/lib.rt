// The text of a sparse set, put into lent bytes: write_text.
//
// Every byte is counted before the first is written, so that a text without room leaves the bytes as they came.
#![tactic(auto, unfolding(crate::specs::Text::before, crate::specs::Text::write_text_of))]

ghost use Rattle.std.specs.Prelude.{◌≡◌, ◌+◌, ◌≤◌, length};
ghost use Rattle.std.specs.Int.{w32};
ghost use Rattle.std.proofs.Common.{SFits};
ghost use Rattle.decimal.specs.Put.{put_of};
ghost use Rattle.sparse_inner.specs.Set.{full, Well, value_at};
ghost use Rattle.sparse_text.specs.Text.{before, byte_of, text_of, written, write_text_of};

use rules::Refusal;
use sparse_inner::{Sparse, granted};

// The value at an offset, as wide as `decimal` takes it.
fn long(s: Sparse, o: u32) -> i64
    requires { SFits w32 (value_at s o) }
    ensures { result ≡ value_at s o }
{
    i64::from(sparse_inner::value(s, o).0)
}

// The byte before the value in cell k: the bar where it is the first that is not held, none where it is the first of all.
fn before(size: u32, k: u32) -> Option<u8>
    ensures { byte_of result ≡ before size k }
{
    if k == size {
        Some(b'|')
    } else if k == 0 {
        None
    } else {
        Some(b',')
    }
}

// How many bytes that is.
fn before_size(size: u32, k: u32) -> usize
    ensures { result ≡ length (before size k) }
{
    match before(size, k) {
        None => 0,
        Some(_) => 1,
    }
}

// Puts it at `at`, and answers the place after it.
fn put_before(size: u32, k: u32, out: &mut [u8], at: usize) -> usize
    requires { at + length (before size k) ≤ length out.old }
    ensures { record { next = result; cells = out.new } ≡ put_of (before size k) out.old at }
{
    match before(size, k) {
        None => at,
        Some(b) => {
            out[at] = b;
            at + 1
        }
    }
}

// How many bytes the text has.
fn text_size(s: Sparse, ind: &[u32], val: &[u32]) -> usize
    requires { Well s ind.now val.now }
    ensures { result ≡ length (text_of (full s ind.now val.now)) }
{
    let mut sum: usize = 1;
    for k in 0..s.n {
        sum += before_size(s.size, k);
        sum += decimal::size(long(s, val[k as usize]));
    }
    if s.n == s.size { sum + 2 } else { sum + 1 }
}

// Puts the text at the start.
fn put_text(s: Sparse, ind: &[u32], val: &[u32], out: &mut [u8])
    requires well { Well s ind.now val.now }
    requires val_in_bounds { length (text_of (full s ind.now val.now)) ≤ length out.old }
    ensures { out.new ≡ (put_of (text_of (full s ind.now val.now)) out.old 0).cells }
{
    out[0] = b'[';
    let mut at: usize = 1;
    for k in 0..s.n {
        at = put_before(s.size, k, out, at);
        at = decimal::put(long(s, val[k as usize]), out, at);
    }
    if s.n == s.size {
        out[at] = b'|';
        at += 1;
    }
    out[at] = b']';
}

// Puts the text at the start, and answers how long it is. NoRoom: it is longer than `out`.
pub fn write_text(s: Sparse, ind: &[u32], val: &[u32], out: &mut [u8]) -> Result<usize, Refusal>
    ensures { written result out.new ≡ write_text_of (full s ind.now val.now) out.old }
{
    sparse_inner::check(s, ind, val)?;
    let size = text_size(s, ind, val);
    granted(size <= out.len(), Refusal::NoRoom)?;
    put_text(s, ind, val, out);
    Ok(size)
}
