// The masks that the open marks of a board saved, one for each row, in one run of words. Nothing above knows how many
// words a mask has: each contract speaks of `saved_at`, the mask that a mark saved for a row.
//
// at, put, join
#![tactic(auto)]

ghost use Rattle.std.specs.Prelude.{◌≡◌, ◌&&◌, ℕ, ◌^◌, ◌≤◌, ◌<◌, ltb};
ghost use Rattle.mask.specs.Val.{val};
ghost use Rattle.saved.specs.Saved.{saved_at, put_at, fit_under};

use mask::Mask;

// How many marks may be open.
pub const MARKS: usize = 8;

// Two words for a mask, 64 rows for a mark.
pub type Saved = [u64; 1024];

// The mask that mark m saved for row i.
pub fn at(ws: &Saved, m: usize, i: usize) -> Mask
    requires { (m < 8) × (i < 64) }
    ensures { result ≡ saved_at ws.now m i }
{
    let k = m * 128 + i * 2;
    Mask {
        lo: ws[k],
        hi: ws[k + 1],
    }
}

// x is saved there.
pub fn put(ws: &mut Saved, m: usize, i: usize, x: Mask)
    requires { (m < 8) × (i < 64) }
    ensures { ws.new ≡ put_at ws.old m i x }
{
    let k = m * 128 + i * 2;
    ws[k] = x.lo;
    ws[k + 1] = x.hi;
}

// x and all members of the masks that the first marks saved for row i: below a limit exactly if x and each of them are.
pub fn join(ws: &Saved, marks: usize, i: usize, x: Mask) -> Mask
    requires { (marks ≤ 8) × (i < 64) }
    ensures { (k : ℕ) → ltb (val result) (2 ^ k) ≡ ltb (val x) (2 ^ k) && fit_under ws.now marks i k }
{
    let mut all = x;
    for m in 0..marks {
        all = mask::or(all, at(ws, m, i));
    }
    all
}
