// Removals from the listed domains, in list order, up to the first domain that this empties.
//
// A listed domain is the mask at its place, over a universe that starts at the place's smallest value. The universes may
// differ in any way: a value is carried from one to another as an i32.
//
// strike_others, strike_outside, strike_unassigned; STILL
#![tactic(auto)]

ghost use Rattle.std.specs.Prelude.{◌≡◌, true, not, List, [], ◌∷◌, ◌<◌, ◌≤◌, eqb, ℤ};
ghost use Rattle.rules.specs.Sets.{Chutes, strike};
ghost use Rattle.rules.specs.Pass.{sweep};
ghost use Rattle.rules.specs.Table.{bits};
ghost use Rattle.rules.proofs.Loops.{only};
ghost use Rattle.mask.specs.Val.{val};
ghost use Rattle.domain.specs.Set.{values_of};
ghost use Rattle.masks.specs.Cells.{Room, mask_at, put_at};
ghost use Rattle.sweep.specs.Listed.{listed, swept, HeldAt, Struck, Left, assigned, Level};

use mask::Mask;
use masks::Masks;
use rules::Pair;

// What is told where nothing is taken away.
pub const STILL: Pair = Pair {
    changed: false,
    consistent: true,
};

// The mask without v, over a universe from min on.
fn without(m: Mask, min: i32, v: i32) -> Mask
    ensures { values_of min result ≡ strike (v ∷ []) (values_of min m) }
{
    let k = offset::place(v, min, mask::OFFSETS);
    if mask::OFFSETS <= k {
        return m;
    }
    mask::without(m, k)
}

// The mask without any of some values.
fn less(m: Mask, min: i32, vals: &[i32]) -> Mask
    ensures { values_of min result ≡ strike vals.now (values_of min m) }
{
    let mut rest = m;
    for &v in vals {
        rest = without(rest, min, v);
    }
    rest
}

// A mask that has lost something is put at place q again.
fn put(ms: &mut Masks, q: usize, left: Mask) -> Pair
    requires { q < 64 }
    ensures { (ms.new ≡ put_at ms.old q left) × (result ≡ record { changed = true; consistent = not (eqb (val left) 0) }) }
{
    ms[q] = left;
    Pair {
        changed: true,
        consistent: !mask::is_none(left),
    }
}

// What is left of the mask at place q is put there, if it is another.
fn leave(ms: &mut Masks, q: usize, left: Mask) -> Pair
    requires { (q < 64) × Room ms.old }
    ensures { (u : Chutes) (lo : ℤ) → values_of lo left ≡ strike u (values_of lo (mask_at ms.old q)) → Struck u lo q ms.old ms.new result }
{
    if mask::same(left, ms[q]) {
        return STILL;
    }
    put(ms, q, left)
}

// The offset at which m holds v, over a universe from min on.
fn offset_of(m: Mask, min: i32, v: i32) -> Option<usize>
    ensures { HeldAt m min v result }
{
    let k = offset::place(v, min, mask::OFFSETS);
    if k < mask::OFFSETS && mask::has(m, k) {
        return Some(k);
    }
    None
}

// v is taken out of the domain at place q. Most often it isn't held, so that is asked first.
fn strike_one(ms: &mut Masks, q: usize, min: i32, v: i32) -> Pair
    requires { (q < 64) × Room ms.old }
    ensures { Struck (v ∷ []) min q ms.old ms.new result }
{
    let m = ms[q];
    match offset_of(m, min, v) {
        Some(k) => put(ms, q, mask::without(m, k)),
        None => STILL,
    }
}

// v is taken out of every listed domain but that at place p.
pub fn strike_others(mins: &[i32; 64], ms: &mut Masks, n: usize, p: usize, v: i32) -> Pair
    requires { (n ≤ 64) × Room ms.old }
    ensures { Left n ms.old ms.new × (swept result (listed mins.now ms.new n) ≡ sweep (only n p) (v ∷ []) (listed mins.now ms.old n)) }
{
    let mut changed = false;
    for q in 0..n {
        if q != p {
            let did = strike_one(ms, q, mins[q], v);
            if !did.consistent {
                return did;
            }
            changed |= did.changed;
        }
    }
    Pair {
        changed,
        consistent: true,
    }
}

// Some values are taken out of every listed domain outside a subset of the places.
pub fn strike_outside(mins: &[i32; 64], ms: &mut Masks, n: usize, set: u8, vals: &[i32]) -> Pair
    requires { (n ≤ 64) × Room ms.old }
    ensures { Left n ms.old ms.new × (swept result (listed mins.now ms.new n) ≡ sweep (bits n set) vals.now (listed mins.now ms.old n)) }
{
    let mut changed = false;
    let mut inside = set;
    for q in 0..n {
        if inside % 2 != 1 {
            let m = ms[q];
            let did = leave(ms, q, less(m, mins[q], vals));
            if !did.consistent {
                return did;
            }
            changed |= did.changed;
        }
        inside /= 2;
    }
    Pair {
        changed,
        consistent: true,
    }
}

// The members of u are taken out of every listed domain that isn't assigned, where all universes start at one value.
pub fn strike_unassigned(ms: &mut Masks, n: usize, u: Mask) -> Pair
    requires { (n ≤ 64) × Room ms.old }
    ensures { Left n ms.old ms.new × ((mins : List ℤ) (lo : ℤ) → Level lo mins n → swept result (listed mins ms.new n) ≡ sweep (assigned ms.old n) (values_of lo u) (listed mins ms.old n)) }
{
    let mut changed = false;
    for q in 0..n {
        let m = ms[q];
        if !mask::is_one(m) {
            let did = leave(ms, q, mask::minus(m, u));
            if !did.consistent {
                return did;
            }
            changed |= did.changed;
        }
    }
    Pair {
        changed,
        consistent: true,
    }
}
