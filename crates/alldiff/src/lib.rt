// The pass of 01, "Board and pass", over the listed domains as they are gathered: of each place the smallest value of its
// universe, and its mask.
//
// spread; first::fixed, is_level, one_by_one: the parts of step 1
#![tactic(auto)]

ghost use Rattle.std.specs.Prelude.{◌≡◌, ℕ, ◌+◌, ◌^◌, ◌<◌, ◌≤◌, pos, ◌+ℤ◌, length, get_or, take};
ghost use Rattle.std.specs.Int.Count.{ones};
ghost use Rattle.std.specs.Int.{w32};
ghost use Rattle.std.proofs.Common.{SFits};
ghost use Rattle.rules.specs.Sets.{has};
ghost use Rattle.rules.specs.Pass.{pick, present, step1, step2, pass, raises};
ghost use Rattle.rules.specs.Table.{bits, table};
ghost use Rattle.mask.specs.Val.{val};
ghost use Rattle.mask.specs.Sets.{In};
ghost use Rattle.domain.specs.Set.{values_of};
ghost use Rattle.masks.specs.Cells.{Room};
ghost use Rattle.sweep.specs.Listed.{listed, swept, Left, Within32};
ghost use Rattle.alldiff.specs.Gather.{add_to, gathered, Holds, told};
ghost use Rattle.alldiff.specs.Choice.{Few};

use mask::Mask;
use masks::Masks;
use rules::Pair;

mod first;

// What the pass answers, and whether it sets the board's `domains_changed`.
#[derive(Clone, Copy)]
pub struct Passed {
    pub answer: Pair,
    pub raised: bool,
}

// Step 2's subsets of six places, bit i for place i: by size, then in lexicographic order.
const SUBSETS: [u8; 50] = [
    3, 5, 9, 17, 33, 6, 10, 18, 34, 12, 20, 36, 24, 40, 48, 7, 11, 19, 35, 13, 21, 37, 25, 41, 49,
    14, 22, 38, 26, 42, 50, 28, 44, 52, 56, 15, 23, 39, 27, 43, 51, 29, 45, 53, 57, 30, 46, 54, 58,
    60,
];

// How many places the subset at a place of the table has.
fn size(t: usize) -> usize
    requires { t < 50 }
    ensures { (result ≡ ones (get_or table t 0)) × (result ≤ 4) }
{
    if t < 15 {
        return 2;
    }
    if t < 35 {
        return 3;
    }
    4
}

// Step 1: the value of each place that is assigned at entry is taken out of the others. Where all universes start at one value
// and the values differ, all are taken out at once; if that empties a domain, the masks are put back, and they are taken out
// one by one up to the first that does.
fn step_one(mins: &[i32; 64], ms: &mut Masks, n: usize) -> Pair
    requires { (n ≤ 64) × Room ms.old × Within32 mins.now ms.old n }
    ensures { Left n ms.old ms.new × (swept result (listed mins.now ms.new n) ≡ step1 (listed mins.now ms.old n)) }
{
    let Some(values) = first::fixed(ms, n) else {
        return first::one_by_one(mins, ms, n);
    };
    if mask::is_none(values) {
        return sweep::STILL;
    }
    if !first::is_level(mins, n) {
        return first::one_by_one(mins, ms, n);
    }
    let entry = *ms;
    let did = sweep::strike_unassigned(ms, n, values);
    if did.consistent {
        return did;
    }
    *ms = entry;
    first::one_by_one(mins, ms, n)
}

// Whether x is one of some values.
fn seen(vals: &[i32], x: i32) -> bool
    ensures { result ≡ has x vals.now }
{
    vals.contains(&x)
}

// The values of a mask join the first r values: how many there are then, if there is room for them.
fn add_all(vals: &mut [i32], r: usize, min: i32, m: Mask) -> Option<usize>
    requires { (r ≤ length vals.old) × ((k : ℕ) → In (val m) k → SFits w32 (min +ℤ pos k)) }
    ensures { Holds (add_to (take r vals.old) (values_of min m)) vals.new result }
{
    let mut rest = m;
    let mut at = r;
    while !mask::is_none(rest) {
        let x = offset::value(min, mask::lowest(rest));
        if !seen(&vals[..at], x) {
            if at == vals.len() {
                return None;
            }
            vals[at] = x;
            at += 1;
        }
        rest = mask::rest(rest);
    }
    Some(at)
}

// The values of a subset's domains, each once: how many there are, if there is room for them.
fn gather(mins: &[i32; 64], ms: &Masks, n: usize, set: u8, vals: &mut [i32]) -> Option<usize>
    requires { (n ≤ 64) × Within32 mins.now ms.now n }
    ensures { Holds (gathered (pick (bits n set) (listed mins.now ms.now n))) vals.new result }
{
    let mut r = 0;
    let mut inside = set;
    for p in 0..n {
        if inside % 2 == 1 {
            r = add_all(vals, r, mins[p], ms[p])?;
        }
        inside /= 2;
    }
    Some(r)
}

// The places whose domains have at most 4 values: no other can be in a tight subset.
fn small(ms: &Masks, n: usize) -> u8
    requires { n ≤ 6 }
    ensures { Few ms.now n result }
{
    let mut fit: u8 = 0;
    for p in 0..n {
        if mask::count(ms[p]) <= 4 {
            fit |= 1 << p;
        }
    }
    fit
}

// A subset of k places, by the present domains: if they have k values in all, these are taken out of the others.
fn turn(mins: &[i32; 64], ms: &mut Masks, n: usize, set: u8, k: usize) -> Pair
    requires { (n ≤ 6) × Room ms.old × Within32 mins.now ms.old n × (set < 2 ^ n) × (k ≡ ones set) × (k ≤ 4) }
    ensures { Left n ms.old ms.new × (swept result (listed mins.now ms.new n) ≡ present (bits n set) (listed mins.now ms.old n)) }
{
    let mut cells = [0i32; 4];
    let vals = &mut cells[..k];
    if gather(mins, ms, n, set, vals) != Some(k) {
        return sweep::STILL;
    }
    sweep::strike_outside(mins, ms, n, set, vals)
}

// Step 2: each subset in the table's order. A subset is passed over if it has a place beyond the list, or one with too many
// values; mostly all have, and then none is looked at.
fn step_two(mins: &[i32; 64], ms: &mut Masks, n: usize) -> Pair
    requires { (n ≤ 6) × Room ms.old × Within32 mins.now ms.old n }
    ensures { Left n ms.old ms.new × (swept result (listed mins.now ms.new n) ≡ step2 (listed mins.now ms.old n)) }
{
    let subsets = SUBSETS;
    let fit = small(ms, n);
    if fit == 0 {
        return sweep::STILL;
    }
    let mut other = !fit;
    let mut changed = false;
    for (t, &set) in subsets.iter().enumerate() {
        if set & other == 0 {
            let did = turn(mins, ms, n, set, size(t));
            changed |= did.changed;
            if !did.consistent {
                return Pair {
                    changed,
                    consistent: false,
                };
            }
            if did.changed {
                other = !small(ms, n);
            }
        }
    }
    Pair {
        changed,
        consistent: true,
    }
}

// The pass. After a stop in step 2 `changed` tells of step 1 only, and step 2 never raises the flag.
pub fn spread(mins: &[i32; 64], ms: &mut Masks, n: usize) -> Passed
    requires { (n ≤ 64) × Room ms.old × Within32 mins.now ms.old n }
    ensures { Left n ms.old ms.new × (told result (listed mins.now ms.new n) ≡ pass (listed mins.now ms.old n)) × (result.raised ≡ raises (listed mins.now ms.old n)) }
{
    if n <= 1 {
        return Passed {
            answer: sweep::STILL,
            raised: false,
        };
    }
    let one = step_one(mins, ms, n);
    let raised = one.changed;
    if !one.consistent || 6 < n {
        return Passed {
            answer: one,
            raised,
        };
    }
    let two = step_two(mins, ms, n);
    let changed = raised | (two.consistent & two.changed);
    Passed {
        answer: Pair {
            changed,
            consistent: two.consistent,
        },
        raised,
    }
}
