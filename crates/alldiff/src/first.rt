// The parts of step 1.
ghost use Rattle.std.specs.Prelude.{◌≡◌, true, ◌≤◌, pos, get_or};
ghost use Rattle.rules.specs.Pass.{step1};
ghost use Rattle.mask.specs.Val.{val};
ghost use Rattle.masks.specs.Cells.{Room};
ghost use Rattle.sweep.specs.Listed.{listed, swept, Left, Level, Within32};
ghost use Rattle.alldiff.specs.Fixing.{Fixing, Fixed};

use mask::Mask;
use masks::Masks;
use rules::Pair;

// The members of the masks that have one only, if no two of these have the same.
pub fn fixed(ms: &Masks, n: usize) -> Option<Mask>
    requires { n ≤ 64 }
    ensures { Fixed ms.now n result }
{
    let mut values = mask::empty();
    for &m in &ms[..n] {
        if mask::is_one(m) {
            if !mask::is_none(mask::and(m, values)) {
                return None;
            }
            values = mask::or(values, m);
        }
    }
    Some(values)
}

// Whether the universes of the first n places start at one value. Nothing ends it early, so that several are tested at a time.
pub fn is_level(mins: &[i32; 64], n: usize) -> bool
    requires { n ≤ 64 }
    ensures { result ≡ true → Level (get_or mins.now 0 (pos 0)) mins.now n }
{
    let first = mins[0];
    let mut level = true;
    for &min in &mins[..n] {
        level &= min == first;
    }
    level
}

// Step 1, place by place: the value of each that is assigned at entry is taken out of the others.
pub fn one_by_one(mins: &[i32; 64], ms: &mut Masks, n: usize) -> Pair
    requires { (n ≤ 64) × Room ms.old × Within32 mins.now ms.old n }
    ensures { Left n ms.old ms.new × (swept result (listed mins.now ms.new n) ≡ step1 (listed mins.now ms.old n)) }
{
    let entry = *ms;
    let mut changed = false;
    for p in 0..n {
        let m = entry[p];
        if mask::is_one(m) {
            let v = offset::value(mins[p], mask::lowest(m));
            let did = sweep::strike_others(mins, ms, n, p, v);
            changed |= did.changed;
            if !did.consistent {
                return Pair {
                    changed,
                    consistent: false,
                };
            }
        }
    }
    Pair {
        changed,
        consistent: true,
    }
}
