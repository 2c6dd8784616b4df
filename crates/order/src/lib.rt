// Two orderings of the numbers below n that are inverse to one another, over cells that the caller lends: `val` holds the numbers in their
// order, and `ind` says where each stands. Cells past n are never written.
//
// fill, exchange, is_inverse
#![tactic(auto)]

ghost use Rattle.std.specs.Prelude.{◌≡◌, ◌<◌, ◌≤◌, length, get_or};
ghost use Rattle.order.specs.Order.{swapped, inverse_b, counted};

// The identity over the first n cells of both.
pub fn fill(ind: &mut [u32], val: &mut [u32], n: u32)
    requires { (n ≤ length ind.old) × (n ≤ length val.old) }
    ensures { (ind.new ≡ counted n ind.old) × (val.new ≡ counted n val.old) }
{
    for i in 0..n {
        ind[i as usize] = i;
        val[i as usize] = i;
    }
}

// Exchanges the numbers v1 and v2 in both orderings.
pub fn exchange(ind: &mut [u32], val: &mut [u32], v1: u32, v2: u32)
    requires v1_in_bounds { (v1 < length ind.old) × (v2 < length ind.old) }
    requires v1_in_bounds_2 { (get_or ind.old v1 0 < length val.old) × (get_or ind.old v2 0 < length val.old) }
    requires v1_value { (get_or val.old (get_or ind.old v1 0) 0 ≡ v1) × (get_or val.old (get_or ind.old v2 0) 0 ≡ v2) }
    ensures ind_after { ind.new ≡ swapped v1 v2 ind.old }
    ensures val_after { val.new ≡ swapped (get_or ind.old v1 0) (get_or ind.old v2 0) val.old }
{
    let a1 = v1 as usize;
    let a2 = v2 as usize;
    let i1 = ind[a1];
    let i2 = ind[a2];
    let p1 = i1 as usize;
    let p2 = i2 as usize;
    val[p1] = v2;
    val[p2] = v1;
    ind[a1] = i2;
    ind[a2] = i1;
}

// Are the two inverse over their first n cells? Each number is followed to its place and back: n numbers below n that all differ leave none out,
// so the way from the places to the numbers need not be tried.
pub fn is_inverse(ind: &[u32], val: &[u32], n: u32) -> bool
    requires { (n ≤ length ind.now) × (n ≤ length val.now) }
    ensures { result ≡ inverse_b ind.now val.now n }
{
    for i in 0..n {
        let a = ind[i as usize];
        if a >= n || val[a as usize] != i {
            return false;
        }
    }
    true
}
