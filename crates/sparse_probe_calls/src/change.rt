// The calls that make or change a set.
use probe_parts::record::Record;
use probe_parts::regs::Register;
use probe_parts::turn::{Turn, after};
use rules::Value;
use sparse_inner::SparseState;
use sparse_probe_parts::answer::{handed, made};
use sparse_probe_parts::call::Call;
use sparse_probe_parts::regs;

// `values` are those that a set is made of, `state` is the one that is restored.
pub fn one(
    call: Call,
    r: Record,
    old: Register,
    ind: &mut [u32],
    val: &mut [u32],
    values: &[i32],
    state: SparseState,
) -> Turn {
    let s = regs::set(old);
    let v = Value(r.v);
    match call {
        Call::New => made(sparse_make::new(v, Value(r.w), ind, val), old),
        Call::NewUnchecked => made(sparse_make::new_unchecked(v, Value(r.w), ind, val), old),
        Call::NewFromValues => made(sparse_make::new_from_values(values, ind, val), old),
        Call::Remove => handed(sparse::remove(s, ind, val, v)),
        Call::RemoveAll => handed(sparse::remove_all(s, ind, val)),
        Call::RemoveAllBut => handed(sparse::remove_all_but(s, ind, val, v)),
        Call::RemoveBelow => handed(sparse::remove_below(s, ind, val, v)),
        Call::RemoveAbove => handed(sparse::remove_above(s, ind, val, v)),
        Call::RestoreState => handed(sparse::restore_state(s, ind, val, state)),
        _ => after(old, super::look::ask(call, s, ind, val, v)),
    }
}

// A call on two sets, of which the second is lent to be read.
pub fn two(
    call: Call,
    old: Register,
    ind: &mut [u32],
    val: &mut [u32],
    other: Register,
    tind: &[u32],
    tval: &[u32],
) -> Turn {
    let s = regs::set(old);
    let t = regs::set(other);
    match call {
        Call::UnionWith => handed(sparse_pairs::union_with(s, ind, val, t, tind, tval)),
        Call::IsSubsetOf => after(
            old,
            sparse_pairs::is_subset_of(s, ind, val, t, tind, tval).into(),
        ),
        _ => after(old, sparse_pairs::equals(s, ind, val, t, tind, tval).into()),
    }
}

// The same for the calls that are lent scratch too.
pub fn parted(
    call: Call,
    old: Register,
    ind: &mut [u32],
    val: &mut [u32],
    other: Register,
    tind: &[u32],
    tval: &[u32],
    scratch: &mut [i32],
) -> Turn {
    let s = regs::set(old);
    let t = regs::set(other);
    match call {
        Call::IntersectWith => {
            handed(sparse_pairs::intersect_with(s, ind, val, t, tind, tval, scratch))
        }
        _ => handed(sparse_pairs::diff_with(s, ind, val, t, tind, tval, scratch)),
    }
}
