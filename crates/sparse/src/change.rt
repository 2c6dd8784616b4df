// The calls that change a set. One that isn't well formed is refused, and it and its orderings are handed back as they came.
#![tactic(auto, unfolding(crate::specs::Calls::remove_of, crate::specs::Calls::remove_all_of, crate::specs::Calls::remove_all_but_of, crate::specs::Calls::remove_below_of, crate::specs::Calls::remove_above_of, crate::specs::Calls::restore_of, sparse_inner::specs::Set::is_held))]

ghost use Rattle.std.specs.Prelude.{◌≡◌};
ghost use Rattle.sparse_inner.specs.Set.{full};
ghost use Rattle.sparse.specs.Calls.{after, remove_of, remove_all_of, remove_all_but_of, remove_below_of, remove_above_of, restore_of};

use super::inner::{done, refused};
use super::{Changed, Narrowed};
use rules::{Refusal, Value};
use sparse_inner::{Sparse, SparseState};

pub fn remove(s: Sparse, ind: &mut [u32], val: &mut [u32], v: Value) -> Changed
    ensures { after result.answer (full result.set ind.new val.new) ≡ remove_of (full s ind.old val.old) v }
{
    match sparse_inner::check(s, ind, val) {
        Err(why) => refused(s, why),
        Ok(()) => {
            let o = sparse_inner::place(s, v);
            let held = sparse_inner::holds(ind, s.n, s.size, o);
            done(sparse_inner::drop_at(s, ind, val, o), held)
        }
    }
}

pub fn remove_all(s: Sparse, ind: &[u32], val: &[u32]) -> Narrowed
    ensures { after result.answer (full result.set ind.now val.now) ≡ remove_all_of (full s ind.now val.now) }
{
    match sparse_inner::check(s, ind, val) {
        Err(why) => refused(s, why),
        Ok(()) => done(sparse_inner::emptied(s), ()),
    }
}

pub fn remove_all_but(s: Sparse, ind: &mut [u32], val: &mut [u32], v: Value) -> Narrowed
    ensures { after result.answer (full result.set ind.new val.new) ≡ remove_all_but_of (full s ind.old val.old) v }
{
    match sparse_inner::check(s, ind, val) {
        Err(why) => refused(s, why),
        Ok(()) => {
            let o = sparse_inner::place(s, v);
            done(sparse_inner::only_at(s, ind, val, o), ())
        }
    }
}

pub fn remove_below(s: Sparse, ind: &mut [u32], val: &mut [u32], v: Value) -> Narrowed
    ensures { after result.answer (full result.set ind.new val.new) ≡ remove_below_of (full s ind.old val.old) v }
{
    match sparse_inner::check(s, ind, val) {
        Err(why) => refused(s, why),
        Ok(()) => {
            let cut = sparse_inner::below(s, v);
            done(sparse_inner::from_cut(s, ind, val, cut), ())
        }
    }
}

pub fn remove_above(s: Sparse, ind: &mut [u32], val: &mut [u32], v: Value) -> Narrowed
    ensures { after result.answer (full result.set ind.new val.new) ≡ remove_above_of (full s ind.old val.old) v }
{
    match sparse_inner::check(s, ind, val) {
        Err(why) => refused(s, why),
        Ok(()) => {
            let cut = sparse_inner::upto(s, v);
            done(sparse_inner::under_cut(s, ind, val, cut), ())
        }
    }
}

pub fn restore_state(s: Sparse, ind: &[u32], val: &[u32], t: SparseState) -> Narrowed
    ensures { after result.answer (full result.set ind.now val.now) ≡ restore_of (full s ind.now val.now) t }
{
    match sparse_inner::check(s, ind, val) {
        Err(why) => refused(s, why),
        Ok(()) => {
            if !sparse_inner::fits(ind, val, s.n, t) {
                return refused(s, Refusal::BadState);
            }
            done(sparse_inner::resized(s, t.size, t.min, t.max), ())
        }
    }
}
