// The calls that change a domain, through a reference: what stands behind it is changed in place, and the answer is that of
// the call by value. A refused call leaves it as it was.
//
// insert, remove, remove_all_but, remove_below, remove_above; each is thin over the call of `domain` by its name.
// insert_here, remove_here, ..: the same by value, each lending a local to the call above it, for callers that hold no reference
#![tactic(auto)]

ghost use Rattle.std.specs.Prelude.{◌≡◌};
ghost use Rattle.rules.specs.Board.{assign, below, above};
ghost use Rattle.domain.specs.Calls.{insert_of, remove_of, close_of};
ghost use Rattle.domain_in_place.specs.Behind.{changed, narrowed};

use domain::{Answered, BitDomain, Changed, Narrowed};
use rules::{Refusal, Value};

pub fn insert(d: &mut BitDomain, v: Value) -> Result<bool, Refusal>
    ensures { changed d.new result ≡ insert_of d.old v }
{
    let r = domain::insert(*d, v);
    *d = r.domain;
    r.answer
}

pub fn insert_here(d: BitDomain, v: Value) -> Changed
    ensures { result ≡ insert_of d v }
{
    let mut domain = d;
    let answer = insert(&mut domain, v);
    Answered { domain, answer }
}

pub fn remove(d: &mut BitDomain, v: Value) -> Result<bool, Refusal>
    ensures { changed d.new result ≡ remove_of d.old v }
{
    let r = domain::remove(*d, v);
    *d = r.domain;
    r.answer
}

pub fn remove_here(d: BitDomain, v: Value) -> Changed
    ensures { result ≡ remove_of d v }
{
    let mut domain = d;
    let answer = remove(&mut domain, v);
    Answered { domain, answer }
}

pub fn remove_all_but(d: &mut BitDomain, v: Value) -> Result<(), Refusal>
    ensures { narrowed d.new result ≡ close_of assign d.old v }
{
    let r = domain::remove_all_but(*d, v);
    *d = r.domain;
    r.answer
}

pub fn remove_all_but_here(d: BitDomain, v: Value) -> Narrowed
    ensures { result ≡ close_of assign d v }
{
    let mut domain = d;
    let answer = remove_all_but(&mut domain, v);
    Answered { domain, answer }
}

pub fn remove_below(d: &mut BitDomain, v: Value) -> Result<(), Refusal>
    ensures { narrowed d.new result ≡ close_of below d.old v }
{
    let r = domain::remove_below(*d, v);
    *d = r.domain;
    r.answer
}

pub fn remove_below_here(d: BitDomain, v: Value) -> Narrowed
    ensures { result ≡ close_of below d v }
{
    let mut domain = d;
    let answer = remove_below(&mut domain, v);
    Answered { domain, answer }
}

pub fn remove_above(d: &mut BitDomain, v: Value) -> Result<(), Refusal>
    ensures { narrowed d.new result ≡ close_of above d.old v }
{
    let r = domain::remove_above(*d, v);
    *d = r.domain;
    r.answer
}

pub fn remove_above_here(d: BitDomain, v: Value) -> Narrowed
    ensures { result ≡ close_of above d v }
{
    let mut domain = d;
    let answer = remove_above(&mut domain, v);
    Answered { domain, answer }
}
