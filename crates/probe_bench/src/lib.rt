// A loop over each call that is timed, for the comparison's `speed`; `probe_bench_c` exports them. The domain or the domains go in as numbers,
// and what comes out is a sum of the answers, so that no turn can be left out.
//
// It is a crate of its own so that each call has one caller here, as in a program that works with domains in one place.
#![tactic(auto)]

ghost use Rattle.std.specs.Prelude.{◌<◌, ◌≤◌, length};

use domain::{BitDomain, Changed, Narrowed};
use mask::Mask;
use rules::{Refusal, Value};

fn domain_of(lo: u64, hi: u64, min: i32, max: i32) -> BitDomain {
    BitDomain {
        mask: Mask { lo, hi },
        min,
        max,
    }
}

// What a refusal adds to a sum.
const REFUSED: u64 = 1000;

// A value as its distance from the least i32.
fn distance(v: Value) -> u64 {
    offset::place(v.0, i32::MIN, 4294967296) as u64
}

fn bits(d: BitDomain) -> u64 {
    d.mask.lo ^ d.mask.hi
}

fn told(answer: Result<bool, Refusal>) -> u64 {
    answer.map_or(REFUSED, u64::from)
}

fn outcome(answer: Result<(), Refusal>) -> u64 {
    answer.map_or(REFUSED, |_| 0)
}

fn counted(answer: Result<usize, Refusal>) -> u64 {
    answer.map_or(REFUSED, |n| n as u64)
}

fn found(answer: Result<Value, Refusal>) -> u64 {
    answer.map_or(REFUSED, distance)
}

// A domain after a call, and the call's answer in a sum.
type Turn = (BitDomain, u64);

fn changed(c: Changed) -> Turn {
    (c.domain, told(c.answer))
}

fn narrowed(n: Narrowed) -> Turn {
    (n.domain, outcome(n.answer))
}

// A turn for each value, on the domain as the last turn left it.
fn in_turn<F: Fn(BitDomain, Value) -> Turn>(start: BitDomain, values: &[i32], turn: F) -> u64
    requires { F.IsAlwaysCallable turn }
{
    let mut d = start;
    let mut sum: u64 = 0;
    for v in values {
        let (next, answer) = turn(d, Value(*v));
        d = next;
        sum = sum.wrapping_add(answer);
    }
    sum ^ bits(d)
}

pub fn bench_remove(lo: u64, hi: u64, min: i32, max: i32, values: &[i32]) -> u64 {
    in_turn(
        domain_of(lo, hi, min, max),
        values,
        |d, v| changed(domain::remove(d, v)),
    )
}

pub fn bench_insert(lo: u64, hi: u64, min: i32, max: i32, values: &[i32]) -> u64 {
    in_turn(
        domain_of(lo, hi, min, max),
        values,
        |d, v| changed(domain::insert(d, v)),
    )
}

pub fn bench_remove_below(lo: u64, hi: u64, min: i32, max: i32, values: &[i32]) -> u64 {
    in_turn(
        domain_of(lo, hi, min, max),
        values,
        |d, v| narrowed(domain::remove_below(d, v)),
    )
}

pub fn bench_remove_above(lo: u64, hi: u64, min: i32, max: i32, values: &[i32]) -> u64 {
    in_turn(
        domain_of(lo, hi, min, max),
        values,
        |d, v| narrowed(domain::remove_above(d, v)),
    )
}

// Each value on the domain as it came, since the first would leave little of it.
pub fn bench_remove_all_but(lo: u64, hi: u64, min: i32, max: i32, values: &[i32]) -> u64 {
    let d = domain_of(lo, hi, min, max);
    let mut sum: u64 = 0;
    for v in values {
        let c = domain::remove_all_but(d, Value(*v));
        sum = sum.wrapping_add(outcome(c.answer)) ^ bits(c.domain);
    }
    sum
}

pub fn bench_contains(lo: u64, hi: u64, min: i32, max: i32, values: &[i32]) -> u64 {
    let d = domain_of(lo, hi, min, max);
    values.iter().fold(
        0u64,
        |sum, v| sum.wrapping_add(told(domain::contains(d, Value(*v)))),
    )
}

// How many domains the four slices hold.
fn domains(lo: &[u64], hi: &[u64], min: &[i32], max: &[i32]) -> usize
    ensures { (result ≤ length lo.now) × (result ≤ length hi.now) × (result ≤ length min.now) × (result ≤ length max.now) }
{
    let n = lo.len();
    if hi.len() < n || min.len() < n || max.len() < n {
        return 0;
    }
    n
}

fn at(lo: &[u64], hi: &[u64], min: &[i32], max: &[i32], j: usize) -> BitDomain
    requires { (j < length lo.now) × (j < length hi.now) × (j < length min.now) × (j < length max.now) }
{
    domain_of(lo[j], hi[j], min[j], max[j])
}

// Another domain for each value, so that the test of a domain can't be made once for all of them.
pub fn bench_contains_each(
    lo: &[u64],
    hi: &[u64],
    min: &[i32],
    max: &[i32],
    values: &[i32],
) -> u64 {
    let n = domains(lo, hi, min, max);
    if values.len() < n {
        return 0;
    }
    let mut sum: u64 = 0;
    for j in 0..n {
        sum = sum.wrapping_add(told(domain::contains(at(lo, hi, min, max, j), Value(values[j]))));
    }
    sum
}

// The sum of what is answered about each domain.
fn of_each<F: FnMut(BitDomain) -> u64>(
    lo: &[u64],
    hi: &[u64],
    min: &[i32],
    max: &[i32],
    mut answer: F,
) -> u64
    requires { F.IsAlwaysCallable answer }
{
    let mut sum: u64 = 0;
    for j in 0..domains(lo, hi, min, max) {
        sum = sum.wrapping_add(answer(at(lo, hi, min, max, j)));
    }
    sum
}

pub fn bench_size(lo: &[u64], hi: &[u64], min: &[i32], max: &[i32]) -> u64 {
    of_each(lo, hi, min, max, |d| counted(domain::size(d)))
}

pub fn bench_min(lo: &[u64], hi: &[u64], min: &[i32], max: &[i32]) -> u64 {
    of_each(lo, hi, min, max, |d| found(domain::min(d)))
}

pub fn bench_max(lo: &[u64], hi: &[u64], min: &[i32], max: &[i32]) -> u64 {
    of_each(lo, hi, min, max, |d| found(domain::max(d)))
}

pub fn bench_is_fixed(lo: &[u64], hi: &[u64], min: &[i32], max: &[i32]) -> u64 {
    of_each(lo, hi, min, max, |d| told(domain::is_fixed(d)))
}

// The values of one domain by a cursor: a mask has at most 128, so the walk has ended by then.
fn walk(d: BitDomain) -> u64 {
    let Ok(mut cursor) = domain_values::iter(d) else {
        return REFUSED;
    };
    let mut sum: u64 = 0;
    for _ in 0..129 {
        let step = domain_values::next(cursor);
        cursor = step.cursor;
        match step.answer {
            Ok(Some(v)) => {
                sum = sum.wrapping_add(distance(v));
            }
            Ok(None) => {
                return sum;
            }
            Err(_) => {
                return REFUSED;
            }
        }
    }
    sum
}

pub fn bench_iter(lo: &[u64], hi: &[u64], min: &[i32], max: &[i32]) -> u64 {
    of_each(lo, hi, min, max, walk)
}

// The values of each domain into the same cells.
pub fn bench_to_vec(lo: &[u64], hi: &[u64], min: &[i32], max: &[i32], cells: &mut [i32]) -> u64 {
    of_each(
        lo,
        hi,
        min,
        max,
        |d| counted(domain_values::to_vec(d, cells)),
    )
}
