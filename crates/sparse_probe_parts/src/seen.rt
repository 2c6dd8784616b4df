// What is seen of lent cells: all of them in one number.
use probe_parts::wire::{bits, pair};

// A number that another x would have made another.
fn mixed(h: u64, x: u64) -> u64 {
    let a = (h ^ x).wrapping_add(11400714819323198485);
    let b = a ^ (a << 13);
    let c = b ^ (b >> 7);
    c ^ (c << 17)
}

const START: u64 = 1;

// Of the cells of both orderings.
pub fn orderings(ind: &[u32], val: &[u32]) -> u64 {
    ind.iter()
        .zip(val.iter())
        .fold(START, |h, (i, v)| mixed(h, pair(*i, *v)))
}

pub fn values(cells: &[i32]) -> u64 {
    cells.iter().fold(START, |h, v| mixed(h, bits(*v)))
}

pub fn bytes(cells: &[u8]) -> u64 {
    cells.iter().fold(START, |h, x| mixed(h, *x as u64))
}
