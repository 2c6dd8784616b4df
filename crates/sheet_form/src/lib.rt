// What a wave sheet says, as rows: destinations to register, closings to apply in order, and lists to propagate. Each list is the part of one
// run of ids that starts where its own ids begin. Here is the form alone; `sheet` reads it from bytes, and the wave runs it.
#![tactic(auto)]

use closing::Closing;
use rules::{Value, Variable};

// A destination, and the two ends of its chutes.
#[derive(Clone, Copy)]
pub struct Destination {
    pub id: Variable,
    pub min: Value,
    pub max: Value,
}

// Where in the run of ids a list lies.
#[derive(Clone, Copy)]
pub struct Span {
    pub start: usize,
    pub len: usize,
}

// Rows, of which the first `count` are the sheet's; the others are blank.
#[derive(Clone, Copy)]
pub struct Rows<T, const N: usize> {
    pub rows: [T; N],
    pub count: usize,
}

// A whole sheet; the ids of all its lists stand in one run.
#[derive(Clone, Copy)]
pub struct Parsed {
    pub destinations: Rows<Destination, 64>,
    pub closings: Rows<Closing, 256>,
    pub lists: Rows<Span, 16>,
    pub ids: [u32; 1024],
}
