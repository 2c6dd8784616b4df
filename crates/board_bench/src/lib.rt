// Loops over the board's calls that are timed, for the comparison's `speed`; `board_bench_c` exports them. A board of 64 destinations,
// each with the chutes 0 to 63, is made once; each turn makes one call on it and goes on with the board that it handed back, but propagation,
// for which the caller says how many of the first destinations are assigned, goes on with the board as it came. What comes out is a sum of the
// answers, so that no turn can be left out.
//
// It is a crate of its own so that each call has one caller here, as in a program that works with a board in one place.
#![tactic(auto)]

use board::Board;
use rules::{Pair, Refusal, Value, Variable};

// What a refusal adds to a sum.
const REFUSED: u64 = 1000;

fn told(answer: Result<bool, Refusal>) -> u64 {
    answer.map_or(REFUSED, u64::from)
}

fn outcome(answer: Result<(), Refusal>) -> u64 {
    answer.map_or(REFUSED, |_| 1)
}

fn counted(answer: Result<usize, Refusal>) -> u64 {
    answer.map_or(REFUSED, |n| n as u64)
}

fn pair(answer: Result<Pair, Refusal>) -> u64 {
    answer.map_or(
        REFUSED,
        |p| 2 * u64::from(p.changed) + u64::from(p.consistent),
    )
}

fn chute(i: usize) -> Value {
    Value((i % 64) as i32)
}

fn id(i: usize) -> Variable {
    Variable((i % 64) as u32)
}

// The board of all loops: so many of the first destinations are assigned, each to a chute of its own.
fn set_up(assigned: usize) -> Board {
    let mut b = board_enter::new();
    for i in 0..64 {
        b = board_enter::add_variable(b, id(i), Value(0), Value(63)).board;
        if i < assigned {
            b = board_close::assign_variable(b, id(i), chute(i)).board;
        }
    }
    b
}

// The same with none assigned, and so many marks open.
fn set_up_marked(marks: usize) -> Board {
    let mut b = set_up(0);
    for _ in 0..marks {
        b = trial::mark(b).board;
    }
    b
}

pub fn bench_propagate(assigned: usize, turns: usize, list: &[u32]) -> u64 {
    let start = set_up(assigned);
    let mut sum: u64 = 0;
    for _ in 0..turns {
        let done = board_spread::propagate_alldiff(start, list);
        sum = sum.wrapping_add(pair(done.answer)) ^ done.board.rows[63].domain.mask.lo;
    }
    sum
}

// So many turns, each on the board that the last one handed back.
fn in_turn<F: Fn(Board, usize) -> (Board, u64)>(start: Board, turns: usize, turn: F) -> u64
    requires { F.IsAlwaysCallable turn }
{
    let mut b = start;
    let mut sum: u64 = 0;
    for i in 0..turns {
        let (next, answer) = turn(b, i);
        b = next;
        sum = sum.wrapping_add(answer);
    }
    sum
}

pub fn bench_close(marks: usize, turns: usize) -> u64 {
    in_turn(set_up_marked(marks), turns, |b, i| {
        let done = board_close::remove_value(b, id(i), chute(i / 64));
        (done.board, told(done.answer))
    })
}

pub fn bench_enter(turns: usize) -> u64 {
    in_turn(set_up(0), turns, |b, i| {
        let done = board_enter::add_variable(b, id(i), Value(0), Value(63));
        (done.board, outcome(done.answer))
    })
}

pub fn bench_ask(turns: usize) -> u64 {
    let b = set_up(0);
    (0..turns).fold(
        0u64,
        |sum, i| sum.wrapping_add(counted(board_ask::domain_size(b, id(i)))),
    )
}

pub fn bench_trial(turns: usize) -> u64 {
    in_turn(set_up(0), turns, |b, _| {
        let opened = trial::mark(b);
        let closed = trial::restore(opened.board);
        (
            closed.board,
            outcome(opened.answer).wrapping_add(outcome(closed.answer)),
        )
    })
}
