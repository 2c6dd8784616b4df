// Batches of 256 closings in a loop, for the comparison's `speed`; `hand_bench_c` exports them. Each turn goes on with the board that the
// last one handed back, so that no turn can be left out.
//
// bench_many: the closings by value. bench_lent: the same closings lent.
#![tactic(auto)]

ghost use Rattle.std.specs.Prelude.{◌<◌};

use batch::Batched;
use board::Board;
use closing::{Closing, Kind};
use rules::{Value, Variable};
use std::array;

fn id(i: usize) -> Variable
    requires { i < 64 }
{
    Variable(i as u32 * 7919)
}

// 64 destinations over 101 chutes.
fn board() -> Board {
    let mut b = board_enter::new();
    for i in 0..64 {
        b = board_enter::add_variable(b, id(i), Value(0), Value(100)).board;
    }
    b
}

fn kind(i: usize) -> Kind {
    match i % 4 {
        1 => Kind::Below,
        2 => Kind::Above,
        _ => Kind::Remove,
    }
}

fn closing(i: usize) -> Closing
    requires { i < 256 }
{
    Closing {
        kind: kind(i),
        id: id(i * 37 % 64),
        value: Value((i * 29 % 100) as i32),
    }
}

fn run() -> [Closing; 256] {
    array::from_fn(closing)
}

// What a refusal adds to a sum.
const REFUSED: u64 = 65536;

fn in_turn<F: Fn(Board) -> Batched>(turns: usize, turn: F) -> u64
    requires { F.IsAlwaysCallable turn }
{
    let mut b = board();
    let mut sum: u64 = 0;
    for _ in 0..turns {
        let r = turn(b);
        b = r.board;
        sum ^= r.answer.map_or(REFUSED, |n| n as u64);
    }
    sum
}

pub fn bench_many(turns: usize) -> u64 {
    let cs = run();
    in_turn(turns, |b| batch::close_many(b, cs, 256))
}

pub fn bench_lent(turns: usize) -> u64 {
    let cs = run();
    in_turn(turns, |b| batch_lent::close_run(b, cs))
}
