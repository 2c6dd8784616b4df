// The forms through a reference behind one function, for comparisons with the Rust: removal through a reference, and a batch
// by value and lent, with its first closing alone through a reference. A frame is one or the other. `hand_probe_c` exports it.
//
// probe_hand: runs a frame, bytes in, answers and states as bytes out (differential/FORMAT.md says which)
//
// It has no `requires`: it is safe on whatever it is lent.
#![tactic(auto)]

ghost use Rattle.std.specs.Prelude.{◌≡◌, ◌+◌, ◌<◌, ◌≤◌, length};

use batch::Batched;
use board::{Board, Closed};
use board_probe_parts::show::{left, put_masks};
use closing::{Closing, Kind};
use domain::{BitDomain, Changed, Narrowed};
use probe_parts::regs::Register;
use probe_parts::wire;
use rules::{Refusal, Value, Variable};
use std::array;

// The bytes of a frame, of which all are read.
const FRAME: usize = 8192;

// How many removals a frame has.
const REMOVALS: usize = 200;

// Where the closings of a batch begin in a frame.
const CLOSINGS: usize = 1040;

// ---- removals: four words in, four out

// A refusal stands above the answers that its call has otherwise.
fn told(answer: Result<bool, Refusal>) -> u64 {
    answer.map_or_else(|r| 256 + r.number() as u64, u64::from)
}

fn outcome(answer: Result<(), Refusal>) -> u64 {
    answer.map_or_else(|r| 256 + r.number() as u64, |_| 2)
}

fn counted(answer: Result<usize, Refusal>) -> u64 {
    answer.map_or_else(|r| 65536 + r.number() as u64, |n| n as u64)
}

// What a call left behind the reference, and its answer as a number.
#[derive(Clone, Copy)]
struct After {
    left: Register,
    answer: u64,
}

fn changed(c: Changed) -> After {
    After {
        left: c.domain.into(),
        answer: told(c.answer),
    }
}

fn narrowed(n: Narrowed) -> After {
    After {
        left: n.domain.into(),
        answer: outcome(n.answer),
    }
}

// The removals by their numbers in a frame.
fn called(op: u64, d: BitDomain, v: Value) -> After {
    match op {
        0 => changed(domain_in_place::remove_here(d, v)),
        1 => changed(domain_in_place::insert_here(d, v)),
        2 => narrowed(domain_in_place::remove_all_but_here(d, v)),
        3 => narrowed(domain_in_place::remove_below_here(d, v)),
        _ => narrowed(domain_in_place::remove_above_here(d, v)),
    }
}

fn domain_at(script: &[u8], at: usize) -> BitDomain
    requires { at + 24 ≤ length script.now }
{
    let r = Register {
        lo: wire::word(script, at),
        hi: wire::word(script, at + 8),
        bounds: wire::word(script, at + 16),
    };
    r.into()
}

fn step(script: &[u8], at: usize, out: &mut [u8], to: usize)
    requires { (at + 32 ≤ length script.now) × (to + 32 ≤ length out.old) }
    ensures { length out.new ≡ length out.old }
{
    let head = wire::word(script, at);
    let d = domain_at(script, at + 8);
    let r = called(head % 256, d, Value(wire::signed(head >> 32)));
    wire::put_words(&[r.answer, r.left.lo, r.left.hi, r.left.bounds], out, to);
}

fn removals(script: &[u8], out: &mut [u8])
    requires { (8192 ≤ length script.now) × (8192 ≤ length out.old) }
    ensures { length out.new ≡ length out.old }
{
    for i in 0..REMOVALS {
        step(script, 32 + 32 * i, out, 32 * i);
    }
}

// ---- a batch: its board, and its closings

fn kind(w: u64) -> Kind {
    match w % 4 {
        0 => Kind::Remove,
        1 => Kind::Assign,
        2 => Kind::Below,
        _ => Kind::Above,
    }
}

fn closing(script: &[u8], at: usize) -> Closing
    requires { at + 16 ≤ length script.now }
{
    let head = wire::word(script, at);
    Closing {
        kind: kind(head),
        id: Variable(wire::half(head >> 32)),
        value: Value(wire::signed(wire::word(script, at + 8))),
    }
}

fn run(script: &[u8]) -> [Closing; 256]
    requires { 8192 ≤ length script.now }
{
    array::from_fn(|i| closing(script, CLOSINGS + 16 * i))
}

// A destination more: its id, and the ends of its chutes.
fn registered(script: &[u8], at: usize, b: Board) -> Board
    requires { at + 16 ≤ length script.now }
{
    let id = wire::half(wire::word(script, at));
    let ends = wire::word(script, at + 8);
    let first = Value(wire::signed(ends));
    let last = Value(wire::signed(ends >> 32));
    board_enter::add_variable(b, Variable(id), first, last).board
}

fn board(script: &[u8], count: usize) -> Board
    requires { (8192 ≤ length script.now) × (count < 65) }
{
    let mut b = board_enter::new();
    for i in 0..count {
        b = registered(script, 16 + 16 * i, b);
    }
    b
}

// An answer as a number, the flag, and the masks of all rows; then one number over all of the board, its count and its marks.
fn show(answer: u64, b: Board, out: &mut [u8], to: usize)
    requires { to + 2064 ≤ length out.old }
    ensures { length out.new ≡ length out.old }
{
    let whole = left(b);
    wire::put_words(&[answer, u64::from(b.changed)], out, to);
    put_masks(b.rows, out, to + 16);
    wire::put_words(&[whole.lo, whole.hi, whole.bounds], out, to + 1040);
}

fn closed_here(b: Board, c: Closing) -> Closed {
    match c.kind {
        Kind::Remove => board_in_place::remove_value_here(b, c.id, c.value),
        Kind::Assign => board_in_place::assign_variable_here(b, c.id, c.value),
        Kind::Below => board_in_place::remove_below_here(b, c.id, c.value),
        Kind::Above => board_in_place::remove_above_here(b, c.id, c.value),
    }
}

// The board's flag is cleared first, and its count set past the limit where the frame asks for a board that isn't well formed.
fn ready(b: Board, broken: bool) -> Board {
    let mut next = board_close::reset_changed_flag(b).board;
    if broken {
        next.count = 65;
    }
    next
}

fn asked(script: &[u8]) -> Board
    requires { 8192 ≤ length script.now }
{
    let head = wire::word(script, 8);
    ready(
        board(script, (head % 256 % 65) as usize),
        (head / 65536) % 2 == 1,
    )
}

// The batch by value.
fn many(script: &[u8], b: Board) -> Batched
    requires { 8192 ≤ length script.now }
{
    let n = (wire::word(script, 8) >> 32) as usize;
    batch::close_many(b, run(script), n)
}

// The batch's first closing, through a reference to the board.
fn first(script: &[u8], b: Board) -> Closed
    requires { 8192 ≤ length script.now }
{
    closed_here(b, closing(script, CLOSINGS))
}

// The batch by value, and the batch lent.
fn show_both(script: &[u8], b: Board, out: &mut [u8])
    requires { (8192 ≤ length script.now) × (8192 ≤ length out.old) }
    ensures { length out.new ≡ length out.old }
{
    let by_value = many(script, b);
    show(counted(by_value.answer), by_value.board, out, 0);
    let lent = batch_lent::close_run(b, run(script));
    show(counted(lent.answer), lent.board, out, 1064);
}

fn batches(script: &[u8], out: &mut [u8])
    requires { (8192 ≤ length script.now) × (8192 ≤ length out.old) }
    ensures { length out.new ≡ length out.old }
{
    let b = asked(script);
    show_both(script, b, out);
    let alone = first(script, b);
    show(told(alone.answer), alone.board, out, 2128);
}

// The answers to one frame: 6,400 bytes to removals, 3,192 to a batch. Where there is less room than a frame, none.
pub fn probe_hand(script: &[u8], out: &mut [u8]) -> usize
    ensures { result ≤ length out.new }
{
    if script.len() < FRAME || out.len() < FRAME {
        return 0;
    }
    if wire::word(script, 0) == 0 {
        removals(script, out);
        return 6400;
    }
    batches(script, out);
    3192
}
