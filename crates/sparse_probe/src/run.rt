// A script on two sparse sets.
ghost use Rattle.std.specs.Prelude.{◌≡◌, ◌<◌, ◌≤◌, length};

use super::cells;
use super::cells::{CELLS, Cells, many};
use probe_parts::behind::of_halves;
use probe_parts::record::Record;
use probe_parts::regs::{CURSORS, Register, Registers, STATES};
use probe_parts::script::{Done, alone};
use probe_parts::turn::{Turn, after};
use probe_parts::wire::half;
use probe_parts::{reply, script};
use sparse_probe_calls::{change, look};
use sparse_probe_parts::answer::saved;
use sparse_probe_parts::call::Call;
use sparse_probe_parts::{lent, regs, seen};

// Registers, the cells of the two sets, and a list of values.
#[derive(Clone, Copy)]
struct Run {
    regs: Registers,
    sets: [Cells; 2],
    list: [i32; CELLS],
}

// What a record sets beside set a: 0 bits and blank cells, how many cells are lent, a cell, the list, a state, or a cursor.
fn arrange(call: Call, r: Record, a: usize, run: &mut Run)
    requires { (a < 2) × (r.b < 8) }
{
    match call {
        Call::Clear => {
            run.regs = Registers::new();
            run.sets[0].blank(r.n);
            run.sets[1].blank(r.n);
        }
        Call::SetLent => {
            run.regs.put(regs::LENT + a, regs::of_pair(r.lo, 0));
        }
        Call::SetInd => {
            cells::put(r, &mut run.sets[a].ind);
        }
        Call::SetVal => {
            cells::put(r, &mut run.sets[a].val);
        }
        Call::SetList => {
            cells::list_values(r, &mut run.list);
        }
        Call::SetState => {
            run.regs
                .put(STATES + r.b, regs::of_state(regs::raw_state(r)));
        }
        Call::SetCursor => {
            run.regs.put(CURSORS + r.b, regs::of_pair(r.n as u64, 0));
        }
        _ => {}
    }
}

// What a call is given of the registers: set a and the other set, how many cells of each are lent, state b and cursor b.
#[derive(Clone, Copy)]
struct Given {
    old: Register,
    other: Register,
    here: u64,
    there: u64,
    state: Register,
    cursor: Register,
}

fn to_call(r: Record, a: usize, regs: &Registers) -> Given
    requires { (a < 2) × (r.b < 8) }
{
    Given {
        old: regs.get(a),
        other: regs.get(1 - a),
        here: regs.get(regs::LENT + a).lo,
        there: regs.get(regs::LENT + 1 - a).lo,
        state: regs.get(STATES + r.b),
        cursor: regs.get(CURSORS + r.b),
    }
}

// A call on set a alone.
fn on_one(
    call: Call,
    r: Record,
    g: Given,
    ind: &mut [u32; CELLS],
    val: &mut [u32; CELLS],
    list: &[i32; CELLS],
) -> Turn
    requires { r.b < 8 }
{
    let inds = 2 + many(g.here);
    let vals = 3 + many(g.here >> 32);
    let end = r.b + r.n.min(4100);
    change::one(
        call,
        r,
        g.old,
        &mut ind[2..inds],
        &mut val[3..vals],
        &list[r.b..end],
        regs::state(g.state),
    )
}

// What is left of state b, where set a is saved.
fn save(g: Given, ind: &[u32; CELLS], val: &[u32; CELLS]) -> Turn {
    let inds = 2 + many(g.here);
    let vals = 3 + many(g.here >> 32);
    saved(
        sparse::save_state(regs::set(g.old), &ind[2..inds], &val[3..vals]),
        g.state,
    )
}

// What is left of cursor b, which walks set a.
fn walk(call: Call, g: Given, ind: &[u32; CELLS], val: &[u32; CELLS]) -> Turn {
    let inds = 2 + many(g.here);
    let vals = 3 + many(g.here >> 32);
    look::walk(
        call,
        regs::set(g.old),
        &ind[2..inds],
        &val[3..vals],
        half(g.cursor.lo),
    )
}

// The calls on set a that are lent cells or bytes to write to.
fn written(
    call: Call,
    r: Record,
    g: Given,
    ind: &[u32; CELLS],
    val: &[u32; CELLS],
    behind: &mut [u8],
) -> Done
    requires { (r.b < 8) × (1280 ≤ length behind.old) }
    ensures { (result.behind ≤ 1280) × (length behind.new ≡ length behind.old) }
{
    let ind = &ind[2..2 + many(g.here)];
    let val = &val[3..3 + many(g.here >> 32)];
    let s = regs::set(g.old);
    match call {
        Call::ToVec => lent::cells(r, behind, |cells| {
            after(g.old, sparse_values::to_vec(s, ind, val, cells).into())
        }),
        _ => lent::bytes(r, behind, |bytes| {
            after(g.old, sparse_text::write_text(s, ind, val, bytes).into())
        }),
    }
}

// A call on set a with the other set, whose cells are `others`.
fn on_two(
    call: Call,
    r: Record,
    g: Given,
    ind: &mut [u32; CELLS],
    val: &mut [u32; CELLS],
    others: Cells,
    behind: &mut [u8],
) -> Done
    requires { (r.b < 8) × (1280 ≤ length behind.old) }
    ensures { (result.behind ≤ 1280) × (length behind.new ≡ length behind.old) }
{
    let inds = 2 + many(g.here);
    let vals = 3 + many(g.here >> 32);
    let ind = &mut ind[2..inds];
    let val = &mut val[3..vals];
    let tind = &others.ind[2..2 + many(g.there)];
    let tval = &others.val[3..3 + many(g.there >> 32)];
    match call {
        Call::IntersectWith | Call::DiffWith => lent::cells(r, behind, |scratch| {
            change::parted(call, g.old, ind, val, g.other, tind, tval, scratch)
        }),
        _ => alone(change::two(call, g.old, ind, val, g.other, tind, tval)),
    }
}

// The first n cells of both orderings of set a.
fn orderings(r: Record, g: Given, ind: &[u32; CELLS], val: &[u32; CELLS], behind: &mut [u8]) -> Done
    requires { 1280 ≤ length behind.old }
    ensures { (result.behind ≤ 1280) × (length behind.new ≡ length behind.old) }
{
    of_halves(after(g.old, reply::none()), ind, val, r.n.min(160), behind)
}

// What a record leaves of set a and answers, once what it sets besides is set.
fn called(call: Call, r: Record, a: usize, run: &mut Run, behind: &mut [u8]) -> Done
    requires { (a < 2) × (r.b < 8) × (1280 ≤ length behind.old) }
    ensures { (result.behind ≤ 1280) × (length behind.new ≡ length behind.old) }
{
    let g = to_call(r, a, &run.regs);
    let set = &mut run.sets[a];
    match call {
        Call::Clear
        | Call::SetLent
        | Call::SetInd
        | Call::SetVal
        | Call::SetList
        | Call::SetState
        | Call::SetCursor => alone(after(g.old, reply::none())),
        Call::SetSet => alone(after(regs::of_set(regs::raw_set(r)), reply::none())),
        Call::SaveState => {
            let t = save(g, &set.ind, &set.val);
            run.regs.put(STATES + r.b, t.left);
            alone(after(g.old, t.reply))
        }
        Call::Iter | Call::Next | Call::ComplementIter | Call::ComplementNext => {
            let t = walk(call, g, &set.ind, &set.val);
            run.regs.put(CURSORS + r.b, t.left);
            alone(after(g.old, t.reply))
        }
        Call::ToVec | Call::WriteText => written(call, r, g, &set.ind, &set.val, behind),
        Call::IntersectWith | Call::DiffWith | Call::UnionWith | Call::IsSubsetOf | Call::Equals =>
            {
                let others = run.sets[1 - a];
                let set = &mut run.sets[a];
                on_two(call, r, g, &mut set.ind, &mut set.val, others, behind)
            }
        Call::Orderings => orderings(r, g, &set.ind, &set.val, behind),
        _ => alone(on_one(call, r, g, &mut set.ind, &mut set.val, &run.list)),
    }
}

// How many cells go into what is seen of the orderings: those that are lent and some past them.
fn seen_cells(w: u64) -> usize
    ensures { result ≤ 4112 }
{
    many(w).max(many(w >> 32)) + 8
}

// The answer shows set a, and tells of cursor b and of the orderings besides.
fn finish(r: Record, a: usize, run: &Run, t: Turn) -> Turn
    requires { (a < 2) × (r.b < 8) }
{
    let mut left = t.left;
    let mut reply = t.reply;
    let end = seen_cells(run.regs.get(regs::LENT + a).lo);
    left.bounds |= run.regs.get(CURSORS + r.b).lo << 32;
    reply.hi = seen::orderings(&run.sets[a].ind[..end], &run.sets[a].val[..end]);
    after(left, reply)
}

fn step(r: Record, run: &mut Run, behind: &mut [u8]) -> Done
    requires { (r.b < 8) × (1280 ≤ length behind.old) }
    ensures { (result.behind ≤ 1280) × (length behind.new ≡ length behind.old) }
{
    let call = Call::from(r.op);
    let a = r.a % 2;
    arrange(call, r, a, run);
    let done = called(call, r, a, run, behind);
    run.regs.put(a, done.turn.left);
    Done {
        turn: finish(r, a, run, done.turn),
        behind: done.behind,
    }
}

// Runs the script on registers that begin at 0, as far as `out` has room for what any record may answer, and answers how many
// bytes were written.
pub fn probe_sparse(script: &[u8], out: &mut [u8]) -> usize
    ensures { result ≤ length out.new }
{
    let mut run = Run {
        regs: Registers::new(),
        sets: [Cells::new(); 2],
        list: [0; CELLS],
    };
    script::run(
        script,
        out,
        lent::MOST,
        |r, behind|
            requires { (r.b < 8) × (1280 ≤ length behind.now) }
            ensures { result.behind ≤ 1280 }
        { step(r, &mut run, behind) },
    )
}
