// Trials: closings and propagations are tried on a board, and undone or kept.
//
// mark, restore, keep
//
// A mark saves every domain; restore brings back the newest mark's domains and closes it; keep closes it only. None
// touches `domains_changed`. A call checks the board once, and hands back one that isn't well formed as it came.
#![tactic(auto)]

ghost use Rattle.std.specs.Prelude.{◌≡◌};
ghost use Rattle.board.specs.Answers.{settled};
ghost use Rattle.trial.specs.Marks.{mark_of, restore_of, keep_of};

use board::{Board, Settled};
use rules::Refusal;

// A mark more, which saves every domain.
fn deepen(b: &mut Board) -> Result<(), Refusal>
    ensures { settled b.new result ≡ mark_of b.old }
{
    board::check(b)?;
    if saved::MARKS <= b.marks {
        return Err(Refusal::TooDeep);
    }
    for i in 0..b.count {
        saved::put(&mut b.saved, b.marks, i, b.rows[i].domain.mask);
    }
    b.marks += 1;
    Ok(())
}

// A mark less, unless there is none.
fn close(b: &mut Board) -> Result<(), Refusal>
    ensures { settled b.new result ≡ keep_of b.old }
{
    board::check(b)?;
    if b.marks == 0 {
        return Err(Refusal::NoMark);
    }
    b.marks -= 1;
    Ok(())
}

// A mark less, and its domains back.
fn bring(b: &mut Board) -> Result<(), Refusal>
    ensures { settled b.new result ≡ restore_of b.old }
{
    close(b)?;
    for p in 0..b.count {
        b.rows[p].domain.mask = saved::at(&b.saved, b.marks, p);
    }
    Ok(())
}

pub fn mark(mut b: Board) -> Settled
    ensures { result ≡ mark_of b }
{
    let answer = deepen(&mut b);
    Settled { board: b, answer }
}

pub fn restore(mut b: Board) -> Settled
    ensures { result ≡ restore_of b }
{
    let answer = bring(&mut b);
    Settled { board: b, answer }
}

pub fn keep(mut b: Board) -> Settled
    ensures { result ≡ keep_of b }
{
    let answer = close(&mut b);
    Settled { board: b, answer }
}
