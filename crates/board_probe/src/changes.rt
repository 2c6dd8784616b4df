// The calls that change a board.
ghost use Rattle.std.specs.Prelude.{◌<◌};

use board::{Closed, Settled};
use board_probe_parts::call::Call;
use board_probe_parts::raw;
use board_probe_parts::raw::id;
use board_probe_parts::run::Run;
use board_spread::Spread;
use probe_parts::record::Record;
use probe_parts::reply;
use probe_parts::reply::Reply;
use rules::Value;

fn closed(run: &mut Run, c: Closed) -> Reply {
    run.board = c.board;
    c.answer.into()
}

fn settled(run: &mut Run, s: Settled) -> Reply {
    run.board = s.board;
    s.answer.into()
}

fn spread(run: &mut Run, s: Spread) -> Reply {
    run.board = s.board;
    s.answer.into()
}

// The records that are no call leave a part of the board that they set by hand.
pub fn change(call: Call, r: Record, run: &mut Run) -> Reply
    requires { (r.a < 8) × (r.b < 8) }
{
    let b = run.board;
    let v = Value(r.v);
    match call {
        Call::New => {
            run.board = board_enter::new();
            reply::none()
        }
        Call::AddVariable => settled(run, board_enter::add_variable(b, id(r), v, Value(r.w))),
        Call::AddVariableWithValues => {
            let s = board_enter::add_variable_with_values(b, id(r), run.values(r));
            settled(run, s)
        }
        Call::RemoveValue => closed(run, board_close::remove_value(b, id(r), v)),
        Call::AssignVariable => closed(run, board_close::assign_variable(b, id(r), v)),
        Call::RemoveBelow => closed(run, board_close::remove_below(b, id(r), v)),
        Call::RemoveAbove => closed(run, board_close::remove_above(b, id(r), v)),
        Call::ResetChangedFlag => settled(run, board_close::reset_changed_flag(b)),
        Call::PropagateAlldiff => {
            let s = board_spread::propagate_alldiff(b, run.list(r));
            spread(run, s)
        }
        Call::Mark => settled(run, trial::mark(b)),
        Call::Restore => settled(run, trial::restore(b)),
        Call::Keep => settled(run, trial::keep(b)),
        _ => {
            raw::set(call, r, &mut run.board);
            reply::none()
        }
    }
}
