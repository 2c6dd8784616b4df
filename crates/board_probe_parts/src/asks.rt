// The calls that leave a board as it is.
ghost use Rattle.std.specs.Prelude.{◌<◌};

use super::call::Call;
use super::raw::id;
use super::reply as ids;
use super::run::Run;
use board_ask::IdCursor;
use probe_parts::record::Record;
use probe_parts::regs::CURSORS;
use probe_parts::reply;
use probe_parts::reply::Reply;
use probe_parts::turn::{made, stepped};

// The calls on cursor b, over the chutes of a destination.
pub fn on_chutes(call: Call, r: Record, run: &mut Run) -> Reply
    requires { r.b < 8 }
{
    let place = CURSORS + r.b;
    let old = run.regs.get(place);
    let t = match call {
        Call::GetDomainValues => made(board_ask::get_domain_values(run.board, id(r)), old),
        _ => stepped(domain_values::next(old.into())),
    };
    run.regs.put(place, t.left);
    t.reply
}

// The calls on the cursor over ids, which is register 0.
pub fn on_ids(call: Call, r: Record, run: &mut Run) -> Reply {
    let old = run.regs.get(0);
    let at = old.lo as usize;
    let t = match call {
        Call::Variables => ids::begun(board_ask::variables(run.board), old),
        Call::NextVariable => ids::walked(board_ask::next_variable(run.board, IdCursor { at })),
        _ => ids::stood(r.n),
    };
    run.regs.put(0, t.left);
    t.reply
}

pub fn ask(call: Call, r: Record, run: &Run) -> Reply {
    let b = run.board;
    match call {
        Call::DomainsChanged => board_close::domains_changed(b).into(),
        Call::DomainSize => board_ask::domain_size(b, id(r)).into(),
        Call::IsAssigned => board_ask::is_assigned(b, id(r)).into(),
        Call::AssignedValue => board_ask::assigned_value(b, id(r)).into(),
        Call::IsInconsistent => board_ask::is_inconsistent(b, id(r)).into(),
        Call::GetBounds => board_ask::get_bounds(b, id(r)).into(),
        Call::Ready => board_ask::ready(b, run.list(r)).into(),
        _ => reply::none(),
    }
}
