// A script on a board.
ghost use Rattle.std.specs.Prelude.{◌≡◌, ◌<◌, ◌≤◌, length};

use super::changes;
use board::Board;
use board_probe_parts::call::Call;
use board_probe_parts::run::Run;
use board_probe_parts::{asks, lent, show};
use probe_parts::record::Record;
use probe_parts::regs::Register;
use probe_parts::reply::Reply;
use probe_parts::script::Done;
use probe_parts::turn::after;
use probe_parts::{reply, script};

// A call, or a record that sets a part of the board by hand.
fn shown(b: Board, reply: Reply) -> Done
    ensures { result.behind ≡ 0 }
{
    script::alone(after(show::left(b), reply))
}

// The records that only set registers show no board.
fn silent() -> Done
    ensures { result.behind ≡ 0 }
{
    script::alone(after(Register::default(), reply::none()))
}

fn step(r: Record, run: &mut Run, behind: &mut [u8]) -> Done
    requires { (r.a < 8) × (r.b < 8) × (10264 ≤ length behind.old) }
    ensures { (result.behind ≤ 10264) × (length behind.new ≡ length behind.old) }
{
    let call = Call::from(r.op);
    match call {
        Call::Clear => {
            *run = Run::new();
            silent()
        }
        Call::SetIds => {
            run.put_ids(r);
            silent()
        }
        Call::SetValues => {
            run.regs.put_values(r.n, r.lo, r.hi);
            silent()
        }
        Call::Dump => {
            show::dump(run.board, behind);
            Done {
                turn: after(show::left(run.board), reply::none()),
                behind: show::SIZE,
            }
        }
        Call::GetDomainValuesInto => lent::values(r, run.board, behind),
        Call::VariablesInto => lent::ids(r, run.board, behind),
        Call::GetDomainValues | Call::Next => {
            let reply = asks::on_chutes(call, r, run);
            shown(run.board, reply)
        }
        Call::Variables | Call::NextVariable | Call::SetCursor => {
            let reply = asks::on_ids(call, r, run);
            shown(run.board, reply)
        }
        Call::DomainsChanged
        | Call::DomainSize
        | Call::IsAssigned
        | Call::AssignedValue
        | Call::IsInconsistent
        | Call::GetBounds
        | Call::Ready => shown(run.board, asks::ask(call, r, run)),
        _ => {
            let reply = changes::change(call, r, run);
            shown(run.board, reply)
        }
    }
}

// Runs the script on a new board and registers that begin at 0, as far as `out` has room for what any record may answer, and
// answers how many bytes were written.
pub fn probe_board(script: &[u8], out: &mut [u8]) -> usize
    ensures { result ≤ length out.new }
{
    let mut run = Run::new();
    script::run(
        script,
        out,
        show::SIZE,
        |r, behind|
            requires { (r.a < 8) × (r.b < 8) × (10264 ≤ length behind.now) }
            ensures { result.behind ≤ 10264 }
        { step(r, &mut run, behind) },
    )
}
