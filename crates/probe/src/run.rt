// A script on the registers of domains.
ghost use Rattle.std.specs.Prelude.{◌≡◌, ◌<◌, ◌≤◌, length};

use super::call::Call;
use super::{lent, turns};
use probe_parts::record::Record;
use probe_parts::regs::{CURSORS, Registers, STATES};
use probe_parts::script;
use probe_parts::script::Done;
use probe_parts::turn::Turn;

// What a record does to other registers than the one that its answer shows.
fn beside(call: Call, r: Record, regs: &mut Registers)
    requires { (r.a < 8) × (r.b < 8) }
{
    match call {
        Call::Clear => {
            *regs = Registers::new();
        }
        Call::SetValues => {
            regs.put_values(r.n, r.lo, r.hi);
        }
        Call::SaveState | Call::SetState => {
            let left = turns::state(call, r, regs);
            regs.put(STATES + r.b, left);
        }
        _ => {}
    }
}

// A call on domain a.
fn on_domain(call: Call, r: Record, regs: &mut Registers) -> Turn
    requires { (r.a < 8) × (r.b < 8) }
{
    beside(call, r, regs);
    let t = turns::on_domain(call, r, regs);
    regs.put(r.a, t.left);
    t
}

// A call on cursor b.
fn on_cursor(call: Call, r: Record, regs: &mut Registers) -> Turn
    requires { (r.a < 8) × (r.b < 8) }
{
    let t = turns::on_cursor(call, r, regs);
    regs.put(CURSORS + r.b, t.left);
    t
}

fn step(r: Record, regs: &mut Registers, behind: &mut [u8]) -> Done
    requires { (r.a < 8) × (r.b < 8) × (2048 ≤ length behind.old) }
    ensures { (result.behind ≤ 2048) × (length behind.new ≡ length behind.old) }
{
    let call = Call::from(r.op);
    match call {
        Call::ToVec => lent::to_vec(r, regs.get(r.a), behind),
        Call::WriteText => lent::text(r, regs.get(r.a), behind),
        Call::Iter | Call::Next | Call::Left | Call::SetCursor => {
            script::alone(on_cursor(call, r, regs))
        }
        _ => script::alone(on_domain(call, r, regs)),
    }
}

// Runs the script on registers that begin at 0, as far as `out` has room for what any record may answer, and answers how many
// bytes were written.
pub fn probe_domain(script: &[u8], out: &mut [u8]) -> usize
    ensures { result ≤ length out.new }
{
    let mut regs = Registers::new();
    script::run(
        script,
        out,
        lent::MOST,
        |r, behind|
            requires { (r.a < 8) × (r.b < 8) × (2048 ≤ length behind.now) }
            ensures { result.behind ≤ 2048 }
        { step(r, &mut regs, behind) },
    )
}
