// The board's script of calls as an exported function, for comparisons with the Rust.
//
// It is the function of the same name in `board_probe`, and has no `requires` either.
#![tactic(auto)]

ghost use Rattle.std.specs.Prelude.{◌≤◌, length};

#[unsafe(no_mangle)]
pub extern "C" fn probe_board(script: &[u8], out: &mut [u8]) -> usize
    ensures { result ≤ length out.new }
{
    board_probe::probe_board(script, out)
}
