// The frame of calls through a reference and of batches as an exported function, for comparisons with the Rust.
//
// It is the function of the same name in `hand_probe`, and has no `requires` either.
#![tactic(auto)]

ghost use Rattle.std.specs.Prelude.{◌≤◌, length};

#[unsafe(no_mangle)]
pub extern "C" fn probe_hand(script: &[u8], out: &mut [u8]) -> usize
    ensures { result ≤ length out.new }
{
    hand_probe::probe_hand(script, out)
}
