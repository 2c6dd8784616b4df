// The sparse set's script of calls as an exported function, for comparisons with the Rust.
//
// It is the function of the same name in `sparse_probe`, and has no `requires` either.
#![tactic(auto)]

ghost use Rattle.std.specs.Prelude.{◌≤◌, length};

#[unsafe(no_mangle)]
pub extern "C" fn probe_sparse(script: &[u8], out: &mut [u8]) -> usize
    ensures { result ≤ length out.new }
{
    sparse_probe::probe_sparse(script, out)
}
