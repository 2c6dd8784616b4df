// The wave as exported functions, for comparisons with the Rust and for the clock.
//
// Each is the function of the same name in `wave_probe`, and has no `requires` either.
#![tactic(auto)]

ghost use Rattle.std.specs.Prelude.{◌≤◌, length};

#[unsafe(no_mangle)]
pub extern "C" fn probe_wave(script: &[u8], out: &mut [u8]) -> usize
    ensures { result ≤ length out.new }
{
    wave_probe::probe_wave(script, out)
}

#[unsafe(no_mangle)]
pub extern "C" fn bench_wave(sheet: &[u8], out: &mut [u8]) -> usize {
    wave_probe::bench_wave(sheet, out)
}
