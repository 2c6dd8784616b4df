// The wave behind a pipe: scripts come in by frames of 65,536 bytes, and the answers to each frame go out before the next is read. It ends
// with the input.
//
// The comparison with the Rust (differential/run) reaches the calls through it.
#![tactic(auto)]

use std::io;

fn main(rt: HostRuntime) -> io::Result<()> {
    let mut script = [0u8; 65536];
    let mut out = [0u8; 65536];
    frames::answer_each(rt, &mut script, &mut out, wave_probe::probe_wave)
}
