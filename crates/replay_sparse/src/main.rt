// The calls on sparse sets behind a pipe: scripts come in by frames of 8,192 bytes, and the answers to each frame go out before the next is
// read. A frame is a script of its own, so registers begin at 0. It ends with the input.
//
// In the gate its `stdin` is a recorded sample and its `stdout` the Rust's answers to it (README.md), and what it writes is held to those. The
// comparison with the Rust (differential/run) reaches the calls through it too.
#![tactic(auto)]

use std::io;

fn main(rt: HostRuntime) -> io::Result<()> {
    let mut script = [0u8; 8192];
    let mut out = [0u8; 65536];
    frames::answer_each(rt, &mut script, &mut out, sparse_probe::probe_sparse)
}
