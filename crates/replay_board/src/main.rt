// The calls on a board behind a pipe: scripts come in by frames of 16,384 bytes, and the answers to each frame go out before the next is
// read. A frame is a script of its own, so it begins with a new board and registers of 0. It ends with the input.
//
// In the gate its `stdin` is a recorded sample and its `stdout` the Rust's answers to it (README.md), and what it writes is held to those. The
// comparison with the Rust (differential/run) reaches the calls through it too.
#![tactic(auto)]

use std::io;

fn main(rt: HostRuntime) -> io::Result<()> {
    let mut script = [0u8; 16384];
    let mut out = [0u8; 65536];
    frames::answer_each(rt, &mut script, &mut out, board_probe::probe_board)
}
