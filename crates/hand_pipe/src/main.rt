// The forms through a reference behind a pipe: frames of 8,192 bytes come in, and the answers to each go out before the next is read. It
// ends with the input.
//
// The comparison with the Rust (differential/run) reaches the calls through it.
#![tactic(auto)]

use std::io;

fn main(rt: HostRuntime) -> io::Result<()> {
    let mut script = [0u8; 8192];
    let mut out = [0u8; 65536];
    frames::answer_each(rt, &mut script, &mut out, hand_probe::probe_hand)
}
