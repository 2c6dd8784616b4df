// The wave program: a sheet from standard input, or from the file that the first argument names; its board to standard output.
#![tactic(auto)]

use std::io;

fn main(rt: HostRuntime) -> io::Result<()> {
    if wave_io::has_argument(&rt, 1) {
        wave_io::print_argument(&rt, 1)
    } else {
        wave_io::print_input(&rt)
    }
}
