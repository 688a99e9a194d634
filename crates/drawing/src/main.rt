// Drawing jobs: commands from standard input, answers to standard output.
#![tactic(auto)]

use jobs::run::Console;
use std::io;

fn main(rt: HostRuntime) -> io::Result<()> {
    rt.run_console()
}
