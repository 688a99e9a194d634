// The console on outside answers: its input has the calls of many histories and lines, its stored output what another implementation answered.
#![tactic(auto)]

use jobs::run::Console;
use std::io;

fn main(rt: HostRuntime) -> io::Result<()> {
    rt.run_console()
}
