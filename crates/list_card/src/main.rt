// The listing of the card that standard input holds.

#![tactic(auto)]

use std::io;

fn main(rt: HostRuntime) -> io::Result<()> {
    lister::run(&rt)
}
