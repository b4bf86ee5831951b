// Reads a log from standard input and prints the listing of its replay.
#![tactic(auto)]

use playback::listing::listed;
use std::io;
use std::io::Read;

// One byte more than a replay takes, so that a longer log is known to be one.
const LIMIT: u64 = 65537;

fn input(rt: &HostRuntime) -> io::Result<Vec<u8>> {
    let mut log = Vec::new(rt.alloc());
    let mut bounded = rt.stdin().take(LIMIT);
    bounded.read_to_end(&mut log)?;
    Ok(log)
}

fn main(rt: HostRuntime) -> anyhow::Result<()> {
    let log = input(&rt)?;
    let text = listed(rt.alloc(), log.as_slice())?;
    print!(rt; "{text}")?;
    Ok(())
}
