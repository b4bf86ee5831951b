// Reads logs in lowercase hexadecimal, one a line, and prints each with the listing of its replay.
#![tactic(auto)]

use hex::decode;
use playback::listing::listed;
use std::io::{BufRead, BufReader};

mod hex;

fn print_listing(rt: &HostRuntime, log: &[u8]) -> anyhow::Result<()> {
    let text = listed(rt.alloc(), log)?;
    print!(rt; "{text}")?;
    Ok(())
}

fn print_log(rt: &HostRuntime, line: &str) -> anyhow::Result<()> {
    let Some(log) = decode(rt.alloc(), line.as_bytes())? else {
        println!(rt; "not hexadecimal")?;
        return Ok(());
    };
    if line.is_empty() {
        println!(rt; "log")?;
    } else {
        println!(rt; "log {line}")?;
    }
    print_listing(rt, log.as_slice())
}

fn main(rt: HostRuntime) -> anyhow::Result<()> {
    for line in BufReader::new(rt.alloc(), rt.stdin())?.lines(rt.alloc()) {
        let line = line?;
        print_log(&rt, line.as_str())?;
    }
    Ok(())
}
