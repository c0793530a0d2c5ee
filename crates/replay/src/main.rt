// Works the jobs on standard input, which stand one to a line as hexadecimal text, and prints for each its listing or its refusal,
// and for one that is not refused a line more, with the answers of all its steps.
#![tactic(auto)]

mod decode;
mod hex;
mod steps;

use decode::replay;
use hex::bytes_of;
use job::run;
use std::io::{BufRead, BufReader};
use worksheet::Room;

// Works the job of one line: prints its listing and the answers of its steps, or its refusal.
fn work(rt: &(impl Print + AllocGlobal), text: &str) -> anyhow::Result<()> {
    let bytes = bytes_of(rt.alloc(), text)?;
    match run(Room::new(rt.alloc())?, bytes.as_slice()) {
        Ok(listing) => {
            rt.print(listing)?;
            replay(rt, bytes.as_slice())
        }
        Err(fault) => {
            rt.print(fault)?;
            Ok(())
        }
    }
}

fn work_all(rt: &HostRuntime) -> anyhow::Result<()> {
    for line in BufReader::new(rt.alloc(), rt.stdin())?.lines(rt.alloc()) {
        work(rt, line?.as_str())?;
    }
    Ok(())
}

fn main(rt: HostRuntime) -> anyhow::Result<()> {
    work_all(&rt)
}
