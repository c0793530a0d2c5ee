// Reads a job from standard input and prints its listing, or the line of its refusal.
#![tactic(auto)]

use job::{MOST_JOB_BYTES, run};
use std::io::Read;
use std::{env, io};
use worksheet::Room;

// What is kept of the input: one byte more than the longest job has.
const KEPT_BYTES: u64 = MOST_JOB_BYTES as u64 + 1;

const HELP: &str = "\
listing: splits polynomials over a finite field; each listed factor is proved not to split again

Reads a job from standard input and prints its listing:
  listing < examples/frame-check.job

A job is bytes: a count of 1 to 3 field levels and the levels, a count of 0 to 127 polynomials and these.
  level       01 p: prime field of order p    02: CCSDS symbol field of order 256
              03 k m m: extension by t^k plus the polynomial of m (second and third level)
  polynomial  its length, 1 to 128, and that many codes of two bytes, the constant first
Numbers of two bytes have their low byte first. X^9 + X^6 - X + 1 over order 3 is, in hexadecimal,
  01 01 03 01 0A 01 00 02 00 00 00 00 00 00 00 00 00 01 00 00 00 00 00 01 00
and its listing is
  order 3 unit 1 steps 3
  degree 2 times 1 codes 1 0 1
  degree 7 times 1 codes 1 2 2 1 1 2 0 1
A refused job prints one line with the number and the byte, as: refused 42 byte 25
";

// Reads standard input to its end, and answers its first bytes.
fn input(rt: &HostRuntime) -> anyhow::Result<Vec<u8>> {
    let mut bytes = Vec::new(rt.alloc());
    rt.stdin().take(KEPT_BYTES).read_to_end(&mut bytes)?;
    io::copy(&mut rt.stdin(), &mut io::sink())?;
    Ok(bytes)
}

fn answer(rt: &HostRuntime) -> anyhow::Result<()> {
    let room = Room::new(rt.alloc())?;
    let bytes = input(rt)?;
    match run(room, bytes.as_slice()) {
        Ok(listing) => rt.print(listing)?,
        Err(fault) => rt.print(fault)?,
    }
    Ok(())
}

fn main(rt: HostRuntime) -> anyhow::Result<()> {
    let words = env::args(&rt)?.count();
    if words > 1 {
        rt.print(HELP)?;
        return Ok(());
    }
    answer(&rt)
}
