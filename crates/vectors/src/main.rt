// Runs the stored jobs: standard input holds one job after another, each behind its length in two bytes, the low byte
// first. Each job runs on files of zeros, and what it prints stands below a line `-- N` with its index.
#![tactic(auto)]

use std::io::{Read, Write};

// Fills the space; `None` where less is left of the input.
fn fill<R: Read>(from: &mut R, space: &mut [u8]) -> Option<()> {
    let n = show::read(from, space).ok()?;
    if n == space.len() { Some(()) } else { None }
}

// Reads a job and runs it; `None` where no whole job is left, or the output cannot be written.
fn run_next<R: Read, W: Write>(from: &mut R, out: &mut W, index: u64) -> Option<()> {
    let mut head = [0u8; 2];
    fill(from, &mut head)?;
    let length = usize::from(u16::from_le_bytes(head));
    let mut space = [0u8; cells::JOB_BYTES + 1];
    let job = space.get_mut(..length)?;
    fill(from, job)?;
    writeln!(out, "-- {index}").ok()?;
    // A refusal is printed like any other answer.
    show::run_on_zeros(out, job).1.ok()
}

// No more than 65,536 jobs.
fn main(rt: HostRuntime) {
    let mut from = rt.stdin();
    let mut out = rt.stdout();
    for index in 0..65536u64 {
        if run_next(&mut from, &mut out, index).is_none() {
            return;
        }
    }
}
