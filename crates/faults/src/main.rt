// Reads and writes where it cannot, and prints what `show` answers: a file that is open for writing alone is read, and one
// that is open for reading alone is written to. A failed read has to be told from the end of the input, and no failed
// write passes for one.
#![tactic(auto)]

use lines::Text;
use std::fs::{File, OpenOptions};
use std::io;
use std::io::{Read, Write};
use word::{Refusal, Refused};

// Here and below a bool is what is printed.
fn read_whole<R: Read>(from: &mut R) -> bool {
    let mut space = [0u8; 8];
    show::read(from, &mut space).is_ok()
}

fn put_text<W: Write>(out: &mut W) -> bool {
    let text = Text {
        bytes: [10; 160],
        len: 1,
    };
    show::put(out, text).is_ok()
}

fn put_run<W: Write>(out: &mut W, outcome: Result<usize, Refused>) -> bool {
    let dst = [0u32; 1];
    let registers = [0u32; 1];
    show::put_run(out, b"", outcome, &dst, &registers).is_ok()
}

fn main(rt: HostRuntime) -> io::Result<()> {
    let mut for_writing = OpenOptions::new().write(true).open(&rt, "/dev/null")?;
    let mut for_reading = File::open(&rt, "/dev/null")?;
    let whole = read_whole(&mut rt.stdin());
    println!(rt; "reads what can be read: {whole}")?;
    let ended = read_whole(&mut rt.stdin());
    println!(rt; "reads to its end: {ended}")?;
    let unread = read_whole(&mut for_writing);
    println!(rt; "reads what cannot be read: {unread}")?;
    let put = put_text(&mut rt.stdout());
    println!(rt; "writes where it can: {put}")?;
    let unwritten = put_text(&mut for_reading);
    println!(rt; "writes where it cannot: {unwritten}")?;
    let finished = put_run(&mut for_reading, Ok(1));
    println!(rt; "writes a finished run where it cannot: {finished}")?;
    let refused = put_run(&mut for_reading, Err(Refusal::Shape.at(0)));
    println!(rt; "writes a refusal where it cannot: {refused}")
}
