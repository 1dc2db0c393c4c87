// Plays the tasks of standard input, a line each: 64 letters, a side number and codes.
#![tactic(auto)]

use std::fmt::Write;
use std::io;
use std::io::Read;

mod answer;
mod task;

use text::lines;

/// So many bytes are gathered before they are written.
const CHUNK: usize = 65536;

fn main(rt: HostRuntime) -> io::Result<()> {
    let heap = rt.alloc();
    let mut text = Vec::new(heap);
    rt.stdin().read_to_end(&mut text)?;
    let mut out = String::new(heap);
    for line in lines(text.as_slice()) {
        match answer::to_line(heap, line)? {
            Ok(outcome) => writeln!(out, "{outcome}")?,
            Err(complaint) => writeln!(out, "{complaint}")?,
        }
        if out.len() >= CHUNK {
            rt.print(out.as_str())?;
            out.clear();
        }
    }
    rt.print(out.as_str())
}
