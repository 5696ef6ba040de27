// The edges of 01 and 02 as lines of calls (stdin), each printed with what it answers (stdout): its number, its three values, and the types
// that it put down. A heading is printed as it is. The line `output n` is no call of 01: it shows the first n entries of the output.
#![tactic(auto)]

mod asks;
mod calls;
mod changes;
mod files;
mod print;
mod read;

ghost use Rattle.std.specs.Prelude.{◌≤◌};

use base::Base;
use rules::Answer;
use run_words::input::Input;
use run_words::line::Line;
use std::io;
use std::io::{Read, Write};

fn is_heading(line: &[u8]) -> bool {
    if line.len() == 0 {
        return true;
    }
    line[0] == b'#'
}

// A count of types as it is: none is over 128.
fn count(n: usize) -> usize
    ensures { result ≤ 128 }
{
    if n < 128 { n } else { 128 }
}

// The answer of a call, and the types that it put down.
fn tell_call<W: Write>(
    writer: &mut W,
    base: &mut [u8],
    line: &[u8],
    out: &mut [u8],
) -> io::Result<()> {
    let Some(call) = calls::call(base, line, out) else {
        return writer.write_all(b" = ?\n");
    };
    let a = Answer::from(call);
    let listed = count(a.one) + count(a.two) + count(a.three);
    let no = a.no;
    print::answer(writer, a)?;
    if no != 0 {
        return writer.write_all(b"\n");
    }
    if calls::lists(line) {
        writer.write_all(b" :")?;
        print::entries(writer, out, listed)?;
    }
    writer.write_all(b"\n")
}

// A line, and what is printed behind it. One of as many bytes as are kept is the beginning of a longer one.
fn tell<W: Write>(writer: &mut W, base: &mut [u8], line: &[u8], out: &mut [u8]) -> io::Result<()> {
    writer.write_all(line)?;
    if is_heading(line) {
        return writer.write_all(b"\n");
    }
    if line.len() == Line::KEPT {
        return writer.write_all(b" = ?\n");
    }
    if read::begins(line, b"output") {
        writer.write_all(b" :")?;
        print::entries(writer, out, read::number_at(line, 1))?;
        return writer.write_all(b"\n");
    }
    tell_call(writer, base, line, out)
}

// The turns are as many as no run uses up, as in `next_line`.
fn tell_all<R: Read, W: Write>(
    reader: &mut R,
    writer: &mut W,
    base: &mut [u8],
    out: &mut [u8],
) -> io::Result<()> {
    let mut input = Input::new();
    let mut line = Line::new();
    for _ in 0..u64::MAX {
        if !input.next_line(reader, &mut line) {
            return Ok(());
        }
        tell(writer, base, line.as_bytes(), out)?;
    }
    Ok(())
}

fn main(rt: HostRuntime) -> io::Result<()> {
    let mut base = [0u8; Base::LENGTH];
    let mut out = [0u8; 512];
    tell_all(&mut rt.stdin(), &mut rt.stdout(), &mut base, &mut out)
}
