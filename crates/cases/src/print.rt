// What is printed behind a line.
use rules::Answer;
use std::io;
use std::io::Write;

fn spaced<W: Write>(writer: &mut W, n: usize) -> io::Result<()> {
    write!(writer, " {n}")
}

// The number and the three values.
pub fn answer<W: Write>(writer: &mut W, a: Answer) -> io::Result<()> {
    writer.write_all(b" =")?;
    spaced(writer, a.no)?;
    spaced(writer, a.one)?;
    spaced(writer, a.two)?;
    spaced(writer, a.three)
}

fn joined(low: u8, high: u8) -> usize {
    low as usize + 256 * (high as usize)
}

// Entry i of the output, low byte first; 0 beyond it.
fn entry(out: &[u8], i: usize) -> usize {
    if 255 < i {
        return 0;
    }
    let at = 2 * i;
    if out.len() < at + 2 {
        return 0;
    }
    joined(out[at], out[at + 1])
}

// The first n entries of the output.
pub fn entries<W: Write>(writer: &mut W, out: &[u8], n: usize) -> io::Result<()> {
    for i in 0..n {
        spaced(writer, entry(out, i))?;
    }
    Ok(())
}
