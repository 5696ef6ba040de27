// The run program: from a fresh base, a line printed for each line that is read. All but reading and writing is in `words` and `reply`.
#![tactic(auto)]

ghost use Rattle.std.specs.Prelude.{◌≡◌, length};
ghost use Rattle.rules.specs.07-Picture.{base_length};

use base::Base;
use run_words::input::Input;
use run_words::line::Line;
use std::io;
use std::io::{Read, Write};

fn answer<W: Write>(writer: &mut W, base: &mut [u8], line: &[u8], out: &mut [u8]) -> io::Result<()>
    requires { (length base.old ≡ base_length) × (length out.old ≡ 4096) }
    ensures { (length base.new ≡ base_length) × (length out.new ≡ 4096) }
{
    let n = run_reply::reply(base, line, out);
    writer.write_all(&out[..n])?;
    writer.write_all(b"\n")
}

// Nothing that is typed stops it but the end of the input; a write that fails does. The turns are as many as `next_line` has.
fn answer_all<R: Read, W: Write>(
    reader: &mut R,
    writer: &mut W,
    base: &mut [u8],
    out: &mut [u8],
) -> io::Result<()>
    requires { (length base.old ≡ base_length) × (length out.old ≡ 4096) }
{
    let mut input = Input::new();
    let mut line = Line::new();
    for _ in 0..u64::MAX {
        if !input.next_line(reader, &mut line) {
            return Ok(());
        }
        answer(writer, base, line.as_bytes(), out)?;
    }
    Ok(())
}

fn main(rt: HostRuntime) -> io::Result<()> {
    let mut base = Base::fresh();
    let mut out = [0u8; 4096];
    answer_all(&mut rt.stdin(), &mut rt.stdout(), &mut base, &mut out)
}
