// The run program's reply to a line.
#![tactic(auto)]

pub mod change;
pub mod question;

ghost use Rattle.std.specs.Prelude.{◌≡◌, ◌≤◌, length};
ghost use Rattle.rules.specs.07-Picture.{base_length};
ghost use Rattle.run_reply.specs.Reply.{Replied};

use run_command::Command;

// Puts the reply to a line down at the start of `out`, and says how long it is.
pub fn reply(base: &mut [u8], line: &[u8], out: &mut [u8]) -> usize
    requires { (length base.old ≡ base_length) × (4096 ≤ length out.old) }
    ensures { Replied base.old line.now base.new out.old out.new result }
{
    match run_command::of(line) {
        Some(Command::Sds) => change::sds(base, line, out),
        Some(Command::Import) => change::import(base, line, out),
        Some(Command::Object) => change::object(base, line, out),
        Some(Command::Remove) => change::remove(base, line, out),
        Some(Command::Desc) => question::desc(base, line, out),
        Some(Command::Depth) => question::depth(base, line, out),
        None => run_print::unreadable(out),
    }
}
