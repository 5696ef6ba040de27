// Which command a line gives.
#![tactic(auto)]

pub mod called;
pub mod parts;

ghost use Rattle.std.specs.Prelude.{◌≡◌, ◌<◌, length};
ghost use Rattle.rules.specs.03-Names.{names_in};
ghost use Rattle.rules.specs.14-Run.{says, says_object};
ghost use Rattle.run_command.specs.Command.{command_in, command_of};

use run_words::line::Line;

#[derive(Clone, Copy)]
pub enum Command {
    Sds,
    Import,
    Object,
    Remove,
    Desc,
    Depth,
}

// Whether the line begins with the command and has as many words.
fn says(line: &[u8], command: &[u8], many: usize) -> bool
    requires { length line.now < 128 }
    ensures { result ≡ says command.now many (names_in line.now) }
{
    run_words::word(line, 0) == command && run_words::count(line) == many
}

// `object` takes any number of parents.
fn says_object(line: &[u8]) -> bool
    requires { length line.now < 128 }
    ensures { result ≡ says_object (names_in line.now) }
{
    run_words::word(line, 0) == b"object".as_slice() && 3 <= run_words::count(line)
}

// The command that the words of a line give.
// A `match` of the first word and the count leaves 37 ways out to prove: byte strings are matched byte by byte.
fn command_in(line: &[u8]) -> Option<Command>
    requires { length line.now < 128 }
    ensures { result ≡ command_in (names_in line.now) }
{
    if says(line, b"sds", 2) {
        return Some(Command::Sds);
    }
    if says(line, b"import", 4) {
        return Some(Command::Import);
    }
    if says_object(line) {
        return Some(Command::Object);
    }
    if says(line, b"remove", 3) {
        return Some(Command::Remove);
    }
    if says(line, b"desc", 3) {
        return Some(Command::Desc);
    }
    if says(line, b"depth", 3) {
        return Some(Command::Depth);
    }
    None
}

// The command that a line gives, none where it is unreadable.
pub fn of(line: &[u8]) -> Option<Command>
    ensures { result ≡ command_of line.now }
{
    if Line::KEPT <= line.len() || run_words::has_blank(line) {
        return None;
    }
    command_in(line)
}
