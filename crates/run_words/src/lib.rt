// The lines of the run program: gathered from what is read, and split into words.
#![tactic(auto)]

pub mod input;
pub mod line;

ghost use Rattle.std.specs.Prelude.{◌≡◌, ◌<◌, drop, length};
ghost use Rattle.rules.specs.01-Lists.{any};
ghost use Rattle.rules.specs.03-Names.{blank, names_in};
ghost use Rattle.rules.specs.14-Run.{word, joined};

pub use line::Line;
use names::Names;

// Word i of a line, blank where there is none.
pub fn word(line: &[u8], i: usize) -> &[u8]
    ensures { result.now ≡ word (names_in line.now) i }
{
    Names::of(line).nth(i).unwrap_or(b"")
}

// Word i and those behind it.
pub fn words_from(line: &[u8], i: usize) -> &[u8]
    ensures { result.now ≡ joined (drop i (names_in line.now)) }
{
    let mut words = Names::of(line);
    for _ in 0..i {
        words.next();
    }
    words.as_bytes()
}

pub fn count(line: &[u8]) -> usize
    requires { length line.now < 128 }
    ensures { result ≡ length (names_in line.now) }
{
    Names::of(line).count()
}

pub fn has_blank(line: &[u8]) -> bool
    ensures { result ≡ any blank (names_in line.now) }
{
    Names::of(line).any(|word| word.is_empty())
}
