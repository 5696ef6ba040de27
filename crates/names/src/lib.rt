// Names, and the runs of bytes that they stand in. What is well formed and what is the same is `rules`'.
#![tactic(auto)]

ghost use Rattle.std.specs.Prelude.{◌≡◌, eqb};
ghost use Rattle.std.specs.Iterator.{YieldsFirstRef, item_count};
ghost use Rattle.rules.specs.01-Lists.{same_bytes};
ghost use Rattle.rules.specs.03-Names.{letter_or_digit, well_formed, lower, same_name, names_in};
ghost use Rattle.rules.specs.14-Run.{joined};
ghost use Rattle.names.specs.Run.{left};

use rules::Limits;

fn is_letter_or_digit(c: u8) -> bool
    ensures { result ≡ letter_or_digit c }
{
    c.is_ascii_alphanumeric() || c == b'_'
}

pub fn is_well_formed(name: &[u8]) -> bool
    ensures { result ≡ well_formed name.now }
{
    if !(1..=Limits::NAME).contains(&name.len()) {
        return false;
    }
    name[0].is_ascii_alphabetic() && name.iter().all(|&c| is_letter_or_digit(c))
}

// Whether two runs of bytes are the same.
pub fn is_equal(a: &[u8], b: &[u8]) -> bool
    ensures { result ≡ same_bytes a.now b.now }
{
    a == b
}

// A to Z become a to z.
pub fn lower(c: u8) -> u8
    ensures { result ≡ lower c }
{
    c.to_ascii_lowercase()
}

// Most bytes that agree are the same: only others are lowered. The library's `eq_ignore_ascii_case` lowers all, and takes twice the time.
fn is_same_byte(x: u8, y: u8) -> bool
    ensures { result ≡ eqb (lower x) (lower y) }
{
    x == y || lower(x) == lower(y)
}

// Whether two names are one.
pub fn is_same(a: &[u8], b: &[u8]) -> bool
    ensures { result ≡ same_name a.now b.now }
{
    a.len() == b.len() && a.iter().zip(b).all(|(&x, &y)| is_same_byte(x, y))
}

// The names of a run of bytes, parted by single spaces: in `rest` stands what is left of the run, and behind the last name nothing does.
#[derive(Clone, Copy)]
pub struct Names<'a> {
    pub rest: Option<&'a [u8]>,
}

impl<'a> Names<'a> {
    // An empty run has no name, not a blank one.
    pub fn of(run: &'a [u8]) -> Names<'a>
        ensures { left result ≡ names_in run.now }
    {
        Names {
            rest: (!run.is_empty()).then_some(run),
        }
    }

    // What is left of the run.
    pub fn as_bytes(self) -> &'a [u8]
        ensures { result.now ≡ joined (left self.entry) }
    {
        self.rest.unwrap_or(b"")
    }
}

impl<'a> Iterator for Names<'a> {
    type Item = &'a [u8];

    ghost next_gives = { YieldsFirstRef left };

    ghost remaining = { item_count left };

    fn next(&mut self) -> Option<&'a [u8]> {
        let rest = self.rest?;
        match rest.iter().position(|&c| c == b' ') {
            Some(end) => {
                self.rest = Some(&rest[end + 1..]);
                Some(&rest[..end])
            }
            None => {
                self.rest = None;
                Some(rest)
            }
        }
    }
}
