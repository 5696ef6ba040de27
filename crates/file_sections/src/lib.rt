// The sections of an exchange file: how wide their entries are, here alone, and how many entries there are in one, wherever it starts.
#![tactic(auto)]

ghost use Rattle.std.specs.Prelude.{◌≤◌, ◌<◌, option_copied};
ghost use Rattle.file_sections.specs.Section.{EntriesAt, SectionAt};

use rules::Limits;

// How many bytes a count takes, and an entry of each section.
#[derive(Clone, Copy)]
pub struct Width {}

impl Width {
    pub const COUNT: usize = 2;

    pub const SDS: usize = 1 + Limits::NAME;

    pub const TYPE: usize = 4;

    pub const PARENT: usize = 2;

    pub const PRESENCE: usize = Limits::NAME + 4;

    pub const APPLICATION: usize = 3;

    pub const END: usize = 4;
}

// The entries, of width w, of the section at `at`, one behind another; None where they are not all there, or more than `most`.
pub fn entries(file: &[u8], at: usize, w: usize, most: usize) -> Option<&[u8]>
    requires { ((0 < w) × (w ≤ 20)) × (most < 65536) }
    ensures { EntriesAt file.now at w most (option_copied result) }
{
    let n = count(file, at, w)?;
    if most < n {
        return None;
    }
    let from = at + Width::COUNT;
    Some(&file[from..from + n * w])
}

// How many entries of width w the section at `at` has; None where they are not all there.
pub fn count(file: &[u8], at: usize, w: usize) -> Option<usize>
    requires { (0 < w) × (w ≤ 20) }
    ensures { SectionAt file.now at w result }
{
    let room = file.len().checked_sub(at)?.checked_sub(Width::COUNT)?;
    let n = usize::from(u16::from_le_bytes([file[at], file[at + 1]]));
    (n * w <= room).then_some(n)
}
