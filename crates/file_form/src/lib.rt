// The form of an exchange file. What its entries say is not looked at.
#![tactic(auto)]

ghost use Rattle.std.specs.Prelude.{◌≡◌, ◌≤◌, ◌<◌, length, true, false, MatchResult};
ghost use Rattle.file_form.specs.Form.{Told};
ghost use Rattle.file_form.specs.Walk.{full, above, within, top_byte, top, fitting, Walked};

use file_sections::Width;

// Whether a file is well formed; if not, the Err is how long a start it shares with one that is.
pub fn form(file: &[u8]) -> Result<(), usize>
    ensures { Told file.now result }
{
    let types = section(file, 0, Width::SDS)?;
    let parents = section(file, types, Width::TYPE)?;
    let presences = section(file, parents, Width::PARENT)?;
    let applications = section(file, presences, Width::PRESENCE)?;
    let ends = section(file, applications, Width::APPLICATION)?;
    let end = section(file, ends, Width::END)?;
    if end == file.len() { Ok(()) } else { Err(end) }
}

// Where the section of entries of width w that starts at `at` ends; if it does not, the Err is up to where some section begins so.
fn section(file: &[u8], at: usize, w: usize) -> Result<usize, usize>
    requires { (at ≤ length file.now) × (2 ≤ w) }
    ensures { MatchResult result (λ end. Walked w file.now at end true) (λ end. Walked w file.now at end false) }
{
    if file.len() - at < Width::COUNT {
        return Err(file.len());
    }
    let n = u16::from_le_bytes([file[at], file[at + 1]]);
    let mut here = at + Width::COUNT;
    let mut prev = &file[here..here];
    for left in (0..n).rev() {
        let end = here + w.min(file.len() - here);
        let entry = &file[here..end];
        let good = fitting(prev, entry, w, left);
        if good < w {
            return Err(here + good);
        }
        prev = entry;
        here = end;
    }
    Ok(here)
}

// How many bytes of e can begin an entry of width w above `prev`, with so many more entries to come. Where entries rise, an early byte
// mostly tells that all of them can.
fn fitting(prev: &[u8], e: &[u8], w: usize, more: u16) -> usize
    requires { length e.now ≤ w }
    ensures { result ≡ fitting w prev.now more e.now }
{
    above(prev, e).min(leaving(e, w, more))
}

// How many can begin one above `prev`; where there is no entry before, prev is empty.
fn above(prev: &[u8], e: &[u8]) -> usize
    ensures { result ≡ above prev.now e.now }
{
    for (j, (&x, &y)) in e.iter().zip(prev).enumerate() {
        if y < x {
            return e.len();
        }
        if x < y || is_full(&prev[j + 1..]) {
            return j;
        }
    }
    e.len()
}

// Whether nothing as wide stands above these bytes.
fn is_full(l: &[u8]) -> bool
    ensures { result ≡ full l.now }
{
    l.iter().all(|&b| b == 255)
}

// How many can begin one that leaves so many above itself.
fn leaving(e: &[u8], w: usize, more: u16) -> usize
    requires { length e.now ≤ w }
    ensures { result ≡ within (top w more) e.now }
{
    for (j, &x) in e.iter().enumerate() {
        let z = last_byte(w - j, more);
        if x < z {
            return e.len();
        }
        if z < x {
            return j;
        }
    }
    e.len()
}

// The byte behind which k - 1 follow, of the last string that leaves so many above itself.
fn last_byte(k: usize, more: u16) -> u8
    requires { 0 < k }
    ensures { result ≡ top_byte k more }
{
    let [low, high] = more.to_le_bytes();
    match k {
        1 => 255 - low,
        2 => 255 - high,
        _ => 255,
    }
}
