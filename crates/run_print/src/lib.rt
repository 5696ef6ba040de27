// What the run program prints: numbers in decimal, one after the other.
#![tactic(auto)]

ghost use Rattle.std.specs.Prelude.{◌+◌, ◌*◌, ◌≤◌, ◌<◌, [], ◌∷◌, length};
ghost use Rattle.rules.specs.01-Lists.{bytes};
ghost use Rattle.rules.specs.14-Run.{decimal};
ghost use Rattle.run_print.specs.Print.{Printed, spaced, read_entries, spoken};

// Puts n down from `at` on, and says which place is behind it.
pub fn number(out: &mut [u8], at: usize, n: usize) -> usize
    requires { at + 20 ≤ length out.old }
    ensures { Printed out.old at (decimal 20 n) out.new result }
{
    let mut text = [0u8; 20];
    let k = io::decimal(n as u64, &mut text);
    out[at..at + k].copy_from_slice(&text[..k]);
    at + k
}

// The like with a space before it.
pub fn next_number(out: &mut [u8], at: usize, n: usize) -> usize
    requires { at + 21 ≤ length out.old }
    ensures { Printed out.old at (32 ∷ decimal 20 n) out.new result }
{
    out[at] = b' ';
    number(out, at + 1, n)
}

// The first `count` entries of a list, each of two bytes, low byte first.
pub fn numbers(out: &mut [u8], at: usize, list: &[u8], count: usize) -> usize
    requires { (at + count * 21 ≤ length out.old) × (count * 2 ≤ length list.now) }
    ensures { Printed out.old at (spaced (read_entries list.now count)) out.new result }
{
    let mut end = at;
    for i in 0..count {
        let entry = u16::from_le_bytes([list[i * 2], list[i * 2 + 1]]);
        end = next_number(out, end, usize::from(entry));
    }
    end
}

// ---- what is said of an answer

// The number, and behind 0 the value. A refusal has no value.
pub fn answer(out: &mut [u8], no: usize, value: usize) -> usize
    requires { 4096 ≤ length out.old }
    ensures { Printed out.old 0 (spoken no (value ∷ [])) out.new result }
{
    let end = number(out, 0, no);
    if no != 0 {
        return end;
    }
    next_number(out, end, value)
}

// To an unreadable line.
pub fn unreadable(out: &mut [u8]) -> usize
    requires { 4096 ≤ length out.old }
    ensures { Printed out.old 0 (bytes "?") out.new result }
{
    out[0] = b'?';
    1
}
