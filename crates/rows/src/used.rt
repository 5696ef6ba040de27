// How many rows of a table are used, and whether bytes are zero.
ghost use Rattle.std.specs.Prelude.{◌≡◌, ℕ, ◌+◌, ◌-◌, ◌*◌, ◌<◌, ◌≤◌, length, replicate};
ghost use Rattle.rows.specs.Rows.{part, blank_eights, NoBit, Filled, Halved};
ghost use Rattle.rows.specs.Decides.{Decides};

use super::{eight, parted};

// How many of n rows stand before the first unused one. Of the used ones one begins with 0, that of SDS 0: the others are passed by
// that byte.
pub fn filled(base: &[u8], start: usize, width: usize, n: usize) -> usize
    requires by_index { (k : ℕ) → k < n → start + k * width + width ≤ length base.now }
    requires width_nonzero { (0 < width) × (start + n * width < 65536) }
    ensures { Filled base.now start width n result }
{
    for k in 0..n {
        let at = start + k * width;
        if base[at] == 0 && is_zero(base, at, at + width) {
            return k;
        }
    }
    n
}

// How many of n rows have a byte that is not 0 in a certain place, if these stand before all others. The byte of row 0 stands at
// `first`. Whoever asks sees to it that it is so.
pub fn halved(base: &[u8], first: usize, width: usize, n: usize) -> usize
    requires by_index { (k : ℕ) → k < n → first + k * width < length base.now }
    requires n_bound { (n < 65536) × (first + n * width < 65536) }
    ensures { Halved base.now first width n result }
{
    parted(n, |i| base[first + i * width] != 0)
}

// The bits of eight bytes in every sixteen, eight times. A loop of a known length: the compiler makes one expression of it.
fn every_second(base: &[u8], at: usize) -> u64
    requires { at + 120 ≤ length base.now }
    ensures { NoBit (blank_eights base.now at 8) result }
{
    let mut bits = 0;
    for i in 0..8 {
        bits |= u64::from_le_bytes(eight(base, at + i * 16));
    }
    bits
}

// Whether the bytes from `from` up to `to` are zero, 128 at a time. Their bits run along in two words side by side, which the compiler keeps
// in one register; no way out of the loop.
pub fn is_zero(base: &[u8], from: usize, to: usize) -> bool
    requires { (from ≤ to) × (to ≤ length base.now) }
    ensures { Decides (part base.now from (to - from) ≡ replicate (to - from) 0) result }
{
    let (blocks, rest) = base[from..to].as_chunks::<128>();
    let mut even = 0;
    let mut odd = 0;
    for block in blocks {
        even |= every_second(block, 0);
        odd |= every_second(block, 8);
    }
    (even | odd) == 0 && name_fields::is_blank_field(rest)
}
