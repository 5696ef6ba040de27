// Rows of a table by their bytes: a start, a width, a number of rows. No offset of a base is known here.
#![tactic(auto)]

pub mod order;
pub mod table;
pub mod used;

ghost use Rattle.std.specs.Prelude.{◌≡◌, ℕ, ◌+◌, ◌<◌, ◌≤◌, length};
ghost use Rattle.rows.specs.Rows.{part, Reads, TurnsAt};

pub fn byte(base: &[u8], at: usize) -> usize
    requires { at < length base.now }
    ensures { Reads base.now at result }
{
    usize::from(base[at])
}

// A byte as a number.
pub fn wide(x: u8) -> usize
    ensures { (result ≡ x) × (result < 256) }
{
    usize::from(x)
}

// Eight bytes. They are copied whole: the compiler makes one load of what is made of them.
fn eight(base: &[u8], at: usize) -> [u8; 8]
    requires { at + 8 ≤ length base.now }
    ensures { result ≡ part base.now at 8 }
{
    base[at..at + 8].try_into().unwrap()
}

// How many of the numbers below n pass, if these stand before all others: by halving. (The slices' own search knows no rows of a width
// that a call tells.)
fn parted<P: Fn(usize) -> bool>(n: usize, passes: P) -> usize
    requires { (i : ℕ) → i < n → P.pre passes i }
    ensures { TurnsAt (P.post passes) n result }
{
    let mut low = 0;
    let mut high = n;
    while low < high {
        let mid = low + (high - low) / 2;
        if passes(mid) {
            low = mid + 1;
        } else {
            high = mid;
        }
    }
    low
}
