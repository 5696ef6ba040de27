// Which SDSs hold each type: a word for each type, with a bit for each SDS.
#![tactic(auto)]

ghost use Rattle.std.specs.Prelude.{◌≡◌, length, get_or};
ghost use Rattle.rules.specs.02-Limits.{limits};
ghost use Rattle.rows.specs.Decides.{Decides};
ghost use Rattle.check_held.specs.Held.{Within, HeldBy};

use rules::Limits;

// The SDSs that hold type t; none holds one past the last.
pub fn sdss_of(held: &[u16], t: usize) -> u16
    ensures { result ≡ get_or held.now t 0 }
{
    held.get(t).copied().unwrap_or(0)
}

// Whether the SDSs of the one word are among those of the other.
pub fn is_within(sdss: u16, others: u16) -> bool
    ensures { Decides (Within sdss others) result }
{
    sdss & others == sdss
}

// Whether SDS d holds type t.
pub fn is_held(held: &[u16], d: usize, t: usize) -> bool
    requires { length held.now ≡ limits.types }
    ensures { HeldBy held.now d t result }
{
    d < Limits::SDSS && t < Limits::TYPES && (held[t] >> d) & 1 == 1
}
