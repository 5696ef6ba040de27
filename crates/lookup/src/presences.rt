// Presences: how many there are, and the row of a type in an SDS.
ghost use Rattle.std.specs.Prelude.{◌≡◌, ◌<◌, length, IfSome};
ghost use Rattle.std.specs.Option.{unwrap_or};
ghost use Rattle.rules.specs.02-Limits.{limits};
ghost use Rattle.rules.specs.07-Picture.{Sound, base_length};
ghost use Rattle.rows.specs.Rows.{Counted};
ghost use Rattle.rows.specs.Decides.{Decides};
ghost use Rattle.base.specs.Back.{presence_count};
ghost use Rattle.lookup.specs.Found.{RowOf, PresenceRow};

// How many there are in a sound base: its used rows stand before the others, so halving finds it.
pub fn count(base: &[u8]) -> usize
    requires { Sound base.now }
    ensures { Counted (presence_count base.now) limits.presences result }
{
    base::used::presences_halved(base)
}

// Whether row i says that type t is in SDS d.
fn is_presence(base: &[u8], i: usize, d: usize, t: usize) -> bool
    requires { (length base.now ≡ base_length) × (i < limits.presences) }
    ensures { Decides (RowOf base.now i d t) result }
{
    base::presence_sds(base, i) == d && base::presence_type(base, i) == t
}

// The row that says that type t is in SDS d.
pub fn presence_row(base: &[u8], d: usize, t: usize) -> Option<usize>
    requires { length base.now ≡ base_length }
    ensures first { let n = presence_count base.now in PresenceRow base.now n d t (unwrap_or result n) }
    ensures below { IfSome result (λ i. i < presence_count base.now) }
{
    for i in 0..base::used::presence_count(base) {
        if is_presence(base, i, d, t) {
            return Some(i);
        }
    }
    None
}
