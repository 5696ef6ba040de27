// A pair of link types, each the reverse of the other.
#![tactic(auto)]

ghost use Rattle.std.specs.Prelude.{◌≡◌};
ghost use Rattle.rules.specs.07-Picture.{Sound};
ghost use Rattle.rules.specs.09-Refusals.{no_pair, answered};
ghost use Rattle.rules.specs.10-Changes.{new_pair, new_pair_refusals};
ghost use Rattle.rules.specs.12-Contracts.{Kept};
ghost use Rattle.base.specs.Back.{schema_of};
ghost use Rattle.conditions.specs.Aimed.{RefusedOr};
ghost use Rattle.change_pairs.specs.Pair.{room_refusals, TwoFree, PairReady};

use base::Base;
use rules::{Done, Limits, Refused};

// Whether link types of these two categories make no pair.
// A category stays the number that C gives: which ones there are is tested here, in its place among the refusals.
fn is_no_pair(category: usize, back: usize) -> bool
    ensures { result ≡ no_pair category back }
{
    3 < category || (3 < back || (category == Base::IMPLICIT && back == Base::IMPLICIT))
}

// Room for two types more, each with a presence; then the numbers that the forward type and its reverse take.
fn room_for_two(base: &[u8]) -> Result<(usize, usize), Refused>
    requires { Sound base.now }
    ensures { RefusedOr base.now (room_refusals base.now) result (λ types. TwoFree base.now types.0 types.1) }
{
    let Some(t) = lookup::types::free_type(base, 0) else {
        return Err(Refused::NoRoom);
    };
    let Some(r) = lookup::types::free_type(base, t + 1) else {
        return Err(Refused::NoRoom);
    };
    if Limits::PRESENCES < base::used::presence_count(base) + 2 {
        return Err(Refused::NoRoom);
    }
    Ok((t, r))
}

fn places_for(
    base: &[u8],
    sds: usize,
    name: &[u8],
    reverse: &[u8],
    category: usize,
    back: usize,
) -> Result<(usize, usize), Refused>
    ensures { RefusedOr base.now
        (new_pair_refusals sds name.now reverse.now category back (schema_of base.now)) result
        (λ types. PairReady base.now sds name.now reverse.now category back types.0 types.1) }
{
    conditions::aimed::aimed_two(base, sds, name, reverse)?;
    if is_no_pair(category, back) {
        return Err(Refused::UnknownCode);
    }
    if conditions::aimed::are_taken(base, sds, name, reverse) {
        return Err(Refused::NameTaken);
    }
    room_for_two(base)
}

pub fn new_pair(
    base: &mut [u8],
    sds: usize,
    name: &[u8],
    reverse: &[u8],
    category: usize,
    back: usize,
) -> Result<Done, Refused>
    ensures { Kept base.old (new_pair sds name.now reverse.now category back) (answered result) base.new }
{
    let (t, r) = places_for(base, sds, name, reverse, category, back)?;
    edit::write_type(base, t, Base::LINK, category, r, b"");
    edit::put_presence(base, sds, name, t);
    edit::write_type(base, r, Base::LINK, back, t, b"");
    edit::put_presence(base, sds, reverse, r);
    Ok(Done(t, r, 0))
}
