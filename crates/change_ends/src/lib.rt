// The ends of link types: what the four calls test of their inputs, once, in the order of their refusals; and the calls.
#![tactic(auto)]

ghost use Rattle.std.specs.Prelude.{◌≡◌, ◌<◌, cond, length, is_some};
ghost use Rattle.rules.specs.07-Picture.{Sound, base_length};
ghost use Rattle.rules.specs.09-Refusals.{ends_full, answered};
ghost use Rattle.rules.specs.10-Changes.{add_end, remove_end, apply_link, unapply_link, add_destination, remove_destination};
ghost use Rattle.rules.specs.12-Contracts.{Kept};
ghost use Rattle.rules.specs.Read.{read_side};
ghost use Rattle.base.specs.Back.{schema_of};
ghost use Rattle.conditions.specs.Aimed.{RefusedOr, Both};
ghost use Rattle.change_ends.specs.Ends.{kind_refusals, AimPassed};

use base::Base;
use rules::{Done, Limits, Refused};

// The link type and the object type that are named.
fn aimed_at(base: &[u8], sds: usize, link: &[u8], object: &[u8]) -> Result<(usize, usize), Refused>
    requires { Sound base.now }
    ensures { RefusedOr base.now (kind_refusals (schema_of base.now) sds link.now object.now) result
        (λ types. Both base.now sds link.now object.now types.0 types.1) }
{
    let (l, o) = conditions::aimed::named_two(base, sds, link, object)?;
    if base::kind(base, l) != Base::LINK {
        return Err(Refused::WrongKind);
    }
    if base::kind(base, o) != Base::OBJECT {
        return Err(Refused::WrongKind);
    }
    Ok((l, o))
}

// Whether there is no room for an end of a link type and one of its reverse, if it has one.
fn is_full(base: &[u8], reverse: Option<usize>) -> bool
    requires { length base.now ≡ base_length }
    ensures { result ≡ ends_full (schema_of base.now) (cond (is_some reverse) 2 1) }
{
    let n = base::used::end_count(base);
    if reverse.is_some() {
        return Limits::ENDS < n + 2;
    }
    Limits::ENDS < n + 1
}

// ---- the calls

// Each call tests the SDS and the names itself: the check of soundness, which needs the most stack, is then not made within these frames.

// Object type o becomes an end of link type l on that side, and of its reverse on the other.
fn add_end(
    base: &mut [u8],
    sds: usize,
    link: &[u8],
    object: &[u8],
    side: usize,
) -> Result<Done, Refused>
    requires side_bound { side < 2 }
    requires aimed { AimPassed base.old sds link.now object.now }
    ensures { Kept base.old (add_end (read_side side) sds link.now object.now) (answered result) base.new }
{
    let (l, o) = aimed_at(base, sds, link, object)?;
    if conditions::is_end(base, sds, l, side, o) {
        return Err(Refused::AlreadyThere);
    }
    let reverse = conditions::reverse_of(base, l);
    if is_full(base, reverse) {
        return Err(Refused::NoRoom);
    }
    edit::put_end(base, sds, l, side, o);
    if let Some(r) = reverse {
        edit::put_end(base, sds, r, 1 - side, o);
    }
    Ok(Done(0, 0, 0))
}

// Object type o is no longer an end of link type l on that side, nor of its reverse on the other.
fn remove_end(
    base: &mut [u8],
    sds: usize,
    link: &[u8],
    object: &[u8],
    side: usize,
) -> Result<Done, Refused>
    requires side_bound { side < 2 }
    requires aimed { AimPassed base.old sds link.now object.now }
    ensures { Kept base.old (remove_end (read_side side) sds link.now object.now) (answered result) base.new }
{
    let (l, o) = aimed_at(base, sds, link, object)?;
    let Some(row) = lookup::ends::end_row(base, sds, l, side, o) else {
        return Err(Refused::NotThere);
    };
    let reverse = conditions::reverse_of(base, l);
    edit::take_end(base, row);
    if let Some(r) = reverse {
        let mirror = lookup::ends::end_row(base, sds, r, 1 - side, o).unwrap();
        edit::take_end(base, mirror);
    }
    Ok(Done(0, 0, 0))
}

pub fn apply_link(base: &mut [u8], sds: usize, link: &[u8], object: &[u8]) -> Result<Done, Refused>
    ensures { Kept base.old (apply_link sds link.now object.now) (answered result) base.new }
{
    conditions::aimed::aimed_two(base, sds, link, object)?;
    add_end(base, sds, link, object, 0)
}

pub fn add_destination(
    base: &mut [u8],
    sds: usize,
    link: &[u8],
    object: &[u8],
) -> Result<Done, Refused>
    ensures { Kept base.old (add_destination sds link.now object.now) (answered result) base.new }
{
    conditions::aimed::aimed_two(base, sds, link, object)?;
    add_end(base, sds, link, object, 1)
}

pub fn unapply_link(
    base: &mut [u8],
    sds: usize,
    link: &[u8],
    object: &[u8],
) -> Result<Done, Refused>
    ensures { Kept base.old (unapply_link sds link.now object.now) (answered result) base.new }
{
    conditions::aimed::aimed_two(base, sds, link, object)?;
    remove_end(base, sds, link, object, 0)
}

pub fn remove_destination(
    base: &mut [u8],
    sds: usize,
    link: &[u8],
    object: &[u8],
) -> Result<Done, Refused>
    ensures { Kept base.old (remove_destination sds link.now object.now) (answered result) base.new }
{
    conditions::aimed::aimed_two(base, sds, link, object)?;
    remove_end(base, sds, link, object, 1)
}
