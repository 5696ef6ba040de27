// The calls that make types. What they test of their inputs they test once, in the order of their refusals.
#![tactic(auto)]

ghost use Rattle.rules.specs.07-Picture.{Sound};
ghost use Rattle.rules.specs.09-Refusals.{answered};
ghost use Rattle.rules.specs.10-Changes.{new_attribute, new_designation};
ghost use Rattle.rules.specs.12-Contracts.{Kept};
ghost use Rattle.base.specs.Back.{schema_of};
ghost use Rattle.conditions.specs.Aimed.{RefusedOr};
ghost use Rattle.change_types.specs.Create.{room_refusals, one_refusals, Room, Ready};

use base::Base;
use rules::{Done, Limits, Refused};

// What a call that makes one type tests last: that its name is free, and that there is room; then the number that the type takes.
pub fn room_for(base: &[u8], sds: usize, name: &[u8]) -> Result<usize, Refused>
    requires { Sound base.now }
    ensures { RefusedOr base.now (room_refusals (schema_of base.now) sds name.now) result
        (λ t. Room base.now sds name.now t) }
{
    if lookup::named::type_in(base, sds, name).is_some() {
        return Err(Refused::NameTaken);
    }
    let Some(t) = lookup::types::free_type(base, 0) else {
        return Err(Refused::NoRoom);
    };
    if Limits::PRESENCES <= base::used::presence_count(base) {
        return Err(Refused::NoRoom);
    }
    Ok(t)
}

// `unknown` is whether the call was given a value kind, and does not know it.
fn place_for(base: &[u8], sds: usize, name: &[u8], unknown: bool) -> Result<usize, Refused>
    ensures { RefusedOr base.now (one_refusals (schema_of base.now) sds name.now unknown) result
        (λ t. Ready base.now sds name.now t) }
{
    conditions::aimed::aimed(base, sds, name)?;
    if unknown {
        return Err(Refused::UnknownCode);
    }
    room_for(base, sds, name)
}

pub fn new_attribute(
    base: &mut [u8],
    sds: usize,
    name: &[u8],
    value: usize,
) -> Result<Done, Refused>
    ensures { Kept base.old (new_attribute sds name.now value) (answered result) base.new }
{
    let t = place_for(base, sds, name, 5 < value)?;
    edit::write_type(base, t, Base::ATTRIBUTE, value, 0, b"");
    edit::put_presence(base, sds, name, t);
    Ok(Done(t, 0, 0))
}

pub fn new_designation(base: &mut [u8], sds: usize, name: &[u8]) -> Result<Done, Refused>
    ensures { Kept base.old (new_designation sds name.now) (answered result) base.new }
{
    let t = place_for(base, sds, name, false)?;
    edit::write_type(base, t, Base::LINK, Base::DESIGNATION, 0, b"");
    edit::put_presence(base, sds, name, t);
    Ok(Done(t, 0, 0))
}
