// Attribute types applied to object and link types, and taken off them again.
#![tactic(auto)]

ghost use Rattle.std.specs.Prelude.{◌≡◌, length};
ghost use Rattle.rules.specs.07-Picture.{Sound, base_length};
ghost use Rattle.rules.specs.09-Refusals.{answered};
ghost use Rattle.rules.specs.10-Changes.{apply, unapply};
ghost use Rattle.rules.specs.12-Contracts.{Kept};
ghost use Rattle.base.specs.Back.{schema_of};
ghost use Rattle.conditions.specs.Aimed.{RefusedOr, Both};
ghost use Rattle.change_applications.specs.Applying.{wrong_kind, kind_refusals};

use base::Base;
use rules::{Done, Limits, Refused};

// Whether a is no attribute type, or t is neither an object nor a link type.
fn is_wrong_kind(base: &[u8], a: usize, t: usize) -> bool
    requires { length base.now ≡ base_length }
    ensures { result ≡ wrong_kind (schema_of base.now) a t }
{
    !lookup::types::is_kind(base, a, Base::ATTRIBUTE)
        || (!lookup::types::is_kind(base, t, Base::OBJECT)
            && !lookup::types::is_kind(base, t, Base::LINK))
}

// What both calls test, once, in the order of their refusals, after the SDS and the names; then the attribute type, and the type that it is to
// be applied to. The calls test the SDS and the names themselves: the check of soundness, which needs the most stack, is not made within this frame.
fn tested(base: &[u8], sds: usize, attribute: &[u8], to: &[u8]) -> Result<(usize, usize), Refused>
    requires { Sound base.now }
    ensures { RefusedOr base.now (kind_refusals (schema_of base.now) sds attribute.now to.now) result
        (λ types. Both base.now sds attribute.now to.now types.0 types.1) }
{
    let (a, t) = conditions::aimed::named_two(base, sds, attribute, to)?;
    if is_wrong_kind(base, a, t) {
        return Err(Refused::WrongKind);
    }
    Ok((a, t))
}

pub fn apply(base: &mut [u8], sds: usize, attribute: &[u8], to: &[u8]) -> Result<Done, Refused>
    ensures { Kept base.old (apply sds attribute.now to.now) (answered result) base.new }
{
    conditions::aimed::aimed_two(base, sds, attribute, to)?;
    let (a, t) = tested(base, sds, attribute, to)?;
    if conditions::is_applied(base, sds, t, a) {
        return Err(Refused::AlreadyThere);
    }
    if Limits::APPLICATIONS <= base::used::application_count(base) {
        return Err(Refused::NoRoom);
    }
    edit::put_application(base, sds, t, a);
    Ok(Done(0, 0, 0))
}

pub fn unapply(base: &mut [u8], sds: usize, attribute: &[u8], to: &[u8]) -> Result<Done, Refused>
    ensures { Kept base.old (unapply sds attribute.now to.now) (answered result) base.new }
{
    conditions::aimed::aimed_two(base, sds, attribute, to)?;
    let (a, t) = tested(base, sds, attribute, to)?;
    let Some(row) = lookup::applications::application_row(base, sds, t, a) else {
        return Err(Refused::NotThere);
    };
    edit::take_application(base, row);
    Ok(Done(0, 0, 0))
}
