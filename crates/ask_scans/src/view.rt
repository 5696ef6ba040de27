// What the calls that ask about a type test of their inputs, once, in the order of their refusals; and what they then look through.
ghost use Rattle.std.specs.Prelude.{◌≡◌, length};
ghost use Rattle.rules.specs.04-Schema.{kind_of};
ghost use Rattle.rules.specs.07-Picture.{base_length};
ghost use Rattle.base.specs.Back.{schema_of};
ghost use Rattle.ask_scans.specs.View.{of_kind, Viewed};

use base::Base;
use rules::Refused;

// Whether t is a link type, or else an object type.
fn is_of_kind(base: &[u8], t: usize, link: bool) -> bool
    requires { length base.now ≡ base_length }
    ensures { result ≡ of_kind link (kind_of (schema_of base.now) t) }
{
    let kind = if link { Base::LINK } else { Base::OBJECT };
    lookup::types::is_kind(base, t, kind)
}

// The SDSs that are listed. `known` is whether the call knows the scan code that it was given, if it takes one.
pub fn of(base: &[u8], schema: &[u8], t: usize, link: bool, known: bool) -> Result<u16, Refused>
    ensures { Viewed base.now schema.now t link known result }
{
    if !sound::is_sound(base) {
        return Err(Refused::NotSound);
    }
    if working::listed::has_unknown(base, schema) {
        return Err(Refused::UnknownSds);
    }
    if !known {
        return Err(Refused::UnknownCode);
    }
    let listed = working::listed::listed(schema);
    if !visible::is_visible(base, listed, t) {
        return Err(Refused::NoSuchType);
    }
    if !is_of_kind(base, t, link) {
        return Err(Refused::WrongKind);
    }
    if working::listed::has_repeated(schema) {
        return Err(Refused::Repeated);
    }
    Ok(listed)
}
