// What the changing calls test first of their SDS and of the names that they are given, in the order of their refusals; and the
// types so named.
ghost use Rattle.std.specs.Prelude.{◌≡◌, [], ◌∷◌, ◌||◌};
ghost use Rattle.rules.specs.07-Picture.{Sound};
ghost use Rattle.rules.specs.09-Refusals.{malformed, names_taken, no_such_name};
ghost use Rattle.base.specs.Back.{schema_of};
ghost use Rattle.base.specs.Tested.{Tests};
ghost use Rattle.conditions.specs.Aimed.{sds_refusals, aim_refusals, type_refusals, TypeOf, Both, RefusedOr};

use rules::Refused;

// Of the SDS.
pub fn aimed_at(base: &[u8], sds: usize) -> Result<(), Refused>
    ensures { Tests base.now (sds_refusals (schema_of base.now) sds) result }
{
    if !sound::is_sound(base) {
        return Err(Refused::NotSound);
    }
    if !lookup::sdss::is_sds(base, sds) {
        return Err(Refused::UnknownSds);
    }
    if sds == 0 {
        return Err(Refused::SystemSds);
    }
    Ok(())
}

// Of the SDS and a name.
pub fn aimed(base: &[u8], sds: usize, name: &[u8]) -> Result<(), Refused>
    ensures { Tests base.now (aim_refusals (schema_of base.now) sds (malformed name.now)) result }
{
    aimed_at(base, sds)?;
    if !names::is_well_formed(name) {
        return Err(Refused::Malformed);
    }
    Ok(())
}

// Of the SDS and two names.
pub fn aimed_two(base: &[u8], sds: usize, name: &[u8], other: &[u8]) -> Result<(), Refused>
    ensures { Tests base.now (aim_refusals (schema_of base.now) sds (malformed name.now || malformed other.now)) result }
{
    aimed_at(base, sds)?;
    if !names::is_well_formed(name) {
        return Err(Refused::Malformed);
    }
    if !names::is_well_formed(other) {
        return Err(Refused::Malformed);
    }
    Ok(())
}

// ---- the types that are named

// The type of a name.
pub fn named(base: &[u8], sds: usize, name: &[u8]) -> Result<usize, Refused>
    requires { Sound base.now }
    ensures { RefusedOr base.now (type_refusals (no_such_name (schema_of base.now) sds name.now)) result
        (λ t. TypeOf base.now sds name.now t) }
{
    let Some(t) = lookup::named::type_in(base, sds, name) else {
        return Err(Refused::NoSuchType);
    };
    Ok(t)
}

// The types of two names.
pub fn named_two(
    base: &[u8],
    sds: usize,
    name: &[u8],
    other: &[u8],
) -> Result<(usize, usize), Refused>
    requires { Sound base.now }
    ensures { let s = schema_of base.now in
        RefusedOr base.now (type_refusals (no_such_name s sds name.now || no_such_name s sds other.now)) result
        (λ types. Both base.now sds name.now other.now types.0 types.1) }
{
    let Some(one) = lookup::named::type_in(base, sds, name) else {
        return Err(Refused::NoSuchType);
    };
    let Some(two) = lookup::named::type_in(base, sds, other) else {
        return Err(Refused::NoSuchType);
    };
    Ok((one, two))
}

// ---- new names

// Whether the SDS has a type of either name, or the two are one.
pub fn are_taken(base: &[u8], sds: usize, name: &[u8], other: &[u8]) -> bool
    requires { Sound base.now }
    ensures { result ≡ names_taken (schema_of base.now) sds (name.now ∷ other.now ∷ []) }
{
    if lookup::named::type_in(base, sds, name).is_some() {
        return true;
    }
    if lookup::named::type_in(base, sds, other).is_some() {
        return true;
    }
    names::is_same(name, other)
}
