// A type of one SDS gets a presence in another, and its reverse with it, or its ancestors that are missing there.
#![tactic(auto)]

pub mod ancestors;

ghost use Rattle.std.specs.Prelude.{◌≡◌, [], ◌∷◌, true, false, not, ◌&&◌, ◌||◌, length, is_some};
ghost use Rattle.rules.specs.03-Names.{blank};
ghost use Rattle.rules.specs.04-Schema.{new_presence, present};
ghost use Rattle.rules.specs.07-Picture.{Sound, base_length};
ghost use Rattle.rules.specs.09-Refusals.{unknown_sds, malformed, malformed_new, answered};
ghost use Rattle.rules.specs.10-Changes.{filled, import};
ghost use Rattle.rules.specs.12-Contracts.{Kept};
ghost use Rattle.rules.specs.Read.{strip};
ghost use Rattle.base.specs.Back.{schema_of};
ghost use Rattle.conditions.specs.Aimed.{WithReverse, RefusedOr};
ghost use Rattle.type_set.specs.Set.{has};
ghost use Rattle.change_imports.specs.Import.{first_refusals, Enters, enter, Missing, nameless_of};

use rules::{Done, Limits, Refused};
use type_set::TypeSet;

// ---- what is tested before the names are filled in

fn is_one_unknown(base: &[u8], target: usize, source: usize) -> bool
    requires { length base.now ≡ base_length }
    ensures { result ≡ unknown_sds (schema_of base.now) target || unknown_sds (schema_of base.now) source }
{
    !lookup::sdss::is_sds(base, target) || !lookup::sdss::is_sds(base, source)
}

// A new name may be blank.
fn is_malformed_new(name: &[u8]) -> bool
    ensures { result ≡ malformed_new name.now }
{
    !name.is_empty() && !names::is_well_formed(name)
}

fn is_one_malformed(name: &[u8], new: &[u8], new_reverse: &[u8]) -> bool
    ensures { result ≡ malformed name.now || (malformed_new new.now || malformed_new new_reverse.now) }
{
    !names::is_well_formed(name) || (is_malformed_new(new) || is_malformed_new(new_reverse))
}

// Whether a name is given for a reverse that there is not.
fn is_idle(reverse: Option<usize>, name: &[u8]) -> bool
    ensures { result ≡ not (blank name.now) && not (is_some reverse) }
{
    !name.is_empty() && reverse.is_none()
}

// The type that is named, and its reverse, if it has one.
fn named_by(
    base: &[u8],
    target: usize,
    source: usize,
    name: &[u8],
    new: &[u8],
    new_reverse: &[u8],
) -> Result<(usize, Option<usize>), Refused>
    ensures { RefusedOr base.now
        (first_refusals target source name.now new.now new_reverse.now (schema_of base.now)) result
        (λ types. WithReverse base.now source name.now types.0 types.1) }
{
    if !sound::is_sound(base) {
        return Err(Refused::NotSound);
    }
    if is_one_unknown(base, target, source) {
        return Err(Refused::UnknownSds);
    }
    if target == 0 {
        return Err(Refused::SystemSds);
    }
    if is_one_malformed(name, new, new_reverse) {
        return Err(Refused::Malformed);
    }
    let Some(t) = lookup::named::type_in(base, source, name) else {
        return Err(Refused::NoSuchType);
    };
    let reverse = conditions::reverse_of(base, t);
    if is_idle(reverse, new_reverse) {
        return Err(Refused::WrongKind);
    }
    if conditions::is_present(base, target, t) {
        return Err(Refused::AlreadyThere);
    }
    Ok((t, reverse))
}

// ---- the names

// A field with the new name, or where that is blank with the name of type t in the source.
fn filled(base: &[u8], source: usize, t: usize, new: &[u8]) -> [u8; Limits::NAME]
    requires sound { Sound base.now }
    requires t_value { present (schema_of base.now) source t ≡ true }
    requires value { malformed_new new.now ≡ false }
    ensures { strip result ≡ filled (schema_of base.now) source t new.now }
{
    let mut field: [u8; Limits::NAME] = [0; Limits::NAME];
    if new.is_empty() {
        let row = lookup::presences::presence_row(base, source, t).unwrap();
        rows::table::write(&mut field, 0, base::presence_field(base, row));
        return field;
    }
    rows::table::write(&mut field, 0, new);
    field
}

// ---- the presences

// Type t comes into SDS d, and with it its ancestors that are missing there.
fn enter_one(
    base: &mut [u8],
    d: usize,
    name: &[u8],
    t: usize,
    above: TypeSet,
) -> Result<Done, Refused>
    requires sound { Sound base.old }
    requires enters { Enters d name.now t }
    requires missing { Missing d t (has above) (schema_of base.old) }
    ensures { Kept base.old
        (enter d (new_presence d name.now t ∷ []) (nameless_of d (has above)) t 0) (answered result) base.new }
{
    if lookup::named::type_in(base, d, name).is_some() {
        return Err(Refused::NameTaken);
    }
    if Limits::PRESENCES < base::used::presence_count(base) + 1 + above.count() {
        return Err(Refused::NoRoom);
    }
    edit::put_presence(base, d, name, t);
    ancestors::bring(base, d, above);
    Ok(Done(t, 0, 0))
}

// Type t comes into SDS d, and with it its reverse r, under the other name.
fn enter_both(
    base: &mut [u8],
    d: usize,
    name: &[u8],
    t: usize,
    other: &[u8],
    r: usize,
) -> Result<Done, Refused>
    requires sound { Sound base.old }
    requires enters { Enters d name.now t }
    requires enters_2 { Enters d other.now r }
    ensures { Kept base.old
        (enter d (new_presence d name.now t ∷ new_presence d other.now r ∷ []) [] t r) (answered result) base.new }
{
    if conditions::aimed::are_taken(base, d, name, other) {
        return Err(Refused::NameTaken);
    }
    if Limits::PRESENCES < base::used::presence_count(base) + 2 {
        return Err(Refused::NoRoom);
    }
    edit::put_presence(base, d, name, t);
    edit::put_presence(base, d, other, r);
    Ok(Done(t, r, 0))
}

// A blank new name stands for the name in the source.
pub fn import(
    base: &mut [u8],
    target: usize,
    source: usize,
    name: &[u8],
    new: &[u8],
    new_reverse: &[u8],
) -> Result<Done, Refused>
    ensures { Kept base.old (import target source name.now new.now new_reverse.now) (answered result) base.new }
{
    let (t, reverse) = named_by(base, target, source, name, new, new_reverse)?;
    let first = filled(base, source, t, new);
    let n = name_fields::name_length(&first);
    let Some(r) = reverse else {
        let above = ancestors::missing(base, target, t);
        return enter_one(base, target, &first[0..n], t, above);
    };
    let second = filled(base, source, r, new_reverse);
    let m = name_fields::name_length(&second);
    enter_both(base, target, &first[0..n], t, &second[0..m], r)
}
