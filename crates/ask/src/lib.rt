// The asking calls. They read a sound base, and change nothing but an output.
#![tactic(auto)]

ghost use Rattle.rules.specs.11-Asks.{scan_object, scan_link, profile, find, depth_of, name, descendant_set, modes_of};
ghost use Rattle.rules.specs.09-Refusals.{answered};
ghost use Rattle.rules.specs.12-Contracts.{room, Listed, Answered, Handed};

use rules::{Done, Refused};

// The types that stand in one relation to an object type, by the code of the relation.
pub fn scan_object(
    base: &[u8],
    schema: &[u8],
    t: usize,
    code: usize,
    out: &mut [u8],
) -> Result<Done, Refused>
    ensures { Listed base.now (scan_object schema.now t code (room out.old)) (answered result) out.old out.new }
{
    let listed = ask_scans::view::of(base, schema, t, false, code < 10)?;
    let set = ask_scans::scan::of_object(base, listed, t, code);
    ask_scans::lists::put(set, out)
}

// The like for a link type.
pub fn scan_link(
    base: &[u8],
    schema: &[u8],
    t: usize,
    code: usize,
    out: &mut [u8],
) -> Result<Done, Refused>
    ensures { Listed base.now (scan_link schema.now t code (room out.old)) (answered result) out.old out.new }
{
    let listed = ask_scans::view::of(base, schema, t, true, code < 5)?;
    let set = ask_scans::scan::of_link(base, listed, t, code);
    ask_scans::lists::put(set, out)
}

// Ancestors, attribute-all and link-origin-all of an object type, each list straight after the last.
pub fn profile(base: &[u8], schema: &[u8], t: usize, out: &mut [u8]) -> Result<Done, Refused>
    ensures { Listed base.now (profile schema.now t (room out.old)) (answered result) out.old out.new }
{
    let listed = ask_scans::view::of(base, schema, t, false, true)?;
    let lists = ask_scans::scan::of_profile(base, listed, t);
    ask_scans::lists::put_three(lists.ancestors, lists.attributes, lists.links, out)
}

// The type that bears a local name in the first listed SDS that has it.
pub fn find(base: &[u8], schema: &[u8], name: &[u8]) -> Result<Done, Refused>
    ensures { Answered base.now (find schema.now name.now) (answered result) }
{
    if !sound::is_sound(base) {
        return Err(Refused::NotSound);
    }
    if working::listed::has_unknown(base, schema) {
        return Err(Refused::UnknownSds);
    }
    if !names::is_well_formed(name) {
        return Err(Refused::Malformed);
    }
    let Some(t) = working::find::type_named(base, schema, name) else {
        return Err(Refused::NoSuchType);
    };
    if working::listed::has_repeated(schema) {
        return Err(Refused::Repeated);
    }
    Ok(Done(t, 0, 0))
}

// The greatest number of parent steps from an object type up to type 0.
pub fn depth(base: &[u8], schema: &[u8], t: usize) -> Result<Done, Refused>
    ensures { Answered base.now (depth_of schema.now t) (answered result) }
{
    ask_scans::view::of(base, schema, t, false, true)?;
    Ok(Done(kin::depth(base, t), 0, 0))
}

// The visible descendants of an object type, in two words, and how many there are.
pub fn descendant_set(base: &[u8], schema: &[u8], t: usize) -> Result<Done, Refused>
    ensures { Answered base.now (descendant_set schema.now t) (answered result) }
{
    let listed = ask_scans::view::of(base, schema, t, false, true)?;
    let set = ask_scans::scan::of_object(base, listed, t, 1);
    Ok(Done(set.low as usize, set.high as usize, set.count()))
}

// The modes of a type, usage and definition, joined over the listed SDSs that hold it.
pub fn modes(base: &[u8], schema: &[u8], t: usize) -> Result<Done, Refused>
    ensures { Answered base.now (modes_of schema.now t) (answered result) }
{
    if !sound::is_sound(base) {
        return Err(Refused::NotSound);
    }
    if working::listed::has_unknown(base, schema) {
        return Err(Refused::UnknownSds);
    }
    let listed = working::listed::listed(schema);
    if !visible::is_visible(base, listed, t) {
        return Err(Refused::NoSuchType);
    }
    if working::listed::has_repeated(schema) {
        return Err(Refused::Repeated);
    }
    let modes = visible::modes_in(base, listed, t);
    Ok(Done(modes.usage, modes.definition, 0))
}

// Where the local name of a type in an SDS starts in the base, and how long it is.
pub fn name_place(base: &[u8], sds: usize, t: usize) -> Result<Done, Refused>
    ensures { Answered base.now (name sds t) (answered result) }
{
    if !sound::is_sound(base) {
        return Err(Refused::NotSound);
    }
    if !lookup::sdss::is_sds(base, sds) {
        return Err(Refused::UnknownSds);
    }
    let Some(row) = lookup::presences::presence_row(base, sds, t) else {
        return Err(Refused::NoSuchType);
    };
    Ok(Done(base::name_at(row), lookup::named::name_length(base, row), 0))
}

// The part of the base that holds it; empty where `name_place` refuses.
pub fn name(base: &[u8], sds: usize, t: usize) -> &[u8]
    ensures { Handed base.now (name sds t) result.now }
{
    let Ok(place) = name_place(base, sds, t) else {
        return &base[0..0];
    };
    let start = place.0;
    let end = start + place.1;
    &base[start..end]
}
