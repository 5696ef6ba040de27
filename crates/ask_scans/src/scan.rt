// The set that each code of a scan lists.
// A code stays 01's number, and is no enum: C gives it, and the rules (`object_scan`, `link_scan`) go by it.
ghost use Rattle.std.specs.Prelude.{◌≡◌, true, ℕ, ◌≤◌, ◌<◌};
ghost use Rattle.rules.specs.01-Lists.{among};
ghost use Rattle.rules.specs.02-Limits.{limits};
ghost use Rattle.rules.specs.07-Picture.{Sound};
ghost use Rattle.base.specs.Back.{schema_of};
ghost use Rattle.type_set.specs.Set.{bit, has};
ghost use Rattle.visible.specs.Shown.{held_in};
ghost use Rattle.ask_scans.specs.Scans.{object_scan, link_scan, sources, Scanned, Profiled};

use type_set::TypeSet;

// ---- of an object type

// Codes 0 to 3: child, descendant, parent, ancestor. What is above a visible type is visible; a child need not be.
fn kin(base: &[u8], sdss: u16, t: usize, code: usize) -> TypeSet
    requires { Sound base.now × ((t < limits.types) × ((code < 4) × (held_in (schema_of base.now) (bit sdss) t ≡ true))) }
    ensures { Scanned (schema_of base.now) (bit sdss) (λ w. object_scan (schema_of base.now) w t code) (has result) }
{
    let s = TypeSet::only(t);
    match code {
        0 => visible::visible(base, sdss).meet(kin::children_of(base, s)),
        1 => kin::with_descendants(base, sdss, s).less(t),
        2 => kin::parents_of(base, s),
        _ => kin::ancestors_of(base, s),
    }
}

// The types whose attribute and link types count: the type, and with "all" its ancestors.
fn sources(base: &[u8], t: usize, all: bool) -> TypeSet
    requires { Sound base.now × (t < limits.types) }
    ensures { (k : ℕ) → has result k ≡ among (sources (schema_of base.now) all t) k }
{
    let s = TypeSet::only(t);
    if all {
        s.join(kin::ancestors_of(base, s))
    } else {
        s
    }
}

// Codes 4 to 9: attribute, link-origin and link-destination, each without and with "all".
fn had(base: &[u8], sdss: u16, t: usize, code: usize) -> TypeSet
    requires { Sound base.now × ((t < limits.types) × ((4 ≤ code) × (code < 10))) }
    ensures { Scanned (schema_of base.now) (bit sdss) (λ w. object_scan (schema_of base.now) w t code) (has result) }
{
    let types = sources(base, t, code % 2 == 1);
    match code / 2 {
        2 => visible::attributes(base, sdss, types),
        3 => visible::links(base, sdss, 0, types),
        _ => visible::links(base, sdss, 1, types),
    }
}

pub fn of_object(base: &[u8], sdss: u16, t: usize, code: usize) -> TypeSet
    requires { Sound base.now × ((t < limits.types) × ((code < 10) × (held_in (schema_of base.now) (bit sdss) t ≡ true))) }
    ensures { Scanned (schema_of base.now) (bit sdss) (λ w. object_scan (schema_of base.now) w t code) (has result) }
{
    if code < 4 {
        kin(base, sdss, t, code)
    } else {
        had(base, sdss, t, code)
    }
}

// What a profile lists.
#[derive(Clone, Copy)]
pub struct Profile {
    pub ancestors: TypeSet,
    pub attributes: TypeSet,
    pub links: TypeSet,
}

// Codes 3, 5 and 7, whose ancestors are found once.
pub fn of_profile(base: &[u8], sdss: u16, t: usize) -> Profile
    requires { Sound base.now × ((t < limits.types) × (held_in (schema_of base.now) (bit sdss) t ≡ true)) }
    ensures { Profiled (schema_of base.now) (bit sdss) t result }
{
    let s = TypeSet::only(t);
    let ancestors = kin::ancestors_of(base, s);
    let types = s.join(ancestors);
    let attributes = visible::attributes(base, sdss, types);
    let links = visible::links(base, sdss, 0, types);
    Profile {
        ancestors,
        attributes,
        links,
    }
}

// ---- of a link type

// Codes 0 to 3: origin and destination, each without and with "all".
fn ends(base: &[u8], sdss: u16, t: usize, code: usize) -> TypeSet
    requires { Sound base.now × (code < 4) }
    ensures { Scanned (schema_of base.now) (bit sdss) (λ w. link_scan (schema_of base.now) w t code) (has result) }
{
    let objects = visible::objects(base, sdss, code / 2, t);
    if code % 2 == 0 {
        objects
    } else {
        kin::with_descendants(base, sdss, objects)
    }
}

// Code 4 besides: the attribute types that are applied to it.
pub fn of_link(base: &[u8], sdss: u16, t: usize, code: usize) -> TypeSet
    requires { Sound base.now × ((t < limits.types) × (code < 5)) }
    ensures { Scanned (schema_of base.now) (bit sdss) (λ w. link_scan (schema_of base.now) w t code) (has result) }
{
    if code < 4 {
        ends(base, sdss, t, code)
    } else {
        visible::attributes(base, sdss, TypeSet::only(t))
    }
}
