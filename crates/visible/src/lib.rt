// What the SDSs of a word show: sets of types, each gathered row by row from one table, and the modes of a type.
#![tactic(auto)]

ghost use Rattle.std.specs.Prelude.{◌≡◌, ◌&&◌, ℕ, ◌<◌, eqb};
ghost use Rattle.rules.specs.04-Schema.{side_code};
ghost use Rattle.rules.specs.07-Picture.{Sound};
ghost use Rattle.base.specs.Back.{schema_of, presence_count, application_count, end_count, presence_shown, application_shown, end_shown};
ghost use Rattle.type_set.specs.Set.{bit, has};
ghost use Rattle.visible.specs.Shown.{gathered, held_in, joined, Gathers};

use type_set::TypeSet;

// Whether row i is in one of these SDSs.
fn is_listed(base: &[u8], i: usize, sdss: u16) -> bool
    requires { Sound base.now × (i < presence_count base.now) }
    ensures { result ≡ bit sdss (presence_shown base.now i).sds }
{
    working::listed::lists(sdss, base::presence_sds(base, i))
}

// Whether row i says that type t is in one of these SDSs.
fn is_shown(base: &[u8], i: usize, sdss: u16, t: usize) -> bool
    requires { Sound base.now × (i < presence_count base.now) }
    ensures { result ≡ bit sdss (presence_shown base.now i).sds && eqb t (presence_shown base.now i).type }
{
    is_listed(base, i, sdss) && t == base::presence_type(base, i)
}

// Whether type t is in one of these SDSs.
pub fn is_visible(base: &[u8], sdss: u16, t: usize) -> bool
    requires { Sound base.now }
    ensures { result ≡ held_in (schema_of base.now) (bit sdss) t }
{
    (0..lookup::presences::count(base)).any(|i| is_shown(base, i, sdss, t))
}

// Two sets of modes, usage and definition.
#[derive(Clone, Copy)]
pub struct Modes {
    pub usage: usize,
    pub definition: usize,
}

// Those of type t in these SDSs, joined.
pub fn modes_in(base: &[u8], sdss: u16, t: usize) -> Modes
    requires { Sound base.now }
    ensures { let ps = (schema_of base.now).presences in
        (result.usage ≡ joined (bit sdss) t (λ p. p.usage) ps) × (result.definition ≡ joined (bit sdss) t (λ p. p.definition) ps) }
{
    let mut usage = 0;
    let mut definition = 0;
    for i in 0..lookup::presences::count(base) {
        if is_shown(base, i, sdss, t) {
            usage |= base::presence_usage(base, i);
            definition |= base::presence_definition(base, i);
        }
    }
    Modes { usage, definition }
}

// The types that the rows below n put in: of each row that passes, the one that it has.
fn gather<P: Fn(usize) -> bool, V: Fn(usize) -> usize>(n: usize, passes: P, value: V) -> TypeSet
    requires passes { (i : ℕ) → i < n → P.pre passes i }
    requires value { (i : ℕ) → i < n → V.pre value i }
    requires types { (i t : ℕ) → i < n → V.post value i t → t < 128 }
    ensures { Gathers n (λ i x. P.post passes i x) (λ i t. V.post value i t) (has result) }
{
    let mut r = TypeSet::empty();
    for i in 0..n {
        if passes(i) {
            r = r.add(value(i));
        }
    }
    r
}

// The types that are in these SDSs.
pub fn visible(base: &[u8], sdss: u16) -> TypeSet
    requires { Sound base.now }
    ensures { (k : ℕ) → has result k ≡ held_in (schema_of base.now) (bit sdss) k }
{
    gather(
        lookup::presences::count(base),
        |i| is_listed(base, i, sdss),
        |i| base::presence_type(base, i),
    )
}

// Whether row i applies an attribute type, in one of these SDSs, to one of these types.
fn is_applied(base: &[u8], i: usize, sdss: u16, types: TypeSet) -> bool
    requires { Sound base.now × (i < application_count base.now) }
    ensures { result ≡ bit sdss (application_shown base.now i).sds && has types (application_shown base.now i).to }
{
    working::listed::lists(sdss, base::application_sds(base, i))
        && types.test(base::application_to(base, i))
}

// The attribute types that are applied to these types in these SDSs.
pub fn attributes(base: &[u8], sdss: u16, types: TypeSet) -> TypeSet
    requires { Sound base.now }
    ensures { (k : ℕ) → has result k ≡ gathered (λ x. bit sdss x.sds && has types x.to) (λ x. x.attribute) (schema_of base.now).applications k }
{
    gather(
        base::used::application_count(base),
        |i| is_applied(base, i, sdss, types),
        |i| base::application_attribute(base, i),
    )
}

// Whether row i is an end in one of these SDSs and on that side.
fn is_end(base: &[u8], i: usize, sdss: u16, side: usize) -> bool
    requires { Sound base.now × (i < end_count base.now) }
    ensures { result ≡ bit sdss (end_shown base.now i).sds && eqb (side_code (end_shown base.now i).side) side }
{
    working::listed::lists(sdss, base::end_sds(base, i)) && base::end_side(base, i) == side
}

// Whether row i is such an end at one of these object types.
fn is_end_at(base: &[u8], i: usize, sdss: u16, side: usize, types: TypeSet) -> bool
    requires { Sound base.now × (i < end_count base.now) }
    ensures { result ≡ (bit sdss (end_shown base.now i).sds && eqb (side_code (end_shown base.now i).side) side)
        && has types (end_shown base.now i).object }
{
    is_end(base, i, sdss, side) && types.test(base::end_object(base, i))
}

// The link types that have one of these object types for an end, in these SDSs and on that side.
pub fn links(base: &[u8], sdss: u16, side: usize, types: TypeSet) -> TypeSet
    requires { Sound base.now }
    ensures { (k : ℕ) → has result k
        ≡ gathered (λ e. (bit sdss e.sds && eqb (side_code e.side) side) && has types e.object) (λ e. e.link) (schema_of base.now).ends k }
{
    gather(
        base::used::end_count(base),
        |i| is_end_at(base, i, sdss, side, types),
        |i| base::end_link(base, i),
    )
}

// Whether row i is such an end of that link type.
fn is_end_of(base: &[u8], i: usize, sdss: u16, side: usize, link: usize) -> bool
    requires { Sound base.now × (i < end_count base.now) }
    ensures { result ≡ (bit sdss (end_shown base.now i).sds && eqb (side_code (end_shown base.now i).side) side)
        && eqb (end_shown base.now i).link link }
{
    is_end(base, i, sdss, side) && base::end_link(base, i) == link
}

// The object types that are ends of that link type, in these SDSs and on that side.
pub fn objects(base: &[u8], sdss: u16, side: usize, link: usize) -> TypeSet
    requires { Sound base.now }
    ensures { (k : ℕ) → has result k
        ≡ gathered (λ e. (bit sdss e.sds && eqb (side_code e.side) side) && eqb e.link link) (λ e. e.object) (schema_of base.now).ends k }
{
    gather(
        base::used::end_count(base),
        |i| is_end_of(base, i, sdss, side, link),
        |i| base::end_object(base, i),
    )
}
