// The kin of a set of types: parents, children and ancestors, from the rows of types alone, and the descendants that are in some SDSs; and
// the depth of a type.
#![tactic(auto)]

ghost use Rattle.std.specs.Prelude.{◌≡◌, true, false, not, ◌||◌, ℕ, ◌+◌, ◌≤◌, ◌<◌};
ghost use Rattle.rules.specs.02-Limits.{limits};
ghost use Rattle.rules.specs.04-Schema.{is_object, is_parent, kind_of};
ghost use Rattle.rules.specs.05-Descent.{depth};
ghost use Rattle.rules.specs.07-Picture.{Sound};
ghost use Rattle.base.specs.Back.{schema_of, presence_count, presence_shown};
ghost use Rattle.type_set.specs.Set.{bit, has};
ghost use Rattle.lookup.specs.Parents.{Parental};
ghost use Rattle.kin.specs.Kin.{parents_of, children_of, ancestors_of, with_descendants, child_there, looked_at, Span, Passed};

use rules::Limits;
use type_set::TypeSet;

// `s` with the parents of `t`.
fn add_parents(base: &[u8], t: usize, s: TypeSet) -> TypeSet
    requires { Parental base.now × (t < limits.types) }
    ensures { (k : ℕ) → has result k ≡ is_parent (schema_of base.now) t k || has s k }
{
    let mut r = s;
    for i in 0..base::parent_count(base, t) {
        r = r.add(base::parent(base, t, i));
    }
    r
}

pub fn parents_of(base: &[u8], s: TypeSet) -> TypeSet
    requires { Parental base.now }
    ensures { (k : ℕ) → has result k ≡ parents_of (schema_of base.now) (has s) k }
{
    let mut r = TypeSet::empty();
    let mut left = s;
    while let Some(t) = left.lowest() {
        r = add_parents(base, t, r);
        left = left.less(t);
    }
    r
}

// Each ancestor is taken once: what is found, and the parents that are still to be taken.
pub fn ancestors_of(base: &[u8], s: TypeSet) -> TypeSet
    requires { Sound base.now }
    ensures { (k : ℕ) → has result k ≡ ancestors_of (schema_of base.now) (has s) k }
{
    let mut found = TypeSet::empty();
    let mut left = parents_of(base, s);
    while let Some(t) = left.lowest() {
        found = found.add(t);
        left = add_parents(base, t, left).without(found);
    }
    found
}

// Whether some parent of `t` is in `s`.
fn has_parent_in(base: &[u8], t: usize, s: TypeSet) -> bool
    requires { Parental base.now × (t < limits.types) }
    ensures { result ≡ children_of (schema_of base.now) (has s) t }
{
    for i in 0..base::parent_count(base, t) {
        if s.test(base::parent(base, t, i)) {
            return true;
        }
    }
    false
}

pub fn children_of(base: &[u8], s: TypeSet) -> TypeSet
    requires { Parental base.now }
    ensures { (k : ℕ) → has result k ≡ children_of (schema_of base.now) (has s) k }
{
    let mut r = TypeSet::empty();
    for k in 0..Limits::TYPES {
        if has_parent_in(base, k, s) {
            r = r.add(k);
        }
    }
    r
}

// `s` with the type of row i, where one of these SDSs holds it there and a parent of it is in `s`.
fn add_child(base: &[u8], sdss: u16, i: usize, s: TypeSet) -> TypeSet
    requires { Sound base.now × (i < presence_count base.now) }
    ensures { (k : ℕ) → has result k
        ≡ has s k || child_there (schema_of base.now) (bit sdss) (has s) (presence_shown base.now i) k }
{
    if !working::listed::lists(sdss, base::presence_sds(base, i)) {
        return s;
    }
    let t = base::presence_type(base, i);
    if s.test(t) || !has_parent_in(base, t, s) {
        return s;
    }
    s.add(t)
}

// Rows of presences that a pass looks at one by one: `count` rows, the first of them row `from`; from the last one on where `down`.
// A flag and no range or its `rev()`: the way turns with each pass, and those are two types.
#[derive(Clone, Copy)]
struct Rows {
    from: usize,
    count: usize,
    down: bool,
}

impl Rows {
    // The row that is looked at after i others.
    fn at(self, i: usize) -> usize
        requires { (i < self.count) × (self.from + self.count ≤ limits.presences) }
        ensures { (result < self.from + self.count) × (result ≡ looked_at self.from self.count self.down i) }
    {
        if self.down {
            return self.from + (self.count - 1 - i);
        }
        self.from + i
    }

    // The other way round.
    fn turned(self) -> Rows
        ensures { (result.from ≡ self.from) × (result.count ≡ self.count) × (result.down ≡ not self.down) }
    {
        Rows {
            down: !self.down,
            ..self
        }
    }

    // Without those that a pass looks at before it comes to one in one of these SDSs.
    fn trimmed(self, base: &[u8], sdss: u16) -> Rows
        requires { Sound base.now × Span base.now (bit sdss) self.from self.count }
        ensures { Span base.now (bit sdss) result.from result.count × (result.down ≡ self.down) }
    {
        let n = unlisted(base, sdss, self);
        let from = if self.down { self.from } else { self.from + n };
        Rows {
            from,
            count: self.count - n,
            down: self.down,
        }
    }
}

// How many of these rows a pass looks at before it comes to one in one of these SDSs.
fn unlisted(base: &[u8], sdss: u16, rows: Rows) -> usize
    requires { Sound base.now × (rows.from + rows.count ≤ presence_count base.now) }
    ensures { (result ≤ rows.count)
        × ((i : ℕ) → i < result → bit sdss (presence_shown base.now (looked_at rows.from rows.count rows.down i)).sds ≡ false) }
{
    for i in 0..rows.count {
        if working::listed::lists(sdss, base::presence_sds(base, rows.at(i))) {
            return i;
        }
    }
    rows.count
}

// `s` with what one look at each of these rows adds.
fn pass(base: &[u8], sdss: u16, rows: Rows, s: TypeSet) -> TypeSet
    requires { Sound base.now × Span base.now (bit sdss) rows.from rows.count }
    ensures { Passed (schema_of base.now) (bit sdss) (has s) (has result) }
{
    let mut r = s;
    for i in 0..rows.count {
        r = add_child(base, sdss, rows.at(i), r);
    }
    r
}

// `s` with those of its descendants that are in these SDSs. An SDS that holds a type holds its parents, so the rows of these SDSs have
// every way down: the rows from the first to the last of them are passed until a pass adds none, every second time from the last row on.
pub fn with_descendants(base: &[u8], sdss: u16, s: TypeSet) -> TypeSet
    requires { Sound base.now }
    ensures { (k : ℕ) → has result k ≡ with_descendants (schema_of base.now) (bit sdss) (has s) k }
{
    let all = Rows {
        from: 0,
        count: lookup::presences::count(base),
        down: true,
    };
    let mut rows = all.trimmed(base, sdss).turned().trimmed(base, sdss);
    let mut r = s;
    let mut n = 0;
    while n < r.count() {
        n = r.count();
        r = pass(base, sdss, rows, r);
        rows = rows.turned();
    }
    r
}

// The parents of the parents, level by level, until a level is empty: where ways up differ in length the longest one counts.
pub fn depth(base: &[u8], t: usize) -> usize
    requires { Sound base.now × (is_object (kind_of (schema_of base.now) t) ≡ true) }
    ensures { result ≡ depth (schema_of base.now) t }
{
    let mut s = parents_of(base, TypeSet::only(t));
    let mut d = 0;
    while s.lowest().is_some() {
        s = parents_of(base, s);
        d += 1;
    }
    d
}
