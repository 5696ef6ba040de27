// What stands in the way when a type is removed from an SDS, or an SDS itself: the lowest type of each kind of obstacle, found by one
// pass over its rows.
#![tactic(auto)]

ghost use Rattle.std.specs.Prelude.{◌≡◌, ◌∷◌, ◌<◌, ◌||◌, ℕ, Bool, Option, IfSome, option_to_list};
ghost use Rattle.std.specs.Option.{unwrap_or};
ghost use Rattle.rules.specs.01-Lists.{any, among};
ghost use Rattle.rules.specs.02-Limits.{limits};
ghost use Rattle.rules.specs.04-Schema.{present, holds_type};
ghost use Rattle.rules.specs.07-Picture.{Sound};
ghost use Rattle.rules.specs.09-Refusals.{child_there, applied_there, end_there};
ghost use Rattle.rules.specs.10-Changes.{obstacles};
ghost use Rattle.base.specs.Back.{schema_of, presence_count, application_count, end_count, presence_shown, application_shown, end_shown};
ghost use Rattle.base.specs.Tested.{Tests};
ghost use Rattle.conditions.specs.Reverse.{ReverseOf};
ghost use Rattle.in_use.specs.Held.{LowestOf, any_below, child_told, other_told, application_told, end_told};

use rules::Refused;

// ---- types, or none

// The lower of the two, where there are two.
fn lower(a: Option<usize>, b: Option<usize>) -> Option<usize>
    ensures { (p q : ℕ → Bool) → LowestOf p a → LowestOf q b → LowestOf (λ k. p k || q k) result }
{
    match (a, b) {
        (Some(x), Some(y)) => Some(x.min(y)),
        (x, None) => x,
        (None, y) => y,
    }
}

// The lowest that one of n rows tells.
fn lowest_of<F: Fn(usize) -> Option<usize>>(n: usize, told: F) -> Option<usize>
    requires { (i : ℕ) → i < n → F.pre told i }
    ensures { (tells : ℕ → ℕ → Bool) → ((i : ℕ) (r : Option ℕ) → i < n → F.post told i r → LowestOf (tells i) r)
        → LowestOf (λ k. any_below (λ i. tells i k) n) result }
{
    let mut lowest = None;
    for i in 0..n {
        lowest = lower(lowest, told(i));
    }
    lowest
}

// Whether x is type t, or its reverse.
pub fn is_either(x: usize, t: usize, reverse: Option<usize>) -> bool
    ensures { result ≡ among (t ∷ option_to_list reverse) x }
{
    x == t || Some(x) == reverse
}

// Of two types that a row joins the one that is joined to type t or to its reverse.
fn other_of(one: usize, two: usize, t: usize, reverse: Option<usize>) -> Option<usize>
    requires { (one < limits.types) × (two < limits.types) }
    ensures { LowestOf (other_told (t ∷ option_to_list reverse) one two) result }
{
    let second = is_either(one, t, reverse).then_some(two);
    let first = is_either(two, t, reverse).then_some(one);
    lower(second, first)
}

// ---- presences

// The type of row i, where it is in SDS d.
fn type_told(base: &[u8], i: usize, d: usize) -> Option<usize>
    requires { Sound base.now × (i < presence_count base.now) }
    ensures { LowestOf (λ x. holds_type d x (presence_shown base.now i)) result }
{
    if base::presence_sds(base, i) != d {
        return None;
    }
    Some(base::presence_type(base, i))
}

// The lowest type in SDS d.
pub fn lowest_type(base: &[u8], d: usize) -> Option<usize>
    requires { Sound base.now }
    ensures { LowestOf (present (schema_of base.now) d) result }
{
    lowest_of(lookup::presences::count(base), |i| type_told(base, i, d))
}

// The type of row i, where it is a child of type t in SDS d.
fn child_told(base: &[u8], i: usize, d: usize, t: usize) -> Option<usize>
    requires { Sound base.now × (i < presence_count base.now) }
    ensures { LowestOf (child_told (schema_of base.now) d t (presence_shown base.now i)) result }
{
    if base::presence_sds(base, i) != d {
        return None;
    }
    let child = base::presence_type(base, i);
    conditions::is_parent(base, child, t).then_some(child)
}

// The lowest child of type t in SDS d.
fn lowest_child(base: &[u8], d: usize, t: usize) -> Option<usize>
    requires { Sound base.now }
    ensures { LowestOf (child_there (schema_of base.now) d t) result }
{
    lowest_of(
        lookup::presences::count(base),
        |i| child_told(base, i, d, t),
    )
}

// ---- applications

// What row i applies to type t or its reverse in SDS d, or applies one of them to.
fn application_told(
    base: &[u8],
    i: usize,
    d: usize,
    t: usize,
    reverse: Option<usize>,
) -> Option<usize>
    requires { Sound base.now × (i < application_count base.now) }
    ensures { LowestOf (application_told d (t ∷ option_to_list reverse) (application_shown base.now i)) result }
{
    if base::application_sds(base, i) != d {
        return None;
    }
    other_of(
        base::application_to(base, i),
        base::application_attribute(base, i),
        t,
        reverse,
    )
}

// The lowest type that is applied to type t or its reverse in SDS d, or that one of them is applied to.
fn lowest_applied(base: &[u8], d: usize, t: usize, reverse: Option<usize>) -> Option<usize>
    requires { Sound base.now }
    ensures { LowestOf (λ k. any (λ u. applied_there (schema_of base.now) d u k) (t ∷ option_to_list reverse)) result }
{
    lowest_of(
        base::used::application_count(base),
        |i| application_told(base, i, d, t, reverse),
    )
}

// ---- ends

// The end that row i gives type t or its reverse in SDS d, or the link type that it makes one of them an end of.
fn end_told(base: &[u8], i: usize, d: usize, t: usize, reverse: Option<usize>) -> Option<usize>
    requires { Sound base.now × (i < end_count base.now) }
    ensures { LowestOf (end_told d (t ∷ option_to_list reverse) (end_shown base.now i)) result }
{
    if base::end_sds(base, i) != d {
        return None;
    }
    other_of(
        base::end_link(base, i),
        base::end_object(base, i),
        t,
        reverse,
    )
}

// The lowest type that is an end of type t or its reverse in SDS d, or that one of them is an end of.
fn lowest_end(base: &[u8], d: usize, t: usize, reverse: Option<usize>) -> Option<usize>
    requires { Sound base.now }
    ensures { LowestOf (λ k. any (λ u. end_there (schema_of base.now) d u k) (t ∷ option_to_list reverse)) result }
{
    lowest_of(
        base::used::end_count(base),
        |i| end_told(base, i, d, t, reverse),
    )
}

// ---- what keeps a type from being removed

// The first obstacle to a removal of type t from SDS d, and the type that it tells.
pub fn obstacle(base: &[u8], d: usize, t: usize, reverse: Option<usize>) -> Result<(), Refused>
    requires sound { Sound base.now }
    requires reverse_of { ReverseOf (schema_of base.now) t (unwrap_or reverse limits.types) }
    requires below { IfSome reverse (λ r. r < limits.types) }
    ensures { Tests base.now (obstacles d t (schema_of base.now)) result }
{
    if let Some(child) = lowest_child(base, d, t) {
        return Err(Refused::ChildPresent(child));
    }
    if let Some(other) = lowest_applied(base, d, t, reverse) {
        return Err(Refused::ApplicationPresent(other));
    }
    if let Some(other) = lowest_end(base, d, t, reverse) {
        return Err(Refused::EndPresent(other));
    }
    Ok(())
}
