// The ancestors that an import brings.
ghost use Rattle.std.specs.Prelude.{◌≡◌, ◌<◌};
ghost use Rattle.rules.specs.02-Limits.{limits};
ghost use Rattle.rules.specs.07-Picture.{Sound};
ghost use Rattle.base.specs.Back.{schema_of};
ghost use Rattle.base.specs.Stored.{Stored, Shows};
ghost use Rattle.type_set.specs.Set.{has};
ghost use Rattle.change_imports.specs.Import.{Lacking, Missing, brought};

use type_set::TypeSet;

// Those of type t that SDS d lacks.
pub fn missing(base: &[u8], d: usize, t: usize) -> TypeSet
    requires { Sound base.now × ((d < limits.sdss) × (t < limits.types)) }
    ensures { Missing d t (has result) (schema_of base.now) }
{
    let all = kin::ancestors_of(base, TypeSet::only(t));
    all.without(visible::visible(base, working::listed::listed(&[d as u8])))
}

// The types of a set come into SDS d without names, the lowest first.
pub fn bring(base: &mut [u8], d: usize, types: TypeSet)
    requires stored { Stored base.old × ((d ≡ 0 → ⊥) × (d < limits.sdss)) }
    requires lacking { Lacking d (has types) (schema_of base.old) }
    ensures { Shows base.new (brought d (has types) (schema_of base.old)) }
{
    let mut left = types;
    while let Some(t) = left.lowest() {
        edit::put_nameless(base, d, t);
        left = left.less(t);
    }
}
