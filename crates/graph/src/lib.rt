// Whether no type is its own ancestor, from the rows of types alone.
#![tactic(auto)]

ghost use Rattle.std.specs.Prelude.{◌≡◌, true, ◌<◌, length, MatchOption};
ghost use Rattle.rules.specs.02-Limits.{limits};
ghost use Rattle.rules.specs.Parts.{Acyclic};
ghost use Rattle.rows.specs.Decides.{Decides};
ghost use Rattle.base.specs.Back.{schema_of};
ghost use Rattle.type_set.specs.Set.{has};
ghost use Rattle.graph.specs.Graph.{reached, Unsettled, AllSettled, AllGrounded, Settled};
ghost use Rattle.lookup.specs.Parents.{Parental, Falling};

use rules::Limits;
use type_set::TypeSet;

// A parent of `t` that is not in `settled`, if it has one.
fn unsettled_parent(base: &[u8], t: usize, settled: TypeSet) -> Option<usize>
    requires { Parental base.now × (t < limits.types) }
    ensures { MatchOption result
        (AllSettled (schema_of base.now) (has settled) t)
        (λ a. Unsettled (schema_of base.now) (has settled) t a) }
{
    for i in 0..base::parent_count(base, t) {
        let a = base::parent(base, t, i);
        if !settled.test(a) {
            return Some(a);
        }
    }
    None
}

// Where a way up from `t` has come to; its types stand the last first.
fn reached(way: &[u8], t: usize) -> usize
    ensures { result ≡ reached t way.now }
{
    match way.first() {
        Some(&a) => usize::from(a),
        None => t,
    }
}

// `settled` with `t`, and what had to be settled before it; None where there is a ring above `t`. A way up from `t`, over parents that are
// not settled, has come to `c`, and stands in `way` from `at` on. Where it can go no further `c` is settled and goes off the way. With `t`,
// a way of as many types as there are has one of them twice.
fn settle(base: &[u8], t: usize, mut settled: TypeSet, way: &mut [u8]) -> Option<TypeSet>
    requires parental { Parental base.now × (t < limits.types) }
    requires grounded { AllGrounded (schema_of base.now) (has settled) }
    requires way_len { length way.old ≡ limits.types }
    ensures { MatchOption result
        (Acyclic (schema_of base.now).types → ⊥)
        (λ more. Settled (schema_of base.now) (has settled) t (has more)) }
{
    let mut at = Limits::TYPES;
    let mut c = t;
    while 0 < at {
        if let Some(a) = unsettled_parent(base, c, settled) {
            at -= 1;
            way[at] = a as u8;
            c = a;
        } else {
            settled = settled.add(c);
            if at == Limits::TYPES {
                return Some(settled);
            }
            at += 1;
            c = reached(&way[at..], t);
        }
    }
    None
}

// `falls`: every parent is numbered below its child, as in most bases, so no type is its own ancestor. Else type after type is settled, from
// the last down, so that parents numbered above are settled first. The bytes of the way are lent: the caller has another use for them, and
// stack is dear.
pub fn is_acyclic(base: &[u8], falls: bool, way: &mut [u8]) -> bool
    requires parental { Parental base.now }
    requires falling { falls ≡ true → Falling (schema_of base.now) }
    requires way_len { length way.old ≡ limits.types }
    ensures { Decides (Acyclic (schema_of base.now).types) result }
{
    if falls {
        return true;
    }
    let mut settled = TypeSet::empty();
    for t in (0..Limits::TYPES).rev() {
        let Some(more) = settle(base, t, settled, way) else {
            return false;
        };
        settled = more;
    }
    true
}
