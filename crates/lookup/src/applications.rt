// Applications: the row of one.
ghost use Rattle.std.specs.Prelude.{◌≡◌, ◌<◌, length, IfSome};
ghost use Rattle.std.specs.Option.{unwrap_or};
ghost use Rattle.rules.specs.02-Limits.{limits};
ghost use Rattle.rules.specs.04-Schema.{is_application};
ghost use Rattle.rules.specs.07-Picture.{base_length};
ghost use Rattle.base.specs.Back.{application_count, application_shown};
ghost use Rattle.lookup.specs.Found.{FirstRow};

// Whether row i applies attribute type a to type t in SDS d.
fn is_application(base: &[u8], i: usize, d: usize, t: usize, a: usize) -> bool
    requires { (length base.now ≡ base_length) × (i < limits.applications) }
    ensures { result ≡ is_application d t a (application_shown base.now i) }
{
    base::application_sds(base, i) == d
        && base::application_to(base, i) == t
        && base::application_attribute(base, i) == a
}

// The row that does so.
pub fn application_row(base: &[u8], d: usize, t: usize, a: usize) -> Option<usize>
    requires { length base.now ≡ base_length }
    ensures first { let n = application_count base.now in
        FirstRow n (λ i. is_application d t a (application_shown base.now i)) (unwrap_or result n) }
    ensures below { IfSome result (λ i. i < application_count base.now) }
{
    for i in 0..base::used::application_count(base) {
        if is_application(base, i, d, t, a) {
            return Some(i);
        }
    }
    None
}
