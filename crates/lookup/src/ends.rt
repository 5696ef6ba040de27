// Ends: the row of one.
ghost use Rattle.std.specs.Prelude.{◌≡◌, ◌≤◌, ◌<◌, length, IfSome};
ghost use Rattle.std.specs.Option.{unwrap_or};
ghost use Rattle.base.specs.Back.{end_count};
ghost use Rattle.rules.specs.02-Limits.{limits};
ghost use Rattle.rules.specs.07-Picture.{base_length};
ghost use Rattle.rules.specs.Read.{read_side};
ghost use Rattle.rows.specs.Decides.{Decides};
ghost use Rattle.base.specs.Tables.{InOrder, by_end};
ghost use Rattle.base.specs.Stored.{Stored};
ghost use Rattle.lookup.specs.Found.{EndAt, EndFound, EndPlace};

use base::Base;

// Whether row i is one of the n ends: that of link type l, on that side, at object type o, in SDS d.
fn is_end(base: &[u8], n: usize, i: usize, d: usize, l: usize, side: usize, o: usize) -> bool
    requires { (length base.now ≡ base_length) × (n ≤ limits.ends) }
    ensures { Decides (EndAt base.now n i d l side o) result }
{
    if n <= i {
        return false;
    }
    base::end_sds(base, i) == d
        && base::end_link(base, i) == l
        && base::end_side(base, i) == side
        && base::end_object(base, i) == o
}

// The row of that end, if one of the n ends is it. Row `near` is looked at first; then by halving.
pub fn end_near(
    base: &[u8],
    n: usize,
    near: usize,
    d: usize,
    l: usize,
    side: usize,
    o: usize,
) -> Option<usize>
    requires base_len { (length base.now ≡ base_length) × (n ≤ limits.ends) }
    requires d_bound { (d < 256) × ((l < 256) × ((side < 256) × (o < 256))) }
    requires in_order { InOrder by_end base.now n }
    ensures found { EndFound base.now n d l side o (unwrap_or result n) }
    ensures below { IfSome result (λ i. i < n) }
{
    if is_end(base, n, near, d, l, side, o) {
        return Some(near);
    }
    let key = [d as u8, l as u8, side as u8, o as u8];
    let at = rows::table::place(base, Base::ENDS_AT, n, &key, 0);
    if is_end(base, n, at, d, l, side, o) {
        return Some(at);
    }
    None
}

// The row of that end. Sides are 0 origin, 1 destination.
pub fn end_row(base: &[u8], d: usize, l: usize, side: usize, o: usize) -> Option<usize>
    requires stored { Stored base.now }
    requires d_bound { (d < 256) × ((l < 256) × ((side < 2) × (o < 256))) }
    ensures place { EndPlace base.now d l (read_side side) o (unwrap_or result (end_count base.now)) }
    ensures below { IfSome result (λ i. i < end_count base.now) }
{
    let n = base::used::end_count(base);
    end_near(base, n, n, d, l, side, o)
}
