// The ends, in one pass: their order, their sides, the types that their SDS holds, and their mirrors. The mirror of an end is of the reverse
// of its link type, on the other side. Of a pair of link types the one with the higher number has its mirrors behind it, and they are looked
// for among the rows passed; what such a mirror was asked of its types need not be asked again, for a type whose reverse is a link type is
// one too, in the same SDSs. Those of the lower one lie ahead and are not looked for: no two ends have one mirror, so where there are as
// many ends of lower types as of higher ones, none of them is left over.
#![tactic(auto)]

ghost use Rattle.std.specs.Prelude.{◌≡◌, ◌+◌, ◌≤◌, ◌<◌, length};
ghost use Rattle.rules.specs.02-Limits.{limits};
ghost use Rattle.rules.specs.07-Picture.{base_length};
ghost use Rattle.rows.specs.Rows.{Halved};
ghost use Rattle.rows.specs.Decides.{Decides};
ghost use Rattle.base.specs.Tables.{InOrder, by_end, ends};
ghost use Rattle.check_held.specs.Held.{HeldBy};
ghost use Rattle.check_held.specs.Fine.{Shown, EndsFine};
ghost use Rattle.check_ends.specs.Ends.{link_byte, row_number, Small, RowPast, Reached, LinkFine, ObjectFine, First, Pair, Last, Passed};
ghost use Rattle.check_ends.specs.Ends.{weight_of};

use base::Base;
use rules::Limits;

// Where the mirrors of a group's ends stand. Where they stand behind, the number of a mirror is `back` below that of its end, and the next
// one is most often at `near`, past the one found last.
#[derive(Clone, Copy)]
pub enum Mirrors {
    Nowhere,
    Ahead,
    Behind { back: usize, near: usize },
}

// The group of an end: those of one SDS, link type and side. `top` is the highest number that one of them could have.
#[derive(Clone, Copy)]
pub struct Group {
    pub top: usize,
    pub mirrors: Mirrors,
}

// What an end counts: those whose mirrors stand ahead against those whose mirrors stand behind.
fn weight(mirrors: Mirrors) -> isize
    ensures { result ≡ weight_of mirrors }
{
    match mirrors {
        Mirrors::Nowhere => 0,
        Mirrors::Ahead => 1,
        Mirrors::Behind { .. } => -1,
    }
}

// Whether the bytes of a row are in their bounds, by its number: the compiler makes one test of the four.
fn is_small(number: usize) -> bool
    ensures { Decides (Small number) result }
{
    (number / 16777216 < Limits::SDSS)
        & (number / 65536 % 256 < Limits::TYPES)
        & (number / 256 % 256 < 2)
        & (number % 256 < Limits::TYPES)
}

// Whether SDS d holds type t. Both are known to be in their bounds, which `check_held::is_held` tests.
fn is_held(held: &[u16], d: usize, t: usize) -> bool
    requires held_len { (length held.now ≡ limits.types) × (d < limits.sdss) }
    requires t_lt_types { t < limits.types }
    ensures { HeldBy held.now d t result }
{
    (held[t] >> d) & 1 == 1
}

// Whether row i is one of the n rows and has this number.
fn is_row(base: &[u8], n: usize, i: usize, number: usize) -> bool
    requires { (length base.now ≡ base_length) × (n ≤ limits.ends) }
    ensures { Decides ((i < n) × (row_number base.now i ≡ number)) result }
{
    if n <= i {
        return false;
    }
    base::order::end_number(base, i) == number
}

// The row past the one of this number among the first n, which rise. Looked for at `far`, then by halving.
fn past_far(base: &[u8], n: usize, far: usize, number: usize) -> Option<usize>
    requires base_len { (length base.now ≡ base_length) × (n ≤ limits.ends) }
    requires number_bound { number < 4294967296 }
    requires in_order { InOrder by_end base.now n }
    ensures { RowPast base.now n number result }
{
    if is_row(base, n, far, number) {
        return Some(far + 1);
    }
    let sds = number / 16777216;
    let link = number / 65536 % 256;
    let side = number / 256 % 256;
    let row = lookup::ends::end_near(base, n, n, sds, link, side, number % 256)?;
    Some(row + 1)
}

// The row past the mirror of this number, which stands behind row i: near, or 256 rows off, which a hint does not tell, or found by halving.
fn behind(base: &[u8], i: usize, near: usize, mirror: usize) -> Option<usize>
    requires reached { Reached base.now i }
    requires near_bound { near ≤ i }
    requires mirror_bound { mirror < 4294967296 }
    ensures { RowPast base.now (i + 1) mirror result }
{
    if base::order::end_number(base, near) == mirror {
        return Some(near + 1);
    }
    past_far(base, i + 1, (near + 256) % Limits::ENDS, mirror)
}

// Whether the object type of row i is one, and its SDS holds it.
fn object_fine(base: &[u8], i: usize, held: &[u16]) -> bool
    requires reached { (Reached base.now i) × (Shown base.now held.now) }
    ensures { Decides (ObjectFine base.now i) result }
{
    let o = base::end_object(base, i);
    if !is_held(held, base::end_sds(base, i), o) {
        return false;
    }
    base::kind(base, o) == Base::OBJECT
}

// Whether the link type of row i is one, and its SDS holds it.
fn link_fine(base: &[u8], i: usize, link: usize, held: &[u16]) -> bool
    requires reached { (Reached base.now i) × (Shown base.now held.now) }
    requires link_value { link ≡ link_byte base.now i }
    ensures { Decides (LinkFine base.now i) result }
{
    if base::kind(base, link) != Base::LINK {
        return false;
    }
    is_held(held, base::end_sds(base, i), link)
}

// The group that begins with row i, of no designation. Where its mirrors stand ahead, its link type is asked, and it leaves the row, without
// its highest bit, at a place that is the same for theirs: a hint, and nothing else. They begin to look at the last row that it could be,
// up to their own.
fn pair(
    base: &[u8],
    i: usize,
    number: usize,
    link: usize,
    held: &[u16],
    starts: &mut [u8],
) -> Option<Group>
    requires reached { (Reached base.now i) × (Shown base.now held.now) }
    requires number_value { (number ≡ row_number base.now i) × (Pair base.now i link) }
    requires starts_len { length starts.old ≡ limits.types }
    ensures { First base.now i result }
{
    let side = base::end_side(base, i);
    let reverse = base::reverse(base, link);
    let place = if side == 0 { link } else { reverse };
    let top = number - number % 256 + 255;
    if reverse < link {
        let hint = usize::from(starts[place]);
        let mirrors = Mirrors::Behind {
            back: (link - reverse) * 65536 + side * 512 - 256,
            near: i.saturating_sub((i + 256 - hint) % 256),
        };
        return Some(Group { top, mirrors });
    }
    if !link_fine(base, i, link, held) {
        return None;
    }
    starts[place] = (i % 256) as u8;
    let mirrors = Mirrors::Ahead;
    Some(Group { top, mirrors })
}

// The group that begins with row i, if its link type is fine or a mirror would tell.
fn first(base: &[u8], i: usize, number: usize, held: &[u16], starts: &mut [u8]) -> Option<Group>
    requires reached { (Reached base.now i) × (Shown base.now held.now) }
    requires number_value { number ≡ row_number base.now i }
    requires starts_len { length starts.old ≡ limits.types }
    ensures { First base.now i result }
{
    let link = base::end_link(base, i);
    if base::value(base, link) != Base::DESIGNATION {
        return pair(base, i, number, link, held, starts);
    }
    if !link_fine(base, i, link, held) {
        return None;
    }
    let top = number - number % 256 + 255;
    let mirrors = Mirrors::Nowhere;
    Some(Group { top, mirrors })
}

// The group that row i is of, before it is passed: the last one, or another that begins with it.
fn begun(
    base: &[u8],
    i: usize,
    number: usize,
    last: Group,
    held: &[u16],
    starts: &mut [u8],
) -> Option<Group>
    requires reached { (Reached base.now i) × (Shown base.now held.now) }
    requires number_value { (number ≡ row_number base.now i) × (Last base.now i number last) }
    requires starts_len { length starts.old ≡ limits.types }
    ensures { First base.now i result }
{
    if number <= last.top {
        return Some(last);
    }
    first(base, i, number, held, starts)
}

// The group with row i, if the row is fine: where its mirror stands behind, it is there; else the end stands for its own. Bytes of the row
// are read again: so they need not be taken out of its number.
fn group_at(
    base: &[u8],
    i: usize,
    number: usize,
    last: Group,
    held: &[u16],
    starts: &mut [u8],
) -> Option<Group>
    requires reached { (Reached base.now i) × (Shown base.now held.now) }
    requires number_value { (number ≡ row_number base.now i) × (Last base.now i number last) }
    requires starts_len { length starts.old ≡ limits.types }
    ensures { Passed base.now i result }
{
    let group = begun(base, i, number, last, held, starts)?;
    let Mirrors::Behind { back, near } = group.mirrors else {
        return object_fine(base, i, held).then_some(group);
    };
    let near = behind(base, i, near, number - back)?;
    let mirrors = Mirrors::Behind { back, near };
    Some(Group { mirrors, ..group })
}

// Whether the n rows are ends as they would be written, in order and with nothing behind them, and each is of a link type and an object
// type that its SDS holds, and has its mirror. The pass ends where the numbers rise no more: behind the last row is none, or, past all that
// there is room for, the first one again. A row's number is read in the turn before: it is loaded at once there, and byte by byte where it
// is taken apart (a `for` over the n rows, which reads it in its own turn, takes 12 % more instructions on the full base).
pub fn ends_fine(base: &[u8], n: usize, held: &[u16], starts: &mut [u8]) -> bool
    requires shown { Shown base.now held.now }
    requires halved { Halved base.now ends.start ends.width limits.ends n }
    requires starts_len { length starts.old ≡ limits.types }
    ensures { Decides (EndsFine base.now) result }
{
    if !base::used::no_end_from(base, n) {
        return false;
    }
    // Before the first one: no row is of it.
    let mut group = Group {
        top: 0,
        mirrors: Mirrors::Nowhere,
    };
    let mut balance = 0;
    let mut before = 0;
    let mut number = base::order::end_number(base, 0);
    let mut i = 0;
    while before < number {
        if !is_small(number) {
            return false;
        }
        let Some(passed) = group_at(base, i, number, group, held, starts) else {
            return false;
        };
        group = passed;
        balance += weight(group.mirrors);
        before = number;
        i += 1;
        number = base::order::end_number(base, i % Limits::ENDS);
    }
    (i == n) & (balance == 0)
}
