// The types, in one pass: each row is as its kind is written, the types that it names are as its kind asks, and the SDSs that hold it
// hold them too.
#![tactic(auto)]

ghost use Rattle.std.specs.Prelude.{◌≡◌, ℕ, ◌+◌, ◌≤◌, ◌<◌, true, length, replicate};
ghost use Rattle.rules.specs.02-Limits.{limits};
ghost use Rattle.rules.specs.07-Picture.{base_length, type_width};
ghost use Rattle.rows.specs.Rows.{part};
ghost use Rattle.rows.specs.Decides.{Decides};
ghost use Rattle.base.specs.Rows.{type_at};
ghost use Rattle.lookup.proofs.KindBytes.{parent_byte};
ghost use Rattle.check_held.specs.Held.{Holds};
ghost use Rattle.check_types.specs.OneType.{sdss_of, Front, Places, ParentFine, ParentsBefore, ObjectFront, ObjectFine};
ghost use Rattle.check_types.specs.OneType.{LinkFront, LinkFine, Told, TypeFine, RootFine, Unheld, UnheldFrom, TypesTold};

use base::Base;
use rules::Limits;

// Where the parents of fine types are numbered: each below its child, or anywhere.
#[derive(Clone, Copy, PartialEq, Eq)]
pub enum Numbering {
    Below,
    Anywhere,
}

// ---- a row in two numbers, the first byte lowest: each is one load

// Kind, value, reverse and how many parents.
fn front(base: &[u8], t: usize) -> usize
    requires { (length base.now ≡ base_length) × (t < limits.types) }
    ensures { Front base.now t result }
{
    base::kind(base, t)
        + base::value(base, t) * 0x100
        + base::reverse(base, t) * 0x1_0000
        + base::parent_count(base, t) * 0x100_0000
}

// The four places for parents.
fn places(base: &[u8], t: usize) -> usize
    requires { (length base.now ≡ base_length) × (t < limits.types) }
    ensures { Places base.now t result }
{
    base::parent(base, t, 0)
        + base::parent(base, t, 1) * 0x100
        + base::parent(base, t, 2) * 0x1_0000
        + base::parent(base, t, 3) * 0x100_0000
}

// 0 exactly where the row is zero.
fn row_bits(base: &[u8], t: usize) -> usize
    requires { (length base.now ≡ base_length) × (t < limits.types) }
    ensures zero { result ≡ 0 → part base.now (type_at t) type_width ≡ replicate type_width 0 }
    ensures unused { part base.now (type_at t) type_width ≡ replicate type_width 0 → result ≡ 0 }
{
    front(base, t) | places(base, t)
}

// What a row begins with: kind and value of an attribute type of the last value kind, and of two link types.
const LAST_VALUE_KIND: usize = Base::ATTRIBUTE + 5 * 0x100;

const IMPLICIT: usize = Base::LINK + Base::IMPLICIT * 0x100;

const DESIGNATION: usize = Base::LINK + Base::DESIGNATION * 0x100;

// ---- object types

// An object type that is in these SDSs.
fn parent_fine(base: &[u8], parent: usize, sdss: u16, held: &[u16]) -> bool
    requires { (length base.now ≡ base_length) × ((length held.now ≡ limits.types) × (parent < limits.types)) }
    ensures { Decides (ParentFine base.now held.now sdss parent) result }
{
    if base::kind(base, parent) != Base::OBJECT {
        return false;
    }
    check_held::is_within(sdss, held[parent])
}

// The parents before place n, where `last` stands. They are gone through from behind, so that the one test for their order bounds them too.
fn parents_fine(base: &[u8], t: usize, n: usize, last: usize, sdss: u16, held: &[u16]) -> bool
    requires base_len { (length base.now ≡ base_length) × ((length held.now ≡ limits.types) × (t < limits.types)) }
    requires n_bound { (n < 4) × ((last < limits.types) × (last ≡ parent_byte base.now t n)) }
    ensures { Decides (ParentsBefore base.now held.now t sdss n) result }
{
    let mut most = last;
    for i in (0..n).rev() {
        let parent = base::parent(base, t, i);
        if most <= parent {
            return false;
        }
        if !parent_fine(base, parent, sdss, held) {
            return false;
        }
        most = parent;
    }
    true
}

// An object type with n parents and one more. The last with the places behind it is one number, which is small where they are zero.
fn object_fine(base: &[u8], t: usize, n: usize, sdss: u16, held: &[u16]) -> Option<Numbering>
    requires base_len { (length base.now ≡ base_length) × ((length held.now ≡ limits.types) × ((0 < t) × (t < limits.types))) }
    requires n_bound { (n < 4) × ObjectFront base.now t n }
    ensures { Told (ObjectFine base.now held.now t sdss) base.now t result }
{
    let last = places(base, t) >> (n * 8);
    if last >= Limits::TYPES {
        return None;
    }
    if !parent_fine(base, last, sdss, held) {
        return None;
    }
    if !parents_fine(base, t, n, last, sdss, held) {
        return None;
    }
    if t <= last {
        return Some(Numbering::Anywhere);
    }
    Some(Numbering::Below)
}

// ---- link types

// A link type with no parents. That its reverse is a link type and no designation is told where that is looked at: only these have a reverse.
fn link_fine(base: &[u8], t: usize, front: usize, sdss: u16, held: &[u16]) -> bool
    requires base_len { (length base.now ≡ base_length) × ((length held.now ≡ limits.types) × (t < limits.types)) }
    requires link_front { LinkFront base.now t front }
    ensures { Decides (LinkFine base.now held.now t sdss) result }
{
    let category = front % 0x1_0000;
    if category > IMPLICIT {
        return front == DESIGNATION;
    }
    let reverse = front / 0x1_0000;
    if reverse >= Limits::TYPES {
        return false;
    }
    if reverse == t {
        return false;
    }
    if held[reverse] != sdss {
        return false;
    }
    if base::reverse(base, reverse) != t {
        return false;
    }
    if category != IMPLICIT {
        return true;
    }
    base::value(base, reverse) != Base::IMPLICIT
}

// ---- any type

// A type that some SDS holds. The first number turned by a byte is 0x100 and how many parents where it is an object type's.
fn used_fine(base: &[u8], t: usize, sdss: u16, held: &[u16]) -> Option<Numbering>
    requires base_len { (length base.now ≡ base_length) × ((length held.now ≡ limits.types) × ((0 < t) × (t < limits.types))) }
    requires sdss_value { (sdss ≡ sdss_of held.now t) × (0 < sdss) }
    ensures { Told (TypeFine base.now held.now t) base.now t result }
{
    let front = front(base, t);
    let turned = ((front as u32) << 8) + ((front as u32) >> 24);
    if (0x101 <= turned) & (turned <= 0x104) {
        return object_fine(base, t, (turned - 0x101) as usize, sdss, held);
    }
    if places(base, t) != 0 {
        return None;
    }
    let kind = front % 0x100;
    if kind == Base::ATTRIBUTE {
        return (front <= LAST_VALUE_KIND).then_some(Numbering::Below);
    }
    if kind != Base::LINK {
        return None;
    }
    link_fine(base, t, front, sdss, held).then_some(Numbering::Below)
}

// A type that no SDS holds has to be unused: its eight bytes are told at once.
fn type_fine(base: &[u8], t: usize, held: &[u16]) -> Option<Numbering>
    requires { (length base.now ≡ base_length) × ((length held.now ≡ limits.types) × ((0 < t) × (t < limits.types))) }
    ensures { Told (TypeFine base.now held.now t) base.now t result }
{
    let sdss = held[t];
    if sdss == 0 {
        return (row_bits(base, t) == 0).then_some(Numbering::Below);
    }
    used_fine(base, t, sdss, held)
}

fn root_fine(base: &[u8], held: &[u16]) -> bool
    requires { (length base.now ≡ base_length) × (length held.now ≡ limits.types) }
    ensures { Decides (RootFine base.now held.now) result }
{
    if held[0] == 0 {
        return false;
    }
    if front(base, 0) != 1 {
        return false;
    }
    places(base, 0) == 0
}

// ---- unused types, four at once: many bases have few types, and these first

// The four types before t. Where they are not unused, each is looked at by itself.
fn four_unused(base: &[u8], t: usize, held: &[u16]) -> bool
    requires { (length base.now ≡ base_length) × ((length held.now ≡ limits.types) × ((4 ≤ t) × (t ≤ limits.types))) }
    ensures { result ≡ true → (k : ℕ) → k < t → t ≤ k + 4 → Unheld base.now held.now k }
{
    let sdss = (held[t - 1] | held[t - 2]) | (held[t - 3] | held[t - 4]);
    let last = row_bits(base, t - 1) | row_bits(base, t - 2);
    let first = row_bits(base, t - 3) | row_bits(base, t - 4);
    (sdss == 0) & ((last | first) == 0)
}

// A number past all types that are used.
fn used_end(base: &[u8], held: &[u16]) -> usize
    requires { (length base.now ≡ base_length) × (length held.now ≡ limits.types) }
    ensures { (0 < result) × ((result ≤ limits.types) × UnheldFrom base.now held.now result) }
{
    for n in (1..Limits::TYPES / 4).rev() {
        let end = n * 4 + 4;
        if !four_unused(base, end, held) {
            return end;
        }
    }
    4
}

// ---- all types

// Where the parents are numbered, if the types are fine.
pub fn types_fine(base: &[u8], held: &[u16]) -> Option<Numbering>
    requires base_len { length base.now ≡ base_length }
    requires holds { Holds base.now held.now }
    ensures { TypesTold base.now result }
{
    if !root_fine(base, held) {
        return None;
    }
    let mut numbering = Numbering::Below;
    for t in (1..used_end(base, held)).rev() {
        if type_fine(base, t, held)? == Numbering::Anywhere {
            numbering = Numbering::Anywhere;
        }
    }
    Some(numbering)
}
