// The modes of a presence, and of that of its type's reverse.
ghost use Rattle.std.specs.Prelude.{◌≡◌, map, true, ◌||◌, ◌<◌, length};
ghost use Rattle.rules.specs.01-Lists.{rising};
ghost use Rattle.rules.specs.02-Limits.{limits};
ghost use Rattle.rules.specs.04-Schema.{with_presences};
ghost use Rattle.rules.specs.06-Good.{presence_before};
ghost use Rattle.rules.specs.07-Picture.{Sound, base_length};
ghost use Rattle.rules.specs.09-Refusals.{unknown_mode, answered};
ghost use Rattle.rules.specs.10-Changes.{set_modes};
ghost use Rattle.rules.specs.12-Contracts.{Kept};
ghost use Rattle.base.specs.Back.{schema_of, presence_count, presence_shown};
ghost use Rattle.base.specs.Stored.{Stored, Shows};
ghost use Rattle.change_presences.specs.Modes.{of_either, reset, changed_at};

use base::Base;
use rules::{Done, Refused};

// The two sets of modes of a presence.
#[derive(Clone, Copy)]
struct Modes {
    usage: usize,
    definition: usize,
}

impl Modes {
    // Whether one of the two is no set of modes.
    fn is_unknown(self) -> bool
        ensures { result ≡ unknown_mode self.usage || unknown_mode self.definition }
    {
        self.usage > Base::ALL_MODES || self.definition > Base::ALL_MODES
    }
}

// Whether row i says that type t or its reverse is in SDS d.
fn is_of_either(base: &[u8], i: usize, d: usize, t: usize, reverse: Option<usize>) -> bool
    requires { (length base.now ≡ base_length) × (i < limits.presences) }
    ensures { result ≡ of_either d t reverse (presence_shown base.now i) }
{
    if base::presence_sds(base, i) != d {
        return false;
    }
    in_use::is_either(base::presence_type(base, i), t, reverse)
}

// Row i gets these modes if it says so, with which the rows still rise.
fn write_if(base: &mut [u8], i: usize, d: usize, t: usize, reverse: Option<usize>, modes: Modes)
    requires stored { Stored base.old }
    requires i_bound { (i < presence_count base.old) × (d ≡ 0 → ⊥) }
    requires modes_bound { (modes.usage < 256) × (modes.definition < 256) }
    requires base_value { let ps = (schema_of base.old).presences in
        rising presence_before (changed_at (reset d t reverse modes.usage modes.definition) i ps) ≡ true }
    ensures { let s = schema_of base.old in
        Shows base.new (with_presences s (changed_at (reset d t reverse modes.usage modes.definition) i s.presences)) }
{
    if is_of_either(base, i, d, t, reverse) {
        edit::write_modes(base, i, modes.usage, modes.definition);
    }
}

// Every row that says so gets them.
fn write_all(base: &mut [u8], d: usize, t: usize, reverse: Option<usize>, modes: Modes)
    requires sound { Sound base.old × (d ≡ 0 → ⊥) }
    requires modes_bound { (modes.usage < 256) × (modes.definition < 256) }
    ensures { let s = schema_of base.old in
        Shows base.new (with_presences s (map (reset d t reverse modes.usage modes.definition) s.presences)) }
{
    for i in 0..lookup::presences::count(base) {
        write_if(base, i, d, t, reverse, modes);
    }
}

// A presence gets these two sets of modes, and that of its type's reverse too.
pub fn set_modes(
    base: &mut [u8],
    sds: usize,
    name: &[u8],
    usage: usize,
    definition: usize,
) -> Result<Done, Refused>
    ensures { Kept base.old (set_modes sds name.now usage definition) (answered result) base.new }
{
    conditions::aimed::aimed(base, sds, name)?;
    let modes = Modes { usage, definition };
    if modes.is_unknown() {
        return Err(Refused::UnknownMode);
    }
    let t = conditions::aimed::named(base, sds, name)?;
    let reverse = conditions::reverse_of(base, t);
    write_all(base, sds, t, reverse, modes);
    Ok(Done(0, 0, 0))
}
