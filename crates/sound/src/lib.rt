// The check of soundness: exactly the pictures of good schemas. Each part of it decides some fields of `Good`, and what they need of
// the bytes; every call of the keeper begins with it.
#![tactic(auto)]

ghost use Rattle.rules.specs.07-Picture.{Sound};
ghost use Rattle.rows.specs.Decides.{Decides};

use base::Base;
use check_presences::Modes;
use check_types::Numbering;
use rules::Limits;

pub fn is_sound(base: &[u8]) -> bool
    ensures { Decides (Sound base.now) result }
{
    if base.len() != Base::LENGTH {
        return false;
    }
    if !check_sdss::sdss_fine(base) {
        return false;
    }
    // Found by halving: it is right if nothing stands behind n rows that are fine.
    let n = base::used::presences_halved(base);
    if !check_presences::system_first(base, n) {
        return false;
    }
    if !lookup::sdss::is_sds(base, 0) {
        return false;
    }
    if !base::used::no_presence_from(base, n) {
        return false;
    }
    let Some(modes) = check_presences::fields_told(base, n) else {
        return false;
    };
    let mut held = [0u16; Limits::TYPES];
    if !check_presences::rows_fine(base, n, &mut held) {
        return false;
    }
    let Some(numbering) = check_types::types_fine(base, &held) else {
        return false;
    };
    // A byte for each type: the way up, and then where groups of ends start.
    let mut bytes = [0u8; Limits::TYPES];
    if !graph::is_acyclic(base, numbering == Numbering::Below, &mut bytes) {
        return false;
    }
    if !check_applications::applications_fine(base, base::used::applications_halved(base), &held) {
        return false;
    }
    if !check_ends::ends_fine(base, base::used::ends_halved(base), &held, &mut bytes) {
        return false;
    }
    // All presences have all modes.
    if modes == Modes::All {
        return true;
    }
    // What the SDSs hold is no longer asked: the words are used again.
    held = [0u16; Limits::TYPES];
    check_modes::pairs_fine(base, n, &mut held)
}
