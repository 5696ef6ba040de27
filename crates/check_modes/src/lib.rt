// Whether a link type and its reverse have the same modes in every SDS: in one pass over the presences, which stand by SDS, with the last
// row passed of each type in a word.
#![tactic(auto)]

ghost use Rattle.std.specs.Prelude.{◌≡◌, ◌<◌, replicate};
ghost use Rattle.rules.specs.02-Limits.{limits};
ghost use Rattle.rules.specs.Parts.{Alike};
ghost use Rattle.rows.specs.Decides.{Decides};
ghost use Rattle.base.specs.Back.{schema_of, presence_count};
ghost use Rattle.check_modes.specs.Pairs.{Fine, Keeps, Agreed};

// What an SDS and a usage are worth in a word: a set of modes is below 32.
const SDS: usize = 1024;

const USAGE: usize = 32;

// Whether row i has the modes of its type's reverse, if this was passed in its SDS: then the word is at least the SDS's, since no row
// passed is of a later one. No type has type 0 as its reverse.
fn row_agrees(base: &[u8], i: usize, words: &mut [u16]) -> bool
    requires fine { Fine base.now }
    requires i_bound { (i < presence_count base.now) × Keeps base.now i words.old }
    ensures { Agreed base.now i words.new result }
{
    let t = base::presence_type(base, i);
    let reverse = base::reverse(base, t);
    if reverse == 0 {
        return true;
    }
    let start = base::presence_sds(base, i) * SDS;
    let word = start + base::presence_usage(base, i) * USAGE + base::presence_definition(base, i);
    let other = usize::from(words[reverse]);
    words[t] = word as u16;
    other < start || other == word
}

// The n presences are all, and fine, and so are the types. The words are 0 before.
pub fn pairs_fine(base: &[u8], n: usize, words: &mut [u16]) -> bool
    requires fine { Fine base.now }
    requires n_value { n ≡ presence_count base.now }
    requires words_value { words.old ≡ replicate limits.types 0 }
    ensures { Decides (Alike (schema_of base.now).types (schema_of base.now).presences) result }
{
    for i in 0..n {
        if !row_agrees(base, i, words) {
            return false;
        }
    }
    true
}
