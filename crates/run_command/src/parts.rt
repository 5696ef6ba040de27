// The words of a line, and the SDSs that they name.
ghost use Rattle.std.specs.Prelude.{◌≡◌, [], ◌∷◌, ◌≤◌, length};
ghost use Rattle.rules.specs.02-Limits.{limits};
ghost use Rattle.rules.specs.03-Names.{names_in};
ghost use Rattle.rules.specs.07-Picture.{base_length};
ghost use Rattle.rules.specs.14-Run.{sds_word};
ghost use Rattle.base.specs.Back.{schema_of};

use super::called;
pub use run_words::{word, words_from};

// The SDS that word i names, 16 where there is none.
pub fn sds(base: &[u8], line: &[u8], i: usize) -> usize
    requires { length base.now ≡ base_length }
    ensures { (result ≡ sds_word (names_in line.now) i (schema_of base.now)) × (result ≤ 16) }
{
    called::sds_called(base, word(line, i))
}

// The working schema of one SDS.
pub fn alone(d: usize) -> [u8; 1]
    requires { d ≤ limits.sdss }
    ensures { result ≡ d ∷ [] }
{
    [d as u8]
}
