// The commands that change the base.
ghost use Rattle.std.specs.Prelude.{◌≡◌, ◌≤◌, length};
ghost use Rattle.rules.specs.03-Names.{names_in};
ghost use Rattle.rules.specs.07-Picture.{base_length};
ghost use Rattle.rules.specs.14-Run.{obey_sds, obey_import, obey_object, obey_remove};
ghost use Rattle.run_reply.specs.Reply.{Says};

use rules::Answer;
use run_command::parts;

pub fn sds(base: &mut [u8], line: &[u8], out: &mut [u8]) -> usize
    requires { (length base.old ≡ base_length) × (4096 ≤ length out.old) }
    ensures { Says (obey_sds (names_in line.now)) base.old base.new out.old out.new result }
{
    let answer = Answer::from(change_sdss::new_sds(base, parts::word(line, 1)));
    run_print::answer(out, answer.no, answer.one)
}

// The new names are blank.
pub fn import(base: &mut [u8], line: &[u8], out: &mut [u8]) -> usize
    requires { (length base.old ≡ base_length) × (4096 ≤ length out.old) }
    ensures { Says (obey_import (names_in line.now)) base.old base.new out.old out.new result }
{
    let target = parts::sds(base, line, 1);
    let source = parts::sds(base, line, 2);
    let name = parts::word(line, 3);
    let answer = Answer::from(change_imports::import(base, target, source, name, b"", b""));
    run_print::answer(out, answer.no, answer.one)
}

// The words behind the name are the parents.
pub fn object(base: &mut [u8], line: &[u8], out: &mut [u8]) -> usize
    requires { (length base.old ≡ base_length) × (4096 ≤ length out.old) }
    ensures { Says (obey_object (names_in line.now)) base.old base.new out.old out.new result }
{
    let d = parts::sds(base, line, 1);
    let name = parts::word(line, 2);
    let parents = parts::words_from(line, 3);
    let answer = Answer::from(change_objects::new_object(base, d, name, parents));
    run_print::answer(out, answer.no, answer.one)
}

pub fn remove(base: &mut [u8], line: &[u8], out: &mut [u8]) -> usize
    requires { (length base.old ≡ base_length) × (4096 ≤ length out.old) }
    ensures { Says (obey_remove (names_in line.now)) base.old base.new out.old out.new result }
{
    let d = parts::sds(base, line, 1);
    let answer = Answer::from(change_presences::remove::remove_type(base, d, parts::word(line, 2)));
    run_print::answer(out, answer.no, answer.one)
}
