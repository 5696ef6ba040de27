// The commands that only ask.
ghost use Rattle.std.specs.Prelude.{◌≡◌, ◌≤◌, length};
ghost use Rattle.rules.specs.03-Names.{names_in};
ghost use Rattle.rules.specs.07-Picture.{base_length};
ghost use Rattle.rules.specs.14-Run.{obey_desc, obey_depth};
ghost use Rattle.run_reply.specs.Reply.{Says};

use rules::{Answer, Done};
use run_command::parts;

// The count and the list.
pub fn desc(base: &[u8], line: &[u8], out: &mut [u8]) -> usize
    requires { (length base.now ≡ base_length) × (4096 ≤ length out.old) }
    ensures { Says (obey_desc (names_in line.now)) base.now base.now out.old out.new result }
{
    let schema = parts::alone(parts::sds(base, line, 1));
    let t = match ask::find(base, &schema, parts::word(line, 2)) {
        Ok(Done(t, _, _)) => t,
        Err(refused) => return run_print::number(out, 0, refused.number()),
    };
    let mut list = [0u8; 256];
    let answer = Answer::from(ask::scan_object(base, &schema, t, 1, &mut list));
    let end = run_print::answer(out, answer.no, answer.one);
    if answer.no != 0 {
        return end;
    }
    run_print::numbers(out, end, &list, answer.one)
}

pub fn depth(base: &[u8], line: &[u8], out: &mut [u8]) -> usize
    requires { (length base.now ≡ base_length) × (4096 ≤ length out.old) }
    ensures { Says (obey_depth (names_in line.now)) base.now base.now out.old out.new result }
{
    let schema = parts::alone(parts::sds(base, line, 1));
    let t = match ask::find(base, &schema, parts::word(line, 2)) {
        Ok(Done(t, _, _)) => t,
        Err(refused) => return run_print::number(out, 0, refused.number()),
    };
    let answer = Answer::from(ask::depth(base, &schema, t));
    run_print::answer(out, answer.no, answer.one)
}
