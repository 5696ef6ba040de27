// Sets put down in the caller's output as lists. Whether there is room is decided before a byte is written.
ghost use Rattle.rules.specs.05-Descent.{members};
ghost use Rattle.rules.specs.09-Refusals.{answered};
ghost use Rattle.rules.specs.12-Contracts.{room};
ghost use Rattle.type_set.specs.Set.{has};
ghost use Rattle.ask_scans.specs.Lists.{listing, three_listing, Puts};

use rules::{Done, Refused};
use type_set::TypeSet;

pub fn put(set: TypeSet, out: &mut [u8]) -> Result<Done, Refused>
    ensures { Puts (listing (members (has set)) (room out.old)) (answered result) out.old out.new }
{
    let n = set.count();
    if out.len() / 2 < n {
        return Err(Refused::ShortOutput);
    }
    set.put_down(out);
    Ok(Done(n, 0, 0))
}

// Each list is lent what the last one left of the output.
pub fn put_three(
    first: TypeSet,
    second: TypeSet,
    third: TypeSet,
    out: &mut [u8],
) -> Result<Done, Refused>
    ensures { Puts (three_listing (members (has first)) (members (has second)) (members (has third)) (room out.old)) (answered result) out.old
        out.new }
{
    let l = first.count();
    let m = second.count();
    let n = third.count();
    if out.len() / 2 < l + m + n {
        return Err(Refused::ShortOutput);
    }
    first.put_down(out);
    let at = l * 2;
    second.put_down(&mut out[at..]);
    let end = at + m * 2;
    third.put_down(&mut out[end..]);
    Ok(Done(l, m, n))
}
