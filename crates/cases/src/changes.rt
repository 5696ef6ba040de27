// The changing calls of 01 by a line: the call's name and its inputs, in the order of the header. Calls with inputs alike are read alike. A line
// that begins with none of them is no call.
use super::read;
use rules::{Done, Refused};

fn new_sds(base: &mut [u8], line: &[u8]) -> Option<Result<Done, Refused>> {
    Some(change_sdss::new_sds(base, read::name_at(line, 1)))
}

fn new_pair(base: &mut [u8], line: &[u8]) -> Option<Result<Done, Refused>> {
    Some(change_pairs::new_pair(
        base,
        read::number_at(line, 1),
        read::name_at(line, 2),
        read::name_at(line, 3),
        read::number_at(line, 4),
        read::number_at(line, 5),
    ))
}

fn import(base: &mut [u8], line: &[u8]) -> Option<Result<Done, Refused>> {
    Some(change_imports::import(
        base,
        read::number_at(line, 1),
        read::number_at(line, 2),
        read::name_at(line, 3),
        read::name_at(line, 4),
        read::name_at(line, 5),
    ))
}

// By the number of a type.

fn rename_number(base: &mut [u8], line: &[u8]) -> Option<Result<Done, Refused>> {
    Some(change_presences::rename::rename_number(
        base,
        read::number_at(line, 1),
        read::number_at(line, 2),
        read::name_at(line, 3),
    ))
}

fn remove_number(base: &mut [u8], line: &[u8]) -> Option<Result<Done, Refused>> {
    Some(change_presences::remove::remove_number(
        base,
        read::number_at(line, 1),
        read::number_at(line, 2),
    ))
}

pub fn other(base: &mut [u8], line: &[u8]) -> Option<Result<Done, Refused>> {
    if read::begins(line, b"fresh") {
        return Some(change_sdss::fresh(base));
    }
    if read::begins(line, b"new_sds") {
        return new_sds(base, line);
    }
    if read::begins(line, b"remove_sds") {
        return Some(change_sdss::remove_sds(base, read::number_at(line, 1)));
    }
    if read::begins(line, b"new_pair") {
        return new_pair(base, line);
    }
    if read::begins(line, b"import") {
        return import(base, line);
    }
    if read::begins(line, b"rename_number") {
        return rename_number(base, line);
    }
    if read::begins(line, b"remove_number") {
        return remove_number(base, line);
    }
    None
}

// What stands behind an SDS and a name: a value kind, the parents, or two sets of modes.
fn one_name(
    base: &mut [u8],
    call: &[u8],
    sds: usize,
    name: &[u8],
    rest: &[u8],
) -> Option<Result<Done, Refused>> {
    if names::is_equal(call, b"new_object") {
        return Some(change_objects::new_object(base, sds, name, rest));
    }
    if names::is_equal(call, b"new_attribute") {
        return Some(change_types::new_attribute(base, sds, name, read::number_at(rest, 0)));
    }
    if names::is_equal(call, b"new_designation") {
        return Some(change_types::new_designation(base, sds, name));
    }
    if names::is_equal(call, b"remove_type") {
        return Some(change_presences::remove::remove_type(base, sds, name));
    }
    if names::is_equal(call, b"set_modes") {
        return Some(change_presences::modes::set_modes(
            base,
            sds,
            name,
            read::number_at(rest, 0),
            read::number_at(rest, 1),
        ));
    }
    None
}

pub fn with_one_name(base: &mut [u8], line: &[u8]) -> Option<Result<Done, Refused>> {
    one_name(
        base,
        read::word_at(line, 0),
        read::number_at(line, 1),
        read::name_at(line, 2),
        read::rest_at(line, 3),
    )
}

fn two_names(
    base: &mut [u8],
    call: &[u8],
    sds: usize,
    name: &[u8],
    second: &[u8],
) -> Option<Result<Done, Refused>> {
    if names::is_equal(call, b"apply") {
        return Some(change_applications::apply(base, sds, name, second));
    }
    if names::is_equal(call, b"unapply") {
        return Some(change_applications::unapply(base, sds, name, second));
    }
    if names::is_equal(call, b"apply_link") {
        return Some(change_ends::apply_link(base, sds, name, second));
    }
    if names::is_equal(call, b"unapply_link") {
        return Some(change_ends::unapply_link(base, sds, name, second));
    }
    if names::is_equal(call, b"add_destination") {
        return Some(change_ends::add_destination(base, sds, name, second));
    }
    if names::is_equal(call, b"remove_destination") {
        return Some(change_ends::remove_destination(base, sds, name, second));
    }
    if names::is_equal(call, b"rename") {
        return Some(change_presences::rename::rename(base, sds, name, second));
    }
    None
}

pub fn with_two_names(base: &mut [u8], line: &[u8]) -> Option<Result<Done, Refused>> {
    two_names(
        base,
        read::word_at(line, 0),
        read::number_at(line, 1),
        read::name_at(line, 2),
        read::name_at(line, 3),
    )
}
