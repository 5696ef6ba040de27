// The asking calls of 01 by a line, as the changing ones.
use super::read;
use rules::{Done, Refused};

// Of a type under a list of SDSs: a code, where the call has one, and the output, which only a scan has here.
fn of_type(
    base: &[u8],
    call: &[u8],
    list: &[u8],
    t: usize,
    code: usize,
    out: &mut [u8],
) -> Option<Result<Done, Refused>> {
    if names::is_equal(call, b"scan_object") {
        return Some(ask::scan_object(base, list, t, code, out));
    }
    if names::is_equal(call, b"scan_link") {
        return Some(ask::scan_link(base, list, t, code, out));
    }
    if names::is_equal(call, b"depth") {
        return Some(ask::depth(base, list, t));
    }
    if names::is_equal(call, b"descendant_set") {
        return Some(ask::descendant_set(base, list, t));
    }
    if names::is_equal(call, b"modes") {
        return Some(ask::modes(base, list, t));
    }
    None
}

pub fn with_type(base: &[u8], line: &[u8], out: &mut [u8]) -> Option<Result<Done, Refused>> {
    let mut list = [0u8; 20];
    let listed = read::schema_at(line, 1, &mut list);
    let room = read::room_at(line, 4, out);
    of_type(
        base,
        read::word_at(line, 0),
        &list[..listed],
        read::number_at(line, 2),
        read::number_at(line, 3),
        &mut out[..room],
    )
}

fn profile(base: &[u8], line: &[u8], out: &mut [u8]) -> Option<Result<Done, Refused>> {
    let mut list = [0u8; 20];
    let listed = read::schema_at(line, 1, &mut list);
    let room = read::room_at(line, 3, out);
    Some(ask::profile(
        base,
        &list[..listed],
        read::number_at(line, 2),
        &mut out[..room],
    ))
}

fn find(base: &[u8], line: &[u8]) -> Option<Result<Done, Refused>> {
    let mut list = [0u8; 20];
    let listed = read::schema_at(line, 1, &mut list);
    Some(ask::find(base, &list[..listed], read::name_at(line, 2)))
}

pub fn other(base: &[u8], line: &[u8], out: &mut [u8]) -> Option<Result<Done, Refused>> {
    if read::begins(line, b"profile") {
        return profile(base, line, out);
    }
    if read::begins(line, b"find") {
        return find(base, line);
    }
    if read::begins(line, b"name") {
        return Some(ask::name_place(base, read::number_at(line, 1), read::number_at(line, 2)));
    }
    None
}
