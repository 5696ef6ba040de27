// The call that a line begins with.
use super::{asks, changes, files, read};
use rules::{Done, Refused};

fn change(base: &mut [u8], line: &[u8]) -> Option<Result<Done, Refused>> {
    if let Some(call) = changes::with_one_name(base, line) {
        return Some(call);
    }
    if let Some(call) = changes::with_two_names(base, line) {
        return Some(call);
    }
    changes::other(base, line)
}

// Its answer; none where the line begins with no call.
pub fn call(base: &mut [u8], line: &[u8], out: &mut [u8]) -> Option<Result<Done, Refused>> {
    if let Some(call) = change(base, line) {
        return Some(call);
    }
    if let Some(call) = files::any(base, line, out) {
        return Some(call);
    }
    if let Some(call) = asks::with_type(base, line, out) {
        return Some(call);
    }
    asks::other(base, line, out)
}

// Whether the call puts down types.
pub fn lists(line: &[u8]) -> bool {
    if read::begins(line, b"scan_object") {
        return true;
    }
    if read::begins(line, b"scan_link") {
        return true;
    }
    read::begins(line, b"profile")
}
