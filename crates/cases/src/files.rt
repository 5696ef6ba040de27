// The exchange file by a line: written with so much room, or read from the bytes that the line gives.
use super::read;
use rules::{Done, Refused};

fn write_file(base: &[u8], line: &[u8], out: &mut [u8]) -> Option<Result<Done, Refused>> {
    let room = read::room_at(line, 1, out);
    Some(file::write_file(base, &mut out[..room]))
}

// A line has no room for as many bytes as are kept here.
fn read_file(base: &mut [u8], line: &[u8]) -> Option<Result<Done, Refused>> {
    let mut bytes = [0u8; 64];
    let n = read::bytes_at(line, 1, &mut bytes);
    if 64 < n {
        return None;
    }
    Some(file::read_file(base, &bytes[..n]))
}

pub fn any(base: &mut [u8], line: &[u8], out: &mut [u8]) -> Option<Result<Done, Refused>> {
    if read::begins(line, b"write_file") {
        return write_file(base, line, out);
    }
    if read::begins(line, b"read_file") {
        return read_file(base, line);
    }
    None
}
