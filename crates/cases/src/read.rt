// The call that a line begins with, and its inputs, by the words of the line.
ghost use Rattle.std.specs.Prelude.{◌≤◌, ◌<◌, ◌≡◌, length, take};

// Word i as it is, and from it to the end of the line.
pub use run_words::{word as word_at, words_from as rest_at};

// Whether the line begins with that word.
pub fn begins(line: &[u8], call: &[u8]) -> bool {
    names::is_equal(word_at(line, 0), call)
}

// Word i; - is a blank one.
pub fn name_at(line: &[u8], i: usize) -> &[u8] {
    let word = word_at(line, i);
    if names::is_equal(word, b"-") {
        return b"";
    }
    word
}

// The number that a digit or a capital letter stands for: A is 10.
fn digit(c: u8) -> usize
    ensures { result ≤ 255 }
{
    if c < b'0' {
        return 0;
    }
    if c < b'A' {
        return (c - b'0') as usize;
    }
    (c - b'A') as usize + 10
}

// The number n with a digit more; of a long one the first digits only.
fn with_digit(n: usize, c: u8) -> usize
    requires { n ≤ 1000000255 }
    ensures { result ≤ 1000000255 }
{
    if n < 100000000 {
        return n * 10 + digit(c);
    }
    n
}

// Word i as a number in decimal.
pub fn number_at(line: &[u8], i: usize) -> usize {
    let mut n = 0;
    for &c in word_at(line, i) {
        n = with_digit(n, c);
    }
    n
}

// One SDS more behind n of them, if there is room.
fn with_sds(list: &mut [u8], n: usize, c: u8) -> usize
    requires { n ≤ length list.old }
    ensures { (result ≤ length list.new) × (length list.new ≡ length list.old) }
{
    if n < list.len() {
        list[n] = digit(c) as u8;
        return n + 1;
    }
    n
}

// Word i as a list of SDSs, a digit or a capital letter for each; - is the empty list. As many as there is room for in `list`.
pub fn schema_at(line: &[u8], i: usize, list: &mut [u8]) -> usize
    ensures { (result ≤ length list.new) × (result ≡ length (take result list.new)) }
{
    let mut n = 0;
    for &c in name_at(line, i) {
        n = with_sds(list, n, c);
    }
    n
}

// What a hexadecimal digit stands for, 16 where it is none.
fn hexadecimal(c: u8) -> usize
    ensures { result ≤ 16 }
{
    if c < b'0' {
        return 16;
    }
    if c <= b'9' {
        return (c - b'0') as usize;
    }
    if c < b'a' {
        return 16;
    }
    if c <= b'f' {
        return (c - b'a') as usize + 10;
    }
    16
}

// The byte of two digits, 256 where they are none.
fn pair(digits: &[u8]) -> usize
    ensures { result ≤ 256 }
{
    if digits.len() < 2 {
        return 256;
    }
    let high = hexadecimal(digits[0]);
    let low = hexadecimal(digits[1]);
    if high == 16 {
        return 256;
    }
    if low == 16 {
        return 256;
    }
    high * 16 + low
}

// One byte more behind n of them; one more than there is room for where it is none, or does not fit.
fn with_byte(bytes: &mut [u8], n: usize, x: usize) -> usize
    requires { x ≤ 256 }
    ensures { length bytes.new ≡ length bytes.old }
{
    if x == 256 {
        return bytes.len() + 1;
    }
    if n < bytes.len() {
        bytes[n] = x as u8;
        return n + 1;
    }
    bytes.len() + 1
}

// Word i as bytes of two digits each, - is none; how many, or more than there is room for where the word is not of that form.
pub fn bytes_at(line: &[u8], i: usize, bytes: &mut [u8]) -> usize
    ensures { length bytes.new ≡ length bytes.old }
{
    let mut n = 0;
    for digits in name_at(line, i).chunks(2) {
        n = with_byte(bytes, n, pair(digits));
    }
    n
}

// Word i as the length of an output, no more than there is.
pub fn room_at(line: &[u8], i: usize, out: &[u8]) -> usize
    ensures { (result ≤ length out.now) × (result ≡ length (take result out.now)) }
{
    let n = number_at(line, i);
    if n < out.len() { n } else { out.len() }
}
