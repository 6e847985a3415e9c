//! Index files (Encoding Standard, section 5).

ghost use Rattle.std.specs.Prelude.{◌≡◌, ◌+◌, ◌*◌, ◌<◌, ◌≤◌, ◌^◌, ◌∷◌, length, take, drop, IfErr};
ghost use Rattle.std.specs.Prelude.{IfOk, IsTrue, Ok};
ghost use Rattle.std.specs.List.{prefix_len};
ghost use Rattle.enc_front.specs.IndexFile.{is_of_class, AreDigits, are_lengths, is_digit};
ghost use Rattle.enc_front.specs.IndexFile.{is_hex_digit, digit_number, digits_number};
ghost use Rattle.enc_front.specs.IndexFile.{begins_scalar, is_line_end, line_of, lines_of};
ghost use Rattle.enc_front.specs.IndexFile.{skips_line, pair_behind, pair_in, pair_of_parts};
ghost use Rattle.enc_front.specs.IndexFile.{pair_with, without_cr, index_pairs, IsMemoryOrLine};

use std::alloc::{AllocError, AllocFailed, Global};
use std::fmt;

/// Why an index file has no pairs.
#[derive(Debug, Drop, PartialEq)]
pub enum IndexError {
    /// Out of memory.
    Memory,
    /// The first bad line, counted from 1.
    BadLine(usize),
}

impl fmt::Display for IndexError {
    fn fmt<W: fmt::Write>(&self, f: &mut fmt::Formatter<W>) -> fmt::Result {
        match self {
            IndexError::Memory => write!(f, "no memory"),
            IndexError::BadLine(line) => write!(
                f,
                "line {line} is no pair of a place and a scalar value"
            ),
        }
    }
}

impl From<AllocError> for IndexError {
    ghost use Rattle.std.specs.Prelude.{◌≡◌};
    ghost use Rattle.enc_front.specs.declared.index_file.IndexError.TheVariants.{Memory};

    ghost from_gives = { λ _ e. e ≡ Memory };

    fn from(_error: AllocError) -> IndexError {
        IndexError::Memory
    }
}

impl<T: Drop> From<AllocFailed<T>> for IndexError {
    ghost use Rattle.std.specs.Prelude.{◌≡◌};
    ghost use Rattle.enc_front.specs.declared.index_file.IndexError.TheVariants.{Memory};

    ghost from_gives = { λ _ e. e ≡ Memory };

    fn from(_error: AllocFailed<T>) -> IndexError {
        IndexError::Memory
    }
}

// What a line has.
enum Line {
    // Nothing.
    Skipped,
    // A place and a scalar.
    Pair(u32, u32),
    // No pair, but something.
    Bad,
}

/// The pairs of a place and a scalar of an index file, in the order of its lines, as `Tables::add`
/// takes them.
///
/// Lines end at LF, or CR LF. An empty line and one that begins with `#` are skipped. Any other
/// line is spaces, a place of one to nine digits, a tab, `0x`, four to six hexadecimal digits, and
/// then the end, or a tab and anything; else it is a `BadLine`.
pub fn read_index(alloc: Global, text: &[u8]) -> Result<Vec<(u32, u32)>, IndexError>
    ensures pairs { IfOk result (λ pairs. index_pairs text.now ≡ Ok pairs.items) }
    ensures fault { IfErr result (IsMemoryOrLine (index_pairs text.now)) }
{
    let mut pairs = Vec::with_capacity(alloc, line_count(text))?;
    let mut number = 1;
    let mut rest = text;
    while !rest.is_empty() {
        let (line, behind) = split_line(rest);
        match line_of(without_cr(line)) {
            Line::Skipped => (),
            Line::Pair(place, scalar) => pairs.push((place, scalar))?,
            Line::Bad => return Err(IndexError::BadLine(number)),
        }
        number += 1;
        rest = behind;
    }
    Ok(pairs)
}

// At least the number of lines.
fn line_count(text: &[u8]) -> usize {
    text.iter()
        .filter(|b| **b == b'\n')
        .count()
        .saturating_add(1)
}

// The first line, without its LF, and what is behind it.
fn split_line(text: &[u8]) -> (&[u8], &[u8])
    requires { 0 < length text.now }
    ensures lines { lines_of text.now ≡ result.0.now ∷ lines_of result.1.now }
    ensures shorter { length result.1.now < length text.now }
{
    for (end, b) in text.iter().enumerate() {
        if *b == b'\n' {
            return (&text[..end], &text[end + 1..]);
        }
    }
    (text, &text[text.len()..])
}

// A line without one CR at its end.
fn without_cr(line: &[u8]) -> &[u8]
    ensures { result.now ≡ without_cr line.now }
{
    match line.last() {
        Some(b'\r') => &line[..line.len() - 1],
        _ => line,
    }
}

// What a line has.
#[tactic(auto, unfolding(crate::specs::IndexFile::line_of))]
fn line_of(line: &[u8]) -> Line
    ensures { result ≡ line_of line.now }
{
    if is_skipped(line) {
        return Line::Skipped;
    }
    let (_, text) = split_front(Class::Space, line);
    pair_in(text)
}

// Whether a line is empty or begins with `#`.
fn is_skipped(line: &[u8]) -> bool
    ensures { result ≡ skips_line line.now }
{
    match line.first() {
        Some(b) => *b == b'#',
        None => true,
    }
}

// What a line without its spaces has.
#[tactic(auto, unfolding(crate::specs::IndexFile::pair_in))]
fn pair_in(text: &[u8]) -> Line
    ensures { result ≡ pair_in text.now }
{
    let (place, rest) = split_front(Class::Digit, text);
    pair_behind(place, rest)
}

// What a line has behind the digits of a place.
#[tactic(auto, unfolding(crate::specs::IndexFile::pair_behind))]
fn pair_behind(place: &[u8], text: &[u8]) -> Line
    requires { AreDigits 10 place.now }
    ensures { result ≡ pair_behind place.now text.now }
{
    if text.len() < 3 || !begins_scalar(text) {
        return Line::Bad;
    }
    pair_with(place, &text[3..])
}

// What a line has behind `0x`.
#[tactic(auto, unfolding(crate::specs::IndexFile::pair_with))]
fn pair_with(place: &[u8], text: &[u8]) -> Line
    requires { AreDigits 10 place.now }
    ensures { result ≡ pair_with place.now text.now }
{
    let (scalar, rest) = split_front(Class::HexDigit, text);
    pair_of_parts(place, scalar, rest)
}

// The pair of the digits of a place and of a scalar, and what is behind them.
#[tactic(auto, unfolding(crate::specs::IndexFile::pair_of_parts))]
fn pair_of_parts(place: &[u8], scalar: &[u8], rest: &[u8]) -> Line
    requires place { AreDigits 10 place.now }
    requires scalar { AreDigits 16 scalar.now }
    ensures { result ≡ pair_of_parts place.now scalar.now rest.now }
{
    if !are_lengths(place.len(), scalar.len()) {
        return Line::Bad;
    }
    if !is_line_end(rest) {
        return Line::Bad;
    }
    Line::Pair(number_of(10, place), number_of(16, scalar))
}

fn are_lengths(place: usize, scalar: usize) -> bool
    ensures { result ≡ are_lengths place scalar }
{
    (1 <= place && place <= 9) && (4 <= scalar && scalar <= 6)
}

// Whether a line ends here, or goes on with a tab.
fn is_line_end(rest: &[u8]) -> bool
    ensures { result ≡ is_line_end rest.now }
{
    match rest.first() {
        Some(b) => *b == b'\t',
        None => true,
    }
}

// Whether a tab and `0x` come.
fn begins_scalar(text: &[u8]) -> bool
    requires { 3 ≤ length text.now }
    ensures { result ≡ begins_scalar text.now }
{
    (text[0] == b'\t' && text[1] == b'0') && text[2] == b'x'
}

// The bytes of a part of a line.
#[derive(Clone, Copy)]
enum Class {
    Space,
    Digit,
    HexDigit,
}

impl Class {
    fn has(self, b: u8) -> bool
        ensures { result ≡ is_of_class self b }
    {
        match self {
            Class::Space => b == b' ',
            Class::Digit => is_digit(b),
            Class::HexDigit => is_hex_digit(b),
        }
    }
}

fn is_digit(b: u8) -> bool
    ensures { result ≡ is_digit b }
{
    b'0' <= b && b <= b'9'
}

fn is_hex_digit(b: u8) -> bool
    ensures { result ≡ is_hex_digit b }
{
    is_digit(b) || ((b'A' <= b && b <= b'F') || (b'a' <= b && b <= b'f'))
}

// The bytes of a class at the front, and what is behind them.
fn split_front(class: Class, text: &[u8]) -> (&[u8], &[u8])
    ensures front { result.0.now ≡ take (prefix_len (is_of_class class) text.now) text.now }
    ensures behind { result.1.now ≡ drop (prefix_len (is_of_class class) text.now) text.now }
{
    text.split_at(front_len(class, text))
}

// How many bytes at the front are of a class.
fn front_len(class: Class, text: &[u8]) -> usize
    ensures front { result ≡ prefix_len (is_of_class class) text.now }
    ensures within { result ≤ length text.now }
{
    for (i, b) in text.iter().enumerate() {
        if !class.has(*b) {
            return i;
        }
    }
    text.len()
}

// The number that digits write.
fn number_of(base: u32, digits: &[u8]) -> u32
    requires digits { AreDigits base digits.now }
    requires fits { base ^ length digits.now ≤ 2 ^ 32 }
    ensures { result ≡ digits_number base digits.now }
{
    let mut number = 0;
    for b in digits {
        number = base * number + digit_number(*b);
    }
    number
}

fn digit_number(b: u8) -> u32
    ensures { result ≡ digit_number b }
{
    if b <= b'9' {
        return u32::from(b.saturating_sub(48));
    }
    if b <= b'F' {
        return u32::from(b - 55);
    }
    u32::from(b.saturating_sub(87))
}

#[cfg(test)]
mod tests;
