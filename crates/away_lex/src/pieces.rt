//! The piece at the front of a text.

ghost use Rattle.std.specs.Prelude.{◌≡◌, ◌≢◌, ◌<◌, ◌≤◌, ◌+◌, ◌-◌, ◌^◌, ◌&&◌, ◌==◌, nat_le, take, drop, length, slice_index, IfSome, IfNone, Some, true, false};
ghost use Rattle.away_lex.specs.Pieces as spec;

use away_grammar::TokenKind;
use away_values::{LONGEST_NAME, LONGEST_TEXT};

/// The opposite of the least bigint: no integer that is a token is greater.
/// The manual: 4.1.2.6, Numeric Constants, and 8.1.1, Integer Types. That no greater number is read is our own choice.
pub const INTEGER_LIMIT: u64 = 9_223_372_036_854_775_808;

const PARAMETER_LIMIT: u64 = 64;

/// A piece at the front of a text, by its length in bytes. The manual: 4.1, Lexical Structure; comments are 4.1.5.
#[derive(Clone, Copy, Debug)]
pub enum Piece {
    Skipped(usize),
    Token(TokenKind, usize),
}

/// The bytes that names, numbers and comments of one line go on with.
#[derive(Clone, Copy, Debug)]
pub(crate) enum Class {
    Name,
    Digit,
    Line,
}

fn is_blank(b: u8) -> bool
    ensures { result ≡ spec.is_blank b }
{
    b == b' ' || b == b'\t' || b == b'\n' || b == b'\r' || b == 12
}

fn is_start(b: u8) -> bool
    ensures { result ≡ spec.is_start b }
{
    b.is_ascii_alphabetic() || b == b'_'
}

fn is_in(class: Class, b: u8) -> bool
    ensures { result ≡ spec.is_in class b }
{
    match class {
        Class::Name => b.is_ascii_alphanumeric() || b == b'_',
        Class::Digit => b.is_ascii_digit(),
        Class::Line => !(b == b'\n' || b == b'\r'),
    }
}

fn byte(z: &[u8], at: usize) -> u8
    ensures value { result ≡ spec.byte z.now at }
    ensures within { result ≢ 0 → at < length z.now }
{
    if at < z.len() { z[at] } else { 0 }
}

/// How many bytes of the class stand at the front.
pub(crate) fn run(class: Class, z: &[u8]) -> usize
    ensures value { result ≡ spec.run class z.now }
    ensures within { result ≤ length z.now }
    ensures stops { result < length z.now → spec.is_in class (slice_index z.now result) ≡ false }
    ensures last { 0 < result → spec.is_in class (slice_index z.now (result - 1)) ≡ true }
{
    let mut end = 0;
    while end < z.len() && is_in(class, z[end]) {
        end += 1;
    }
    end
}

fn word(z: &[u8]) -> Option<Piece>
    requires { spec.is_start (slice_index z.now 0) ≡ true }
    ensures value { result ≡ spec.word z.now }
    ensures cut { spec.Cuts z.now result }
{
    let len = run(Class::Name, z);
    if len <= LONGEST_NAME {
        Some(Piece::Token(TokenKind::Word, len))
    } else {
        None
    }
}

/// The number that the digits spell, or None where it is above the limit.
#[tactic(auto, using(crate::proofs::Steps::number_over), unfolding(away_grammar::specs::Spellings::number))]
pub fn number(digits: &[u8], limit: u64) -> Option<u64>
    requires { limit ≤ 2 ^ 63 }
    ensures some { IfSome result (λ n. (n ≡ spec.number digits.now) × (n ≤ limit)) }
    ensures none { IfNone result (limit < spec.number digits.now) }
{
    let mut value = 0;
    for digit in digits {
        if value > limit / 10 {
            return None;
        }
        value = value * 10 + u64::from(digit.saturating_sub(b'0'));
    }
    if value <= limit { Some(value) } else { None }
}

/// The number of at most a limit that stands at the front with no letter behind it, and how many digits it has.
fn numeral(z: &[u8], limit: u64) -> Option<(u64, usize)>
    requires { limit ≤ 2 ^ 63 }
    ensures some { IfSome result (λ p. (spec.is_number limit z.now ≡ true)
        × (p.0 ≡ spec.number (take p.1 z.now)) × (p.1 ≡ spec.run Class.Digit z.now)) }
    ensures none { IfNone result (spec.is_number limit z.now ≡ false) }
    ensures within { IfSome result (λ p. p.1 ≤ length z.now) }
    ensures last { IfSome result
        (λ p. 0 < p.1 → spec.is_in Class.Digit (slice_index z.now (p.1 - 1)) ≡ true) }
{
    let len = run(Class::Digit, z);
    if is_start(byte(z, len)) {
        return None;
    }
    match number(&z[..len], limit) {
        None => None,
        Some(n) => Some((n, len)),
    }
}

fn integer(z: &[u8]) -> Option<Piece>
    requires { spec.is_in Class.Digit (slice_index z.now 0) ≡ true }
    ensures value { result ≡ spec.integer z.now }
    ensures cut { spec.Cuts z.now result }
{
    match numeral(z, INTEGER_LIMIT) {
        None => None,
        Some((_, len)) => Some(Piece::Token(TokenKind::Integer, len)),
    }
}

#[tactic(auto, using(crate::proofs::Steps::closing_steps))]
fn closing(z: &[u8]) -> Option<usize>
    ensures value { result ≡ spec.closing z.now }
    ensures within { IfSome result
        (λ n. (1 ≤ n) × (n ≤ length z.now) × (spec.byte z.now (n - 1) ≡ 39)) }
{
    let mut at = 0;
    while at < z.len() {
        if z[at] != b'\'' {
            at += 1;
        } else if byte(z, at + 1) == b'\'' {
            at += 2;
        } else {
            return Some(at + 1);
        }
    }
    None
}

#[tactic(auto, using(crate::proofs::Steps::text_steps))]
fn is_text(inside: &[u8]) -> bool
    ensures { result ≡ spec.is_text (spec.undoubled inside.now) }
{
    let mut at = 0;
    let mut len = 0;
    while at < inside.len() {
        if inside[at] == 0 {
            return false;
        }
        len += 1;
        if stand_at(inside, at, b'\'', b'\'') {
            at += 2;
        } else {
            at += 1;
        }
    }
    len <= LONGEST_TEXT
}

fn string(z: &[u8]) -> Option<Piece>
    requires { 0 < length z.now }
    ensures value { result ≡ spec.string z.now }
    ensures cut { spec.Cuts z.now result }
{
    match closing(&z[1..]) {
        None => None,
        Some(len) => {
            if is_text(&z[1..len]) {
                Some(Piece::Token(TokenKind::Str, 1 + len))
            } else {
                None
            }
        }
    }
}

fn begins_with(mark: &[u8], z: &[u8], at: usize) -> bool
    requires { at ≤ length z.now }
    ensures value { result ≡ spec.begins_with mark.now (drop at z.now) }
    ensures within { result ≡ true → at + length mark.now ≤ length z.now }
{
    z[at..].starts_with(mark)
}

#[tactic(auto, using(crate::proofs::Steps::place_steps))]
fn place_of(mark: &[u8], z: &[u8]) -> Option<usize>
    requires { 0 < length mark.now }
    ensures value { result ≡ spec.place_of mark.now z.now }
    ensures within { IfSome result (λ n. n + length mark.now ≤ length z.now) }
    ensures last { IfSome result (λ n. spec.byte z.now (n + length mark.now - 1)
        ≡ spec.byte mark.now (length mark.now - 1)) }
{
    let mut at = 0;
    while at < z.len() {
        if begins_with(mark, z, at) {
            return Some(at);
        }
        at += 1;
    }
    None
}

fn parameter(z: &[u8]) -> Option<Piece>
    requires { spec.is_in Class.Digit (slice_index z.now 1) ≡ true }
    ensures value { result ≡ spec.parameter z.now }
    ensures cut { spec.Cuts z.now result }
{
    match numeral(&z[1..], PARAMETER_LIMIT) {
        None => None,
        Some((n, len)) => {
            if n == 0 {
                None
            } else {
                Some(Piece::Token(TokenKind::Parameter, 1 + len))
            }
        }
    }
}

fn quote(z: &[u8], tag: usize) -> Option<Piece>
    requires { tag < length z.now }
    ensures value { result ≡ spec.quote z.now tag }
    ensures cut { spec.Cuts z.now result }
{
    if byte(z, 1 + tag) != b'$' || LONGEST_NAME < tag {
        return None;
    }
    let (mark, text) = z.split_at(2 + tag);
    match place_of(mark, text) {
        None => None,
        Some(inside) => Some(Piece::Token(TokenKind::Dollar, mark.len() + inside + mark.len())),
    }
}

fn dollar(z: &[u8]) -> Option<Piece>
    requires { 0 < length z.now }
    ensures value { result ≡ spec.dollar z.now }
    ensures cut { spec.Cuts z.now result }
{
    if run(Class::Digit, &z[1..]) > 0 {
        parameter(z)
    } else {
        quote(z, run(Class::Name, &z[1..]))
    }
}

fn stand_at(z: &[u8], at: usize, b: u8, c: u8) -> bool
    requires { at < length z.now }
    ensures value { result ≡ (spec.byte z.now at == b && spec.byte z.now (at + 1) == c) }
    ensures within { result ≡ true → c ≢ 0 → at + 1 < length z.now }
{
    z[at] == b && byte(z, at + 1) == c
}

#[tactic(auto, using(crate::proofs::Steps::comment_steps))]
fn comment_len(z: &[u8]) -> Option<usize>
    ensures value { result ≡ spec.comment_len 0 z.now }
    ensures within { IfSome result
        (λ n. (1 ≤ n) × (n ≤ length z.now) × (spec.byte z.now (n - 1) ≡ 47)) }
{
    let mut depth: usize = 0;
    let mut at = 0;
    while at < z.len() {
        if stand_at(z, at, b'*', b'/') {
            if depth == 0 {
                return Some(at + 2);
            }
            depth -= 1;
            at += 2;
        } else if stand_at(z, at, b'/', b'*') {
            depth += 1;
            at += 2;
        } else {
            at += 1;
        }
    }
    None
}

fn is_pair(b: u8, c: u8) -> bool
    ensures { result ≡ spec.is_pair b c }
{
    match c {
        b'=' => b == b':' || b == b'!' || b == b'<' || b == b'>',
        b'>' => b == b'<' || b == b'>',
        _ => b == c && (b == b'<' || b == b'|' || b == b':' || b == b'.'),
    }
}

fn is_single(b: u8) -> bool
    ensures { result ≡ spec.is_single b }
{
    (b'<' <= b && b <= b'>') || (b'(' <= b && b <= b'/') || b == b'%' || b == b';'
}

fn symbol(b: u8, c: u8) -> Option<Piece>
    ensures value { result ≡ spec.symbol b c }
    ensures one { IfSome result (λ p. spec.len_of p ≢ 2 → (spec.len_of p ≡ 1) × (b ≢ 0)
        × (b < 128)) }
    ensures two { IfSome result (λ p. spec.len_of p ≡ 2 → (c ≢ 0) × (c < 128)) }
{
    if is_pair(b, c) {
        Some(Piece::Token(TokenKind::Symbol, 2))
    } else if is_single(b) {
        Some(Piece::Token(TokenKind::Symbol, 1))
    } else {
        None
    }
}

fn mark(z: &[u8]) -> Option<Piece>
    ensures value { result ≡ spec.mark z.now }
    ensures cut { spec.Cuts z.now result }
{
    let (b, next) = (byte(z, 0), byte(z, 1));
    if b == b'-' && next == b'-' {
        return Some(Piece::Skipped(2 + run(Class::Line, &z[2..])));
    }
    if b == b'/' && next == b'*' {
        return match comment_len(&z[2..]) {
            None => None,
            Some(len) => Some(Piece::Skipped(2 + len)),
        };
    }
    symbol(b, next)
}

/// The first piece of a text that isn't empty, or `None` where no token begins. The manual: 4.1, Lexical Structure.
#[tactic(auto, unfolding(crate::specs::Pieces::first_piece))]
pub fn first_piece(z: &[u8]) -> Option<Piece>
    requires { 0 < length z.now }
    ensures value { result ≡ spec.first_piece z.now }
    ensures cut { spec.Cuts z.now result }
{
    let b = z[0];
    if is_blank(b) {
        Some(Piece::Skipped(1))
    } else if is_start(b) {
        word(z)
    } else if b.is_ascii_digit() {
        integer(z)
    } else if b == b'\'' {
        string(z)
    } else if b == b'$' {
        dollar(z)
    } else {
        mark(z)
    }
}
