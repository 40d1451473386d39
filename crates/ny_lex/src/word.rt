ghost use Rattle.std.specs.Prelude.{◌≡◌, ◌<◌, length, IfSome};
ghost use Rattle.ny_lex.specs.Bytes.{folded, run, after_run, is_name_byte, is_number_byte};
ghost use Rattle.ny_lex.specs.Words.{reserved_of, named, name_at, begins_number, number_at, if_at, mark_of, mark_before_equal, long_mark, sign_at, word_at, GivesWord};

use crate::bytes::{is_name_start, split_name, split_number};
use crate::fault::LexWhy;
use ny_num::read_decimal;
use ny_syntax::{Mark, TokenKind, Word};

/// The reserved word that the name is, in any case of its letters.
fn reserved(name: &[u8]) -> Option<Word>
    ensures { result ≡ reserved_of (folded name.now) }
{
    if name.eq_ignore_ascii_case(b"define") {
        Some(Word::Define)
    } else if name.eq_ignore_ascii_case(b"function") {
        Some(Word::Function)
    } else if name.eq_ignore_ascii_case(b"variable") {
        Some(Word::Variable)
    } else if name.eq_ignore_ascii_case(b"begin") {
        Some(Word::Begin)
    } else if name.eq_ignore_ascii_case(b"with") {
        Some(Word::With)
    } else if name.eq_ignore_ascii_case(b"end") {
        Some(Word::End)
    } else if name.eq_ignore_ascii_case(b"return") {
        Some(Word::Return)
    } else if name.eq_ignore_ascii_case(b"play") {
        Some(Word::Play)
    } else {
        None
    }
}

/// A name or a reserved word, and what follows it.
#[tactic(auto, unfolding(crate::specs::Words::name_at))]
fn name(text: &[u8]) -> (TokenKind, &[u8])
    ensures { name_at text.now ≡ Ok (result.0, result.1.now) }
{
    let (name, after) = split_name(text);
    let kind = match reserved(name) {
        Some(word) => TokenKind::Reserved(word),
        None => TokenKind::Name,
    };
    (kind, after)
}

/// Whether the text begins with a digit, or with a point that a digit follows.
#[tactic(auto, unfolding(crate::specs::Words::begins_number))]
fn begins_number(text: &[u8]) -> bool
    ensures { result ≡ begins_number text.now }
{
    match text {
        [] => false,
        [byte] => byte.is_ascii_digit(),
        [byte, next, ..] => byte.is_ascii_digit() || *byte == b'.' && next.is_ascii_digit(),
    }
}

/// A number, and what follows it.
#[tactic(auto, unfolding(crate::specs::Words::number_at))]
fn number(text: &[u8]) -> Result<(TokenKind, &[u8]), LexWhy>
    ensures { GivesWord (λ after. after.now) result (number_at text.now) }
{
    let (number, after) = split_number(text);
    let value = read_decimal(number)?;
    Ok((TokenKind::Number(value), after))
}

/// The `if` after a `#`, and what follows it.
#[tactic(auto, unfolding(crate::specs::Words::if_at))]
fn hash_if(text: &[u8]) -> Result<(TokenKind, &[u8]), LexWhy>
    ensures { GivesWord (λ after. after.now) result (if_at text.now) }
{
    let (name, after) = split_name(text);
    if name.eq_ignore_ascii_case(b"if") {
        Ok((TokenKind::If, after))
    } else {
        Err(LexWhy::BadHash)
    }
}

/// The sign of one byte.
fn mark(byte: u8) -> Option<Mark>
    ensures { result ≡ mark_of byte }
{
    match byte {
        b'(' => Some(Mark::Open),
        b')' => Some(Mark::Close),
        b',' => Some(Mark::Comma),
        b'+' => Some(Mark::Plus),
        b'-' => Some(Mark::Minus),
        b'*' => Some(Mark::Times),
        b'/' => Some(Mark::Over),
        b'@' => Some(Mark::At),
        b'~' => Some(Mark::Tilde),
        b'=' => Some(Mark::Equal),
        b'<' => Some(Mark::Less),
        b'>' => Some(Mark::Greater),
        b'&' => Some(Mark::And),
        b'|' => Some(Mark::Or),
        b'!' => Some(Mark::Not),
        _ => None,
    }
}

/// The sign of the byte and the `=` that follows it.
fn long_mark(byte: u8, text: &[u8]) -> Option<Mark>
    ensures value { result ≡ long_mark byte text.now }
    ensures room { IfSome result (λ _. 0 < length text.now) }
{
    let [b'=', ..] = text else {
        return None;
    };
    match byte {
        b'!' => Some(Mark::NotEqual),
        b'<' => Some(Mark::LessEqual),
        b'>' => Some(Mark::GreaterEqual),
        _ => None,
    }
}

/// The longest sign of the byte and the text after it, and what follows it.
#[tactic(auto, unfolding(crate::specs::Words::sign_at))]
fn sign(byte: u8, text: &[u8]) -> Result<(TokenKind, &[u8]), LexWhy>
    ensures { GivesWord (λ after. after.now) result (sign_at byte text.now) }
{
    if let Some(mark) = long_mark(byte, text) {
        let (_, after) = text.split_at(1);
        return Ok((TokenKind::Sign(mark), after));
    }
    match mark(byte) {
        Some(mark) => Ok((TokenKind::Sign(mark), text)),
        None => Err(LexWhy::BadByte),
    }
}

/// The token at the front of a text that begins with no gap, and what follows it.
#[tactic(auto, unfolding(crate::specs::Words::word_at))]
pub fn word(text: &[u8]) -> Result<(TokenKind, &[u8]), LexWhy>
    ensures { GivesWord (λ after. after.now) result (word_at text.now) }
{
    let [first, rest @ ..] = text else {
        return Err(LexWhy::BadByte);
    };
    if is_name_start(*first) {
        Ok(name(text))
    } else if begins_number(text) {
        number(text)
    } else if *first == b'#' {
        hash_if(rest)
    } else {
        sign(*first, rest)
    }
}
