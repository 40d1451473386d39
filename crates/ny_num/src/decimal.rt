ghost use Rattle.std.specs.Prelude.{◌≡◌, ℕ, pos, ◌≤◌, ◌<◌, ◌+◌, ◌^◌, ◌-◌, ◌++◌, length, MatchOption, IfOk, OnOk, IsTrue, true, decimal};
ghost use Rattle.std.specs.List.{list_all, position, position_or_len};
ghost use Rattle.std.specs.Char.{is_ascii_digit};
ghost use Rattle.std.specs.Fmt.{sign_text};
ghost use Rattle.std.specs.Int.{is_negative};
ghost use Rattle.ny_num.specs.Decimal.{decimal_of, is_decimal, number_of, whole_part, places, is_point, fix_most, point_and_places, decimal_text, IsDigitsAndPoint};

use crate::fix::Fix;
use std::alloc::{AllocError, Global};

/// Why a text is no number (`docs/LANGUAGE.md`, "Numbers").
#[derive(Clone, Copy, Debug, PartialEq, Eq)]
pub enum NumFault {
    /// It is not digits, with perhaps a point and more digits.
    NotDecimal,
    /// More than six digits follow the point.
    TooManyPlaces,
    /// It is above 2^53 millionths.
    TooLarge,
}

const LIMIT: u64 = 9_007_199_254_740_992;

const PLACES: usize = 6;

/// The place of the point.
fn find_point(text: &[u8]) -> Option<usize>
    ensures { result ≡ position is_point text.now }
{
    text.iter().position(|byte| *byte == b'.')
}

/// The place of the point, or the length where there is none.
#[tactic(auto, using(crate::proofs::Points::place_or_end))]
fn point_place(text: &[u8]) -> usize
    ensures place { result ≡ position_or_len is_point text.now }
    ensures within { result ≤ length text.now }
{
    find_point(text).unwrap_or(text.len())
}

/// What stands before the point, and what stands after it.
fn split_at_point(text: &[u8]) -> (&[u8], &[u8])
    ensures whole { result.0.now ≡ whole_part text.now }
    ensures places { result.1.now ≡ places text.now }
{
    let place = point_place(text);
    if place == text.len() {
        return (text, &[]);
    }
    let (whole, rest) = text.split_at(place);
    let (_, after) = rest.split_at(1);
    (whole, after)
}

fn is_all_digits(text: &[u8]) -> bool
    ensures { result ≡ list_all is_ascii_digit text.now }
{
    text.iter().all(|byte| byte.is_ascii_digit())
}

/// Whether the text, with these parts, is a decimal.
fn is_written(text: &[u8], whole: &[u8], after: &[u8]) -> bool
    requires whole { whole.now ≡ whole_part text.now }
    requires after { after.now ≡ places text.now }
    ensures { result ≡ is_decimal text.now }
{
    let has_point = text.contains(&b'.');
    let wanted = if has_point { after.len() } else { whole.len() };
    is_all_digits(whole) && is_all_digits(after) && wanted != 0
}

/// The number that the digits write; none where it is above `LIMIT`.
#[tactic(auto, using(crate::proofs::Digits::digits_so_far))]
fn number(digits: &[u8]) -> Option<u64>
    requires { IsTrue (list_all is_ascii_digit digits.now) }
    ensures { MatchOption result (fix_most < number_of digits.now) (λ n. (n ≡ number_of digits.now) × (n ≤ fix_most)) }
{
    let mut value = 0;
    for digit in digits {
        value = 10 * value + u64::from(*digit - b'0');
        if value > LIMIT {
            return None;
        }
    }
    Some(value)
}

/// The number that a text writes (`docs/LANGUAGE.md`, "Numbers"). A text of another form is
/// `NotDecimal`; else more than six digits after the point are `TooManyPlaces`; else a value
/// above 2^53 millionths is `TooLarge`.
#[tactic(auto, using(crate::proofs::Digits::shifted))]
pub fn read_decimal(text: &[u8]) -> Result<Fix, NumFault>
    ensures { result ≡ decimal_of text.now }
{
    let (whole, after) = split_at_point(text);
    if !is_written(text, whole, after) {
        return Err(NumFault::NotDecimal);
    }
    if after.len() > PLACES {
        return Err(NumFault::TooManyPlaces);
    }
    let Some(units) = number(whole) else {
        return Err(NumFault::TooLarge);
    };
    let Some(part) = number(after) else {
        return Err(NumFault::TooLarge);
    };
    let scale = 10u128.pow((PLACES - after.len()) as u32);
    let micro = u128::from(units) * 1_000_000 + u128::from(part) * scale;
    if micro > u128::from(LIMIT) {
        return Err(NumFault::TooLarge);
    }
    Ok(Fix::of(micro as i64))
}

/// Appends a point and the digits of a rest below 1, in millionths, as far as the last that is
/// not 0.
#[tactic(auto, using(crate::proofs::Places::places_from_the_left))]
fn push_places(text: &mut Vec<u8>, millionths: u32) -> Result<(), AllocError>
    requires { millionths < 1000000 }
    ensures { OnOk result (text.new.items ≡ text.old.items ++ point_and_places millionths) }
{
    if millionths == 0 {
        return Ok(());
    }
    text.push(b'.')?;
    let mut rest = millionths;
    for place in 0..6 {
        if rest == 0 {
            break;
        }
        let worth = 10u32.pow(5 - place);
        text.push(b'0' + (rest / worth) as u8)?;
        rest %= worth;
    }
    Ok(())
}

/// A minus sign for a number below 0.
fn sign_of(micro: i64) -> &'static str
    ensures { result.now ≡ sign_text (is_negative micro) }
{
    if micro < 0 { "-" } else { "" }
}

/// Appends the digits of a whole number. It calls itself once for each digit but the first.
#[tactic(auto, using(crate::proofs::WholeDigits::digit_by_digit))]
fn push_whole(text: &mut Vec<u8>, n: u64) -> Result<(), AllocError>
    ensures { OnOk result (text.new.items ≡ text.old.items ++ decimal n) }
{
    if n < 10 {
        text.push(b'0' + n as u8)?;
        return Ok(());
    }
    push_whole(text, n / 10)?;
    text.push(b'0' + (n % 10) as u8)?;
    Ok(())
}

/// Appends the text of a number (`docs/LANGUAGE.md`, "Numbers"): a minus sign for one below 0, the
/// whole part without leading zeros, and where the rest is not 0 a point and its digits as far as
/// the last that is not 0.
#[tactic(auto, unfolding(crate::specs::Decimal::decimal_text))]
pub fn push_decimal(text: &mut Vec<u8>, v: Fix) -> Result<(), AllocError>
    ensures { OnOk result (text.new.items ≡ text.old.items ++ decimal_text v) }
{
    let micro = v.micro();
    let size = micro.unsigned_abs();
    text.extend_from_slice(sign_of(micro).as_bytes())?;
    push_whole(text, size / 1_000_000)?;
    push_places(text, (size % 1_000_000) as u32)
}

/// The text of a number, as `push_decimal` appends it.
pub fn write_decimal(alloc: Global, v: Fix) -> Result<Vec<u8>, AllocError>
    ensures { IfOk result (λ bytes. bytes.items ≡ decimal_text v) }
{
    let mut text = Vec::new(alloc);
    push_decimal(&mut text, v)?;
    Ok(text)
}

/// The law of the text of a number that is not negative: it is digits and perhaps a point, and it
/// is read back as that number.
#[tactic(auto, using(crate::proofs::DecimalText::reads_back))]
pub fn text_reads_back()
    ensures number { (n : ℕ) → n ≤ fix_most → decimal_of (decimal_text (pos n)) ≡ Ok (pos n) }
    ensures bytes { (n : ℕ) → n ≤ fix_most → IsDigitsAndPoint (decimal_text (pos n)) }
{}
