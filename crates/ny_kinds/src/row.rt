ghost use Rattle.std.specs.Prelude.{◌≡◌, ◌&&◌, ◌<◌, length, nat_eq};
ghost use Rattle.std.specs.List.{list_any, list_all};
ghost use Rattle.ny_kinds.specs.Rows.{kind_eq, is_number, is_sound, is_test, is_value, given, has_two, has_one, kind_at, sound_and_numbers, mixed, chosen, same_value, mixed_row, negated_row, choice_row, vector_row, operator_row};

use crate::kind::{Judgement, Kind};
use ny_resolve::Operator;

fn kind_eq(a: Kind, b: Kind) -> bool
    ensures { result ≡ kind_eq a b }
{
    match a {
        Kind::Number => matches!(b, Kind::Number),
        Kind::Sound => matches!(b, Kind::Sound),
        Kind::Test => matches!(b, Kind::Test),
        Kind::Channels(n) => match b {
            Kind::Channels(m) => n == m,
            _ => false,
        },
    }
}

fn is_number(kind: Kind) -> bool
    ensures { result ≡ is_number kind }
{
    matches!(kind, Kind::Number)
}

fn is_sound(kind: Kind) -> bool
    ensures { result ≡ is_sound kind }
{
    matches!(kind, Kind::Sound)
}

fn is_test(kind: Kind) -> bool
    ensures { result ≡ is_test kind }
{
    matches!(kind, Kind::Test)
}

/// Whether a kind is that of a number or a sound.
pub(crate) fn is_value(kind: Kind) -> bool
    ensures { result ≡ is_value kind }
{
    matches!(kind, Kind::Number | Kind::Sound)
}

fn given(holds: bool, kind: Kind) -> Judgement
    ensures { result ≡ given holds kind }
{
    if holds {
        Judgement::Is(kind)
    } else {
        Judgement::Refused
    }
}

/// The kind at a place of a list that is long enough.
fn kind_at(kinds: &[Kind], i: usize) -> Kind
    requires { i < length kinds.now }
    ensures { result ≡ kind_at kinds.now i }
{
    kinds[i]
}

fn two_numbers(kinds: &[Kind]) -> bool
    ensures { result ≡ has_two is_number is_number kinds.now }
{
    kinds.len() == 2 && is_number(kind_at(kinds, 0)) && is_number(kind_at(kinds, 1))
}

fn two_tests(kinds: &[Kind]) -> bool
    ensures { result ≡ has_two is_test is_test kinds.now }
{
    kinds.len() == 2 && is_test(kind_at(kinds, 0)) && is_test(kind_at(kinds, 1))
}

fn number_and_sound(kinds: &[Kind]) -> bool
    ensures { result ≡ has_two is_number is_sound kinds.now }
{
    kinds.len() == 2 && is_number(kind_at(kinds, 0)) && is_sound(kind_at(kinds, 1))
}

fn sound_and_number(kinds: &[Kind]) -> bool
    ensures { result ≡ has_two is_sound is_number kinds.now }
{
    kinds.len() == 2 && is_sound(kind_at(kinds, 0)) && is_number(kind_at(kinds, 1))
}

fn one_number(kinds: &[Kind]) -> bool
    ensures { result ≡ has_one is_number kinds.now }
{
    kinds.len() == 1 && is_number(kind_at(kinds, 0))
}

fn one_test(kinds: &[Kind]) -> bool
    ensures { result ≡ has_one is_test kinds.now }
{
    kinds.len() == 1 && is_test(kind_at(kinds, 0))
}

fn one_sound(kinds: &[Kind]) -> bool
    ensures { result ≡ has_one is_sound kinds.now }
{
    kinds.len() == 1 && is_sound(kind_at(kinds, 0))
}

fn all_numbers(kinds: &[Kind]) -> bool
    ensures { result ≡ list_all is_number kinds.now }
{
    kinds.iter().all(|k| is_number(*k))
}

fn all_sounds(kinds: &[Kind]) -> bool
    ensures { result ≡ list_all is_sound kinds.now }
{
    kinds.iter().all(|k| is_sound(*k))
}

fn sound_and_numbers(kinds: &[Kind]) -> bool
    ensures { result ≡ sound_and_numbers kinds.now }
{
    match kinds {
        [] => false,
        [first, rest @ ..] => is_sound(*first) && all_numbers(rest),
    }
}

fn mixed(a: Kind, b: Kind) -> Judgement
    ensures { result ≡ mixed a b }
{
    if is_number(a) && is_number(b) {
        Judgement::Is(Kind::Number)
    } else {
        given(is_value(a) && is_value(b), Kind::Sound)
    }
}

fn chosen(c: Kind, a: Kind, b: Kind) -> Judgement
    ensures { result ≡ chosen c a b }
{
    if is_test(c) && kind_eq(a, b) && !is_test(a) {
        Judgement::Is(a)
    } else {
        Judgement::Refused
    }
}

fn mixed_row(kinds: &[Kind]) -> Judgement
    ensures { result ≡ mixed_row kinds.now }
{
    if kinds.len() == 2 {
        mixed(kind_at(kinds, 0), kind_at(kinds, 1))
    } else {
        Judgement::Refused
    }
}

fn negated_row(kinds: &[Kind]) -> Judgement
    ensures { result ≡ negated_row kinds.now }
{
    if kinds.len() == 1 {
        let kind = kind_at(kinds, 0);
        given(is_value(kind), kind)
    } else {
        Judgement::Refused
    }
}

fn choice_row(kinds: &[Kind]) -> Judgement
    ensures { result ≡ choice_row kinds.now }
{
    if kinds.len() == 3 {
        chosen(kind_at(kinds, 0), kind_at(kinds, 1), kind_at(kinds, 2))
    } else {
        Judgement::Refused
    }
}

fn vector_row(kinds: &[Kind]) -> Judgement
    ensures { result ≡ vector_row kinds.now }
{
    given(all_sounds(kinds), Kind::Channels(kinds.len()))
}

/// What an operator says of its operands' kinds.
pub(crate) fn operator_row(operator: Operator, kinds: &[Kind]) -> Judgement
    ensures { result ≡ operator_row operator kinds.now }
{
    match operator {
        Operator::Add | Operator::Sub | Operator::Mul | Operator::Max | Operator::Min => mixed_row(
            kinds,
        ),
        Operator::Neg => negated_row(kinds),
        Operator::Compare(_) => given(two_numbers(kinds), Kind::Test),
        Operator::And | Operator::Or => given(two_tests(kinds), Kind::Test),
        Operator::Not => given(one_test(kinds), Kind::Test),
        Operator::If => choice_row(kinds),
        Operator::Const | Operator::Osc | Operator::HzOsc | Operator::Lfo | Operator::Noise => {
            given(two_numbers(kinds), Kind::Sound)
        }
        Operator::Rest | Operator::Ramp => given(one_number(kinds), Kind::Sound),
        Operator::Pwl => given(all_numbers(kinds), Kind::Sound),
        Operator::Abs | Operator::Cue => given(one_sound(kinds), Kind::Sound),
        Operator::Scale
        | Operator::At
        | Operator::Stretch
        | Operator::Loud
        | Operator::Sustain
        | Operator::Transpose => given(number_and_sound(kinds), Kind::Sound),
        Operator::OnePole | Operator::Placed | Operator::Stretched => given(
            sound_and_number(kinds),
            Kind::Sound,
        ),
        Operator::Biquad | Operator::Comb => given(sound_and_numbers(kinds), Kind::Sound),
        Operator::Sim | Operator::Seq => given(all_sounds(kinds), Kind::Sound),
        Operator::Vector => vector_row(kinds),
    }
}
