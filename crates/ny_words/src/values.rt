ghost use Rattle.std.specs.Prelude.{◌≡◌, ◌≤◌, ◌<◌, ◌^◌, option_map, IfSome, IsTrue};
ghost use Rattle.std.specs.List.{list_all};
ghost use Rattle.std.specs.Char.{is_ascii_digit};
ghost use Rattle.ny_num.specs.Decimal.{number_of};
ghost use Rattle.ny_num.specs.declared.rate.Rate.TheVariants.{R44100};
ghost use Rattle.ny_words.specs.Words.{number_word, pool_size, block_length, rate_with, given_or};

use ny_num::Rate;

const DEFAULT_POOL: u32 = 16_384;

const DEFAULT_BLOCK: u32 = 1024;

const DEFAULT_RATE: Rate = Rate::R44100;

/// The most digits of a number.
const MOST_DIGITS: usize = 10;

/// The number that digits write, where it is below ten billion.
#[tactic(auto, using(crate::proofs::Numbers::number_so_far))]
fn digits_number(digits: &[u8]) -> u64
    requires digits { IsTrue (list_all is_ascii_digit digits.now) }
    requires small { number_of digits.now < 10 ^ 10 }
    ensures { result ≡ number_of digits.now }
{
    let mut value = 0;
    for digit in digits {
        value = 10 * value + u64::from(*digit - b'0');
    }
    value
}

fn is_all_digits(text: &[u8]) -> bool
    ensures { result ≡ list_all is_ascii_digit text.now }
{
    text.iter().all(|byte| byte.is_ascii_digit())
}

/// The number that a word of 1 to 10 digits writes.
#[tactic(auto, using(crate::proofs::Numbers::few_digits))]
fn number(word: &str) -> Option<u64>
    ensures { result ≡ number_word word.now }
{
    let digits = word.as_bytes();
    if 0 < digits.len() && digits.len() <= MOST_DIGITS && is_all_digits(digits) {
        Some(digits_number(digits))
    } else {
        None
    }
}

/// A pool size: 1 to 65536 blocks.
fn pool(number: u64) -> Option<u32>
    ensures size { result ≡ pool_size number }
    ensures within { IfSome result (λ n. (1 ≤ n) × (n ≤ 65536)) }
{
    if 1 <= number && number <= 65_536 {
        Some(number as u32)
    } else {
        None
    }
}

/// A block length: 16 to 4096 samples.
fn block(number: u64) -> Option<u32>
    ensures length { result ≡ block_length number }
    ensures within { IfSome result (λ n. (16 ≤ n) × (n ≤ 4096)) }
{
    if 16 <= number && number <= 4096 {
        Some(number as u32)
    } else {
        None
    }
}

/// The rate of so many samples a second.
#[tactic(auto, using(crate::proofs::Rates::too_fast))]
fn rate(number: u64) -> Option<Rate>
    ensures { result ≡ rate_with number }
{
    if number > 48_000 {
        return None;
    }
    Rate::of(number as u32)
}

/// How many blocks the pool has, by the word of `--pool` where it is given.
pub fn pool_of(word: Option<&str>) -> Option<u32>
    ensures size { result ≡ given_or 16384 pool_size (option_map (λ text. text.now) word.entry) }
    ensures within { IfSome result (λ n. (1 ≤ n) × (n ≤ 65536)) }
{
    match word {
        Some(word) => pool(number(word)?),
        None => Some(DEFAULT_POOL),
    }
}

/// The block length, by the word of `--block` where it is given.
pub fn block_of(word: Option<&str>) -> Option<u32>
    ensures length { result ≡ given_or 1024 block_length (option_map (λ text. text.now) word.entry) }
    ensures within { IfSome result (λ n. (16 ≤ n) × (n ≤ 4096)) }
{
    match word {
        Some(word) => block(number(word)?),
        None => Some(DEFAULT_BLOCK),
    }
}

/// The rate, by the word of `--rate` where it is given.
pub fn rate_of(word: Option<&str>) -> Option<Rate>
    ensures { result ≡ given_or R44100 rate_with (option_map (λ text. text.now) word.entry) }
{
    match word {
        Some(word) => rate(number(word)?),
        None => Some(DEFAULT_RATE),
    }
}
