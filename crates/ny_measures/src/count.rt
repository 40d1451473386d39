ghost use Rattle.std.specs.Prelude.{◌≡◌, ◌≤◌, ◌+◌, ◌*◌, ◌^◌, get_or, List, ℕ, if◌then◌else◌};
ghost use Rattle.ny_measures.specs.Counts.{capped, all_capped};

use ny_resolve::Declared;

const GREATEST: u64 = 4_294_967_296;

/// The sum of two counts, up to the greatest.
pub(crate) fn sum(a: u64, b: u64) -> u64
    ensures value { result ≡ capped (a + b) }
    ensures within { result ≤ 2 ^ 32 }
{
    a.saturating_add(b).min(GREATEST)
}

/// The product of two counts, up to the greatest.
pub(crate) fn product(a: u64, b: u64) -> u64
    ensures value { result ≡ capped (a * b) }
    ensures within { result ≤ 2 ^ 32 }
{
    a.saturating_mul(b).min(GREATEST)
}

/// What is known of a declaration, or 0.
pub(crate) fn known_of(known: &[u64], number: usize) -> u64
    ensures { result ≡ get_or known.now number 0 }
{
    known.get(number).copied().unwrap_or(0)
}

/// What is known of declaration `i` where it is a global variable, and else 0.
#[tactic(auto, using(crate::proofs::Capped::known_capped))]
pub(crate) fn value_count(d: &Declared, known: &[u64], i: usize) -> u64
    ensures { (ws : List ℕ) → known.now ≡ all_capped ws → result ≡ capped (if d.now.is_variable then get_or ws i 0 else 0) }
{
    if d.is_variable { known_of(known, i) } else { 0 }
}
