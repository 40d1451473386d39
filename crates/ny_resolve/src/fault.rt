ghost use Rattle.std.specs.Prelude.{◌≡◌, [], ◌∷◌};
ghost use Rattle.ny_resolve.specs.Faults.{rank, comes_before, earliest_after, one_fault, fault_if};

/// Why a text is not accepted, in the order in which faults are reported (`docs/LANGUAGE.md`, "Faults").
#[derive(Clone, Copy, Debug, PartialEq, Eq)]
pub enum CheckWhy {
    /// A called name that is no built-in and no function, or a value name that stands for nothing.
    UnknownName,
    /// A name that is declared a second time, or a function named as a built-in.
    Redefined,
    /// A function or variable used before the end of its declaration.
    NotYetDefined,
    /// A wrong number of arguments.
    Arity,
    /// Operands of kinds that their operator refuses, or a first argument of a repeat that is no bare name.
    Kind,
    /// A count that is no whole literal from 1 to 100000.
    BadCount,
    /// A map that is no list of literals in pairs, rising in both.
    BadMap,
    /// A sample rate that is not in the table.
    BadRate,
    /// A division by the literal 0.
    ZeroDivisor,
    /// Nothing is played.
    NoPlay,
    /// More than eight channels.
    TooManyChannels,
    /// A depth above 256.
    TooDeep,
    /// A weight above 1000000.
    TooHeavy,
}

/// A fault of a text, and its place in bytes.
#[derive(Clone, Copy, Debug, PartialEq, Eq)]
pub struct Fault {
    pub at: u32,
    pub why: CheckWhy,
}

/// The place of a kind of fault in the order of reports.
pub fn rank(why: CheckWhy) -> u8
    ensures { result ≡ rank why }
{
    match why {
        CheckWhy::UnknownName => 0,
        CheckWhy::Redefined => 1,
        CheckWhy::NotYetDefined => 2,
        CheckWhy::Arity => 3,
        CheckWhy::Kind => 4,
        CheckWhy::BadCount => 5,
        CheckWhy::BadMap => 6,
        CheckWhy::BadRate => 7,
        CheckWhy::ZeroDivisor => 8,
        CheckWhy::NoPlay => 9,
        CheckWhy::TooManyChannels => 10,
        CheckWhy::TooDeep => 11,
        CheckWhy::TooHeavy => 12,
    }
}

fn comes_before(f: Fault, g: Fault) -> bool
    ensures { result ≡ comes_before f g }
{
    let (p, q) = (rank(f.why), rank(g.why));
    p < q || p == q && f.at < g.at
}

/// The fault that is reported sooner: that of the earlier kind, and of one kind the one at the lesser place.
#[tactic(auto, unfolding(crate::specs::Faults::earliest_after, crate::specs::Faults::earliest))]
fn sooner(first: Option<Fault>, fault: Fault) -> Option<Fault>
    ensures { result ≡ earliest_after first (fault ∷ []) }
{
    match first {
        None => Some(fault),
        Some(before) => {
            if comes_before(fault, before) {
                Some(fault)
            } else {
                first
            }
        }
    }
}

/// The first fault where one more is noted.
pub fn noted(why: CheckWhy, at: u32, first: Option<Fault>) -> Option<Fault>
    ensures { result ≡ earliest_after first (one_fault why at) }
{
    sooner(first, Fault { at, why })
}

/// The first fault where one more is noted if this holds.
#[tactic(auto, using(crate::proofs::Earliest::told))]
pub fn noted_if(holds: bool, why: CheckWhy, at: u32, first: Option<Fault>) -> Option<Fault>
    ensures { result ≡ earliest_after first (fault_if holds why at) }
{
    if holds { noted(why, at, first) } else { first }
}
