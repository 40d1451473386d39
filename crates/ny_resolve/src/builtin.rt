ghost use Rattle.std.specs.Prelude.{◌≡◌, bytes_eq, codes, Some, None};
ghost use Rattle.ny_resolve.specs.Builtins.{leaf_named, filter_named, change_named, special_named, builtin_of, arity_of, operator_arity, fits, is_map};

/// A relation between two numbers.
#[derive(Clone, Copy, PartialEq, Eq)]
pub enum Relation {
    Eq,
    Ne,
    Lt,
    Gt,
    Le,
    Ge,
}

/// An operator with its operands, in the order in which the text has them.
#[derive(Clone, Copy, PartialEq, Eq)]
pub enum Operator {
    Add,
    Sub,
    Mul,
    Max,
    Min,
    Neg,
    Compare(Relation),
    And,
    Or,
    Not,
    If,
    Const,
    Osc,
    HzOsc,
    Lfo,
    Noise,
    Rest,
    Ramp,
    Pwl,
    Abs,
    Cue,
    Scale,
    OnePole,
    Biquad,
    Comb,
    Sim,
    Seq,
    /// `at(t, e)`
    At,
    /// `stretch(k, e)`
    Stretch,
    /// `e @ t`
    Placed,
    /// `e ~ k`
    Stretched,
    Loud,
    Sustain,
    Transpose,
    Vector,
}

/// Whether the parts of a repeat sound together or one after the other.
#[derive(Clone, Copy, PartialEq, Eq)]
pub enum Order {
    /// `simrep`
    Together,
    /// `seqrep`
    InTurn,
}

/// Which rate of the environment a change of rate is about.
#[derive(Clone, Copy, PartialEq, Eq)]
pub enum Rated {
    /// `sound-srate-abs`
    Sound,
    /// `control-srate-abs`
    Control,
}

/// What a built-in name calls.
#[derive(Clone, Copy, PartialEq, Eq)]
pub enum Builtin {
    /// An operator on all its arguments.
    Apply(Operator),
    /// `simrep` and `seqrep`: a name, a literal count and an operand.
    Repeat(Order),
    /// `warp`: a map and an operand.
    Warp,
    /// `sound-srate-abs` and `control-srate-abs`: a literal rate and an operand.
    Rate(Rated),
}

/// How many arguments a built-in takes.
#[derive(Clone, Copy, PartialEq, Eq)]
pub enum Arity {
    Exactly(u32),
    Odd,
    Some,
}

/// Whether a name is this word.
fn is(x: &[u8], word: &[u8]) -> bool
    ensures { result ≡ bytes_eq x.now word.now }
{
    x == word
}

fn leaf_named(x: &[u8]) -> Option<Operator>
    ensures { result ≡ leaf_named x.now }
{
    if is(x, b"const") {
        Some(Operator::Const)
    } else if is(x, b"osc") {
        Some(Operator::Osc)
    } else if is(x, b"hzosc") {
        Some(Operator::HzOsc)
    } else if is(x, b"lfo") {
        Some(Operator::Lfo)
    } else if is(x, b"noise") {
        Some(Operator::Noise)
    } else if is(x, b"s-rest") {
        Some(Operator::Rest)
    } else if is(x, b"ramp") {
        Some(Operator::Ramp)
    } else if is(x, b"pwl") {
        Some(Operator::Pwl)
    } else {
        None
    }
}

fn filter_named(x: &[u8]) -> Option<Operator>
    ensures { result ≡ filter_named x.now }
{
    if is(x, b"s-max") {
        Some(Operator::Max)
    } else if is(x, b"s-min") {
        Some(Operator::Min)
    } else if is(x, b"s-abs") {
        Some(Operator::Abs)
    } else if is(x, b"scale") {
        Some(Operator::Scale)
    } else if is(x, b"onepole") {
        Some(Operator::OnePole)
    } else if is(x, b"biquad") {
        Some(Operator::Biquad)
    } else if is(x, b"comb") {
        Some(Operator::Comb)
    } else {
        None
    }
}

fn change_named(x: &[u8]) -> Option<Operator>
    ensures { result ≡ change_named x.now }
{
    if is(x, b"cue") {
        Some(Operator::Cue)
    } else if is(x, b"sim") {
        Some(Operator::Sim)
    } else if is(x, b"seq") {
        Some(Operator::Seq)
    } else if is(x, b"at") {
        Some(Operator::At)
    } else if is(x, b"stretch") {
        Some(Operator::Stretch)
    } else if is(x, b"loud") {
        Some(Operator::Loud)
    } else if is(x, b"sustain") {
        Some(Operator::Sustain)
    } else if is(x, b"transpose") {
        Some(Operator::Transpose)
    } else if is(x, b"vector") {
        Some(Operator::Vector)
    } else {
        None
    }
}

fn special_named(x: &[u8]) -> Option<Builtin>
    ensures { result ≡ special_named x.now }
{
    if is(x, b"simrep") {
        Some(Builtin::Repeat(Order::Together))
    } else if is(x, b"seqrep") {
        Some(Builtin::Repeat(Order::InTurn))
    } else if is(x, b"warp") {
        Some(Builtin::Warp)
    } else if is(x, b"sound-srate-abs") {
        Some(Builtin::Rate(Rated::Sound))
    } else if is(x, b"control-srate-abs") {
        Some(Builtin::Rate(Rated::Control))
    } else {
        None
    }
}

/// What a name calls, if it is a built-in (`docs/LANGUAGE.md`, "Built-ins").
#[tactic(auto, unfolding(crate::specs::Builtins::builtin_of))]
pub fn built_in(x: &[u8]) -> Option<Builtin>
    ensures { result ≡ builtin_of x.now }
{
    match leaf_named(x) {
        Some(operator) => Some(Builtin::Apply(operator)),
        None => match filter_named(x) {
            Some(operator) => Some(Builtin::Apply(operator)),
            None => match change_named(x) {
                Some(operator) => Some(Builtin::Apply(operator)),
                None => special_named(x),
            },
        },
    }
}

/// Whether a name is `map`, which is a built-in as the first argument of `warp` alone.
#[tactic(auto, unfolding(crate::specs::Builtins::is_map))]
pub fn is_map(x: &[u8]) -> bool
    ensures { result ≡ is_map x.now }
{
    is(x, b"map")
}

fn operator_arity(operator: Operator) -> Arity
    ensures { result ≡ operator_arity operator }
{
    match operator {
        Operator::Neg
        | Operator::Not
        | Operator::Rest
        | Operator::Ramp
        | Operator::Abs
        | Operator::Cue => Arity::Exactly(1),
        Operator::If | Operator::Comb => Arity::Exactly(3),
        Operator::Biquad => Arity::Exactly(6),
        Operator::Pwl => Arity::Odd,
        Operator::Sim | Operator::Seq | Operator::Vector => Arity::Some,
        _ => Arity::Exactly(2),
    }
}

fn arity_of(builtin: Builtin) -> Arity
    ensures { result ≡ arity_of builtin }
{
    match builtin {
        Builtin::Apply(operator) => operator_arity(operator),
        Builtin::Repeat(_) => Arity::Exactly(3),
        Builtin::Warp => Arity::Exactly(2),
        Builtin::Rate(_) => Arity::Exactly(2),
    }
}

/// Whether a built-in takes so many arguments.
pub fn takes(builtin: Builtin, count: usize) -> bool
    ensures { result ≡ fits (arity_of builtin) count }
{
    match arity_of(builtin) {
        Arity::Exactly(wanted) => count == wanted as usize,
        Arity::Odd => count % 2 == 1,
        Arity::Some => 1 <= count,
    }
}
