ghost use Rattle.std.specs.Prelude.{◌≡◌, ◌≤◌, length, not};
ghost use Rattle.std.specs.List.{position};
ghost use Rattle.ny_lex.specs.Bytes.{is_blank, is_name_start, is_name_byte, is_number_byte, run, after_run, after_gap};

/// Whether the byte is a space, a tab, a carriage return or a line feed.
fn is_blank(byte: u8) -> bool
    ensures { result ≡ is_blank byte }
{
    byte == b' ' || byte == b'\t' || byte == b'\r' || byte == b'\n'
}

/// Whether a name may begin with the byte.
pub fn is_name_start(byte: u8) -> bool
    ensures { result ≡ is_name_start byte }
{
    byte.is_ascii_alphabetic() || byte == b'_'
}

fn is_name_byte(byte: u8) -> bool
    ensures { result ≡ is_name_byte byte }
{
    is_name_start(byte) || byte.is_ascii_digit() || byte == b'-'
}

fn is_number_byte(byte: u8) -> bool
    ensures { result ≡ is_number_byte byte }
{
    is_name_start(byte) || byte.is_ascii_digit() || byte == b'.'
}

/// The place of the first byte that ends a name.
fn name_end(text: &[u8]) -> Option<usize>
    ensures { result ≡ position (λ byte. not (is_name_byte byte)) text.now }
{
    text.iter().position(|byte| !is_name_byte(*byte))
}

/// The place of the first byte that ends a number.
fn number_end(text: &[u8]) -> Option<usize>
    ensures { result ≡ position (λ byte. not (is_number_byte byte)) text.now }
{
    text.iter().position(|byte| !is_number_byte(*byte))
}

#[tactic(auto, using(crate::proofs::Runs::run_ends))]
fn name_len(text: &[u8]) -> usize
    ensures value { result ≡ length (run is_name_byte text.now) }
    ensures within { result ≤ length text.now }
{
    name_end(text).unwrap_or(text.len())
}

#[tactic(auto, using(crate::proofs::Runs::run_ends))]
fn number_len(text: &[u8]) -> usize
    ensures value { result ≡ length (run is_number_byte text.now) }
    ensures within { result ≤ length text.now }
{
    number_end(text).unwrap_or(text.len())
}

/// The longest run of bytes that a name may hold, and what follows it.
#[tactic(auto, using(crate::proofs::Runs::run_split))]
pub fn split_name(text: &[u8]) -> (&[u8], &[u8])
    ensures run { result.0.now ≡ run is_name_byte text.now }
    ensures after { result.1.now ≡ after_run is_name_byte text.now }
{
    text.split_at(name_len(text))
}

/// The longest run of bytes that a number may hold, and what follows it.
#[tactic(auto, using(crate::proofs::Runs::run_split))]
pub fn split_number(text: &[u8]) -> (&[u8], &[u8])
    ensures run { result.0.now ≡ run is_number_byte text.now }
    ensures after { result.1.now ≡ after_run is_number_byte text.now }
{
    text.split_at(number_len(text))
}

/// What follows the blanks and comments at the front of a text.
#[tactic(auto, using(crate::proofs::Gaps::gap_steps))]
pub fn after_gap(text: &[u8]) -> &[u8]
    ensures { result.now ≡ after_gap text.now }
{
    let mut in_comment = false;
    for (place, byte) in text.iter().enumerate() {
        if in_comment {
            in_comment = *byte != b'\n';
        } else if *byte == b';' {
            in_comment = true;
        } else if !is_blank(*byte) {
            let (_, rest) = text.split_at(place);
            return rest;
        }
    }
    &[]
}
