ghost use Rattle.std.specs.Prelude.{◌≡◌, ◌≢◌, ◌≤◌, ℕ, List, length, IfOk, IfErr};
ghost use Rattle.ny_syntax.specs.Places.{AreInOrder};
ghost use Rattle.ny_lex.specs.Spelling.{HasTokens, HasNoTokens, IsUnreadable, IsRefused, AreReadAlone};

use crate::bytes::after_gap;
use crate::fault::{LexFault, LexWhy};
use crate::word::word;
use ny_syntax::Token;
use std::alloc::Global;

/// The tokens of a text of at most 1,048,576 bytes, in order (`docs/LANGUAGE.md`, "Tokens").
///
/// The answer is `Bad` exactly where the text has no tokens: `at` is the first byte of the
/// leftmost token that can't be read. The time is linear in the text's length.
#[tactic(auto, using(crate::proofs::Tokens::token_steps))]
pub fn lex(alloc: Global, text: &[u8]) -> Result<Vec<Token>, LexFault>
    requires { length text.now ≤ 1048576 }
    ensures ok { IfOk result (λ tokens. HasTokens text.now tokens.items) }
    ensures only { IfOk result (λ tokens. (other : List Token) → HasTokens text.now other → other ≡ tokens.items) }
    ensures in_order { IfOk result (λ tokens. AreInOrder 0 tokens.items (length text.now)) }
    ensures alone { IfOk result (λ tokens. AreReadAlone text.now tokens.items) }

    // The leftmost token that can't be read, and why.
    ensures err { IfErr result (λ fault. IsRefused text.now fault) }
    ensures leftmost { IfErr result (λ fault. fault ≢ LexFault.OutOfMemory → (at : ℕ) (why : LexWhy) → IsUnreadable text.now at why → fault ≡ LexFault.Bad at why) }
    ensures none { IfErr result (λ fault. fault ≢ LexFault.OutOfMemory → HasNoTokens text.now) }
{
    let mut tokens = Vec::new(alloc);
    let mut rest = after_gap(text);
    while !rest.is_empty() {
        let from = (text.len() - rest.len()) as u32;
        match word(rest) {
            Ok((kind, after)) => {
                let to = (text.len() - after.len()) as u32;
                tokens.push(Token { kind, from, to })?;
                rest = after_gap(after);
            }
            Err(why) => return Err(LexFault::Bad { at: from, why }),
        }
    }
    Ok(tokens)
}
