ghost use Rattle.std.specs.Prelude.{◌≡◌, ℕ, List, map};
ghost use Rattle.ny_syntax.specs.declared.tree.Tree.{Tree};
ghost use Rattle.ny_syntax.specs.Grammar.{HasTree};
ghost use Rattle.ny_syntax.specs.Spelled.{lexeme_of};
ghost use Rattle.ny_syntax.specs.Canonical.{canonical_text, canonical_lexemes};
ghost use Rattle.ny_syntax.specs.SameTree.{HasTreeElsewhere};
ghost use Rattle.ny_lex.specs.Spelling.{HasTokens};

use ny_num::text_reads_back;
use ny_syntax::{Token, canonical_laws};

/// The laws of the tokens of a canonical text, where the tree is that of some text
/// (`docs/LANGUAGE.md`, "Canonical text").
pub fn canonical_tokens()
    // It has tokens.
    ensures some { (text : List ℕ) (tokens : List Token) (tree : Tree) → HasTokens text tokens → HasTree text tokens tree
        → (others : List Token) × HasTokens (canonical_text tree) others }

    // They stand in it as the canonical tokens.
    ensures lexemes { (text : List ℕ) (tokens : List Token) (tree : Tree) → HasTokens text tokens → HasTree text tokens tree
        → (others : List Token) → HasTokens (canonical_text tree) others
        → map (lexeme_of (canonical_text tree)) others ≡ canonical_lexemes tree }

    // They have the tree, but for places.
    ensures tree { (text : List ℕ) (tokens : List Token) (tree : Tree) → HasTokens text tokens → HasTree text tokens tree
        → (others : List Token) → HasTokens (canonical_text tree) others
        → HasTreeElsewhere (canonical_text tree) others tree }
{
    text_reads_back();
    canonical_laws();
}
