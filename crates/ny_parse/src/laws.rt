ghost use Rattle.std.specs.Prelude.{◌≡◌, ℕ, List};
ghost use Rattle.ny_syntax.specs.declared.token.Token.{Token};
ghost use Rattle.ny_syntax.specs.declared.tree.Tree.{Tree};
ghost use Rattle.ny_syntax.specs.Grammar.{HasTree};
ghost use Rattle.ny_syntax.specs.Canonical.{canonical_text};
ghost use Rattle.ny_syntax.specs.SameTree.{without_places, HasTreeElsewhere};
ghost use Rattle.ny_lex.specs.Spelling.{HasTokens};
ghost use Rattle.ny_parse.specs.Prefix.{StopsAt};

use ny_lex::canonical_tokens;
use ny_syntax::canonical_laws;

/// The canonical law (`docs/LANGUAGE.md`, "Canonical text"): the canonical text of a tree of some
/// text has that tree, but for places, and no other.
pub fn canonical_law()
    // Tokens have one tree at most.
    ensures one { (text : List ℕ) (tokens : List Token) (tree other : Tree) → HasTree text tokens tree
        → HasTree text tokens other → other ≡ tree }

    // The canonical text has tokens,
    ensures tokens { (text : List ℕ) (tokens : List Token) (tree : Tree) → HasTokens text tokens → HasTree text tokens tree
        → (others : List Token) × HasTokens (canonical_text tree) others }

    // which have the tree, but for places,
    ensures tree { (text : List ℕ) (tokens : List Token) (tree : Tree) → HasTokens text tokens → HasTree text tokens tree
        → (others : List Token) → HasTokens (canonical_text tree) others
        → HasTreeElsewhere (canonical_text tree) others tree }

    // and no other.
    ensures only { (text : List ℕ) (tokens : List Token) (tree : Tree) → HasTokens text tokens → HasTree text tokens tree
        → (others : List Token) → HasTokens (canonical_text tree) others
        → (found : Tree) → HasTree (canonical_text tree) others found
        → without_places found ≡ without_places tree }

    // Printed again it is the same text.
    ensures again { (text : List ℕ) (tokens : List Token) (tree : Tree) → HasTokens text tokens → HasTree text tokens tree
        → (others : List Token) → HasTokens (canonical_text tree) others
        → (found : Tree) → HasTree (canonical_text tree) others found
        → canonical_text found ≡ canonical_text tree }
{
    canonical_laws();
    canonical_tokens();
}

/// The laws of the place where tokens stop (`docs/DEFINITIONS.md`, "Grammar"): tokens that have a
/// tree have no such place, and others have one.
pub fn stop_laws()
    ensures no_tree { (text : List ℕ) (tokens : List Token) (at : ℕ) (tree : Tree) → StopsAt text tokens at
        → HasTree text tokens tree → ⊥ }
    ensures one_place { (text : List ℕ) (tokens : List Token) (at other : ℕ) → StopsAt text tokens at
        → StopsAt text tokens other → other ≡ at }
{}
