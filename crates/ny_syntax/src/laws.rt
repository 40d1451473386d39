ghost use Rattle.std.specs.Prelude.{All, ◌≡◌, ◌≤◌, ℕ, List, map, length};
ghost use Rattle.ny_syntax.specs.declared.token.Token.{Token};
ghost use Rattle.ny_syntax.specs.declared.tree.Tree.{Tree};
ghost use Rattle.ny_syntax.specs.Grammar.{HasTree, height_limit};
ghost use Rattle.ny_syntax.specs.Spelled.{lexeme_of, IsSpelled};
ghost use Rattle.ny_syntax.specs.Canonical.{canonical_text, canonical_lexemes, canonical_height, opens, opens_written};
ghost use Rattle.ny_syntax.specs.SameTree.{without_places, HasTreeElsewhere};
ghost use Rattle.ny_syntax.specs.Places.{AreInOrder};
ghost use Rattle.ny_syntax.specs.Sizes.{tree_size};

/// The laws of the canonical text of a tree that some tokens have (`docs/LANGUAGE.md`, "Canonical
/// text").
pub fn canonical_laws()
    // It is no higher than a text may be.
    ensures within { (text : List ℕ) (tokens : List Token) (tree : Tree) → HasTree text tokens tree → canonical_height tree ≤ height_limit }

    // Tokens that stand in any text as its tokens have the tree there, but for places.
    ensures again { (text : List ℕ) (tokens : List Token) (tree : Tree) → HasTree text tokens tree
        → (other : List ℕ) (others : List Token) → map (lexeme_of other) others ≡ canonical_lexemes tree
        → HasTreeElsewhere other others tree }

    // Trees that are the same but for places have one canonical text.
    ensures one_text { (text : List ℕ) (tokens : List Token) (tree : Tree) → HasTree text tokens tree
        → (other : List ℕ) (others : List Token) (same : Tree) → HasTree other others same
        → without_places same ≡ without_places tree → canonical_text same ≡ canonical_text tree }

    // Each of its tokens is spelled in the one way, from the tree's numbers and names.
    ensures spelled { (text : List ℕ) (tokens : List Token) (tree : Tree) → HasTree text tokens tree → All (IsSpelled text tokens) (canonical_lexemes tree) }

    // With fewer opening brackets no tokens of any text have the tree: each pair is needed.
    ensures fewest { (text : List ℕ) (tokens : List Token) (tree : Tree) → HasTree text tokens tree
        → (other : List ℕ) (others : List Token) → HasTreeElsewhere other others tree
        → opens_written (canonical_lexemes tree) ≤ opens others }
{}

/// The laws of a tree's size.
pub fn size_laws()
    // It has no more expressions and names than its text has bytes.
    ensures few { (text : List ℕ) (tokens : List Token) (tree : Tree) (end : ℕ) → HasTree text tokens tree → AreInOrder 0 tokens end → tree_size tree ≤ end }

    // It has no more declarations than that.
    ensures declared { (tree : Tree) → length tree.decls ≤ tree_size tree }
{}
