ghost use Rattle.std.specs.Prelude.{◌≡◌, ◌≤◌, ℕ, List, [], Option, Some, None, All, Contains};
ghost use Rattle.ny_resolve.specs.declared.term.Declared.{Declared as DeclaredOf};
ghost use Rattle.ny_resolve.specs.declared.term.Part.{Part as PartOf};
ghost use Rattle.ny_kinds.specs.Whole.{text_kind};
ghost use Rattle.ny_kinds.specs.Refusals.{refusals};

/// A law: the place that is told of a text is one at which kinds are refused, and they are refused at no lesser one; and where
/// none is told, they are refused nowhere.
pub fn refusal_laws()
    ensures told { (ds : List DeclaredOf) → (play : Option PartOf) → (at : ℕ) → (text_kind ds play).fault ≡ Some at → Contains (refusals ds play) at × All (λ (other : ℕ). at ≤ other) (refusals ds play) }
    ensures none { (ds : List DeclaredOf) → (play : Option PartOf) → (text_kind ds play).fault ≡ None → refusals ds play ≡ [] }
{}
