ghost use Rattle.std.specs.Prelude.{◌≡◌, ℕ, List, [], ◌∷◌, ◌++◌};
ghost use Rattle.ny_num.specs.Sound as sounds;
ghost use Rattle.ny_num.specs.Sound.{placed, placed_timing};
ghost use Rattle.ny_num.specs.Resampling.{resampled};
ghost use Rattle.ny_num.specs.declared.rate.Rate.{Rate};
ghost use Rattle.ny_heap.specs.declared.sound.Sound.{Sound};
ghost use Rattle.ny_heap.specs.Heap.{HeapState, node_at};
ghost use Rattle.ny_heap.specs.Means.{Parts, Whole};
ghost use Rattle.ny_heap.specs.Reach.{HeapLaws};
ghost use Rattle.ny_heap.specs.Steps.{AreHeld};
ghost use Rattle.ny_hands.specs.declared.branch.Branch.{Branch};
ghost use Rattle.ny_hands.specs.Calls.{Shares, Releases, Places, Brings};
ghost use Rattle.ny_hands.specs.Frames.{sound_at};
ghost use Rattle.ny_hands.specs.Hands.{Begins, Hand, Item, item, Comes};

/// The laws of sounds in hand: which calls can spend them, and what is left once they are spent
/// (`docs/DEFINITIONS.md`, "Sounds in hand").
pub fn hand_laws()
    // Whatever came into hand can be spent together, whatever else is in hand.
    ensures held { (before h : HeapState Branch) (ss others : List Sound) → Hand before h (ss ++ others) → AreHeld h ss }
    // Once nothing is in hand, each unit is as it was, and there is no other.
    ensures as_before { (old new : HeapState Branch) → HeapLaws old → Hand old new [] → (v : ℕ) → node_at new v ≡ node_at old v }
    // What comes into hand in turn is in hand together.
    ensures in_turn { (old mid new : HeapState Branch) (ss others : List Sound) → Hand old mid ss → Hand mid new others → Hand old new (ss ++ others) }
    // A sound that is released is in hand no more, and the others still are.
    ensures released { (old mid new : HeapState Branch) (a : Sound) (others : List Sound) → HeapLaws old → Hand old mid (a ∷ others) → Releases mid new a → Hand old new others }
{}

/// The laws of what sounds in hand are: a sound that is shared, brought to a rate or placed is the whole
/// sound that the strict meaning makes so.
pub fn meaning_laws()
    ensures shared { (part : Parts Branch) (old new : HeapState Branch) (a s : Sound) → HeapLaws old → Begins old a → Shares old new a s → Comes part old new (item s (λ w. sound_at w a) ∷ []) }
    ensures brought { (part : Parts Branch) (old mid new : HeapState Branch) (r : Rate) (a s : Sound) (m : Whole → sounds.Sound) (rest : List Item) → HeapLaws old → Comes part old mid (item a m ∷ rest) → Brings mid new r a s → Comes part old new (item s (λ w. resampled r (m w)) ∷ rest) }
    ensures placed { (part : Parts Branch) (old mid new : HeapState Branch) (p : ℕ) (a s : Sound) (m : Whole → sounds.Sound) (rest : List Item) → HeapLaws old → Comes part old mid (item a m ∷ rest) → Places mid new (placed_timing p) a s → Comes part old new (item s (λ w. placed p (m w)) ∷ rest) }
{}
