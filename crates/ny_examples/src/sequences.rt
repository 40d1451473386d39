//! Sequences, whose next part begins at the least time that the steps take to the stop of the part before. That time is
//! placed by a lemma on the least inverse, and the rest is computed. The programs stand in `specs/Sequences.antt`.

ghost use Rattle.std.specs.Prelude.{◌≡◌, [], ◌∷◌, ◌++◌, replicate, pos};
ghost use Rattle.ny_examples.specs.Programs.{frames_of, mono};
ghost use Rattle.ny_examples.specs.Sequences.{overlapping, with_gap, waves_in_turn, cues_in_turn, repeats_in_turn, in_turn_under_warp};

/// Parts follow the logical stop of the part before, so they may overlap or leave a gap.
pub fn stops()
    ensures overlap { frames_of overlapping ≡ mono (replicate 16 (pos 100000) ++ replicate 16 (pos 300000)) }
    ensures gap { frames_of with_gap ≡ mono (replicate 16 (pos 100000) ++ replicate 16 (pos 0) ++ replicate 16 (pos 200000)) }
{}

/// A name in a `cue` is heard again from each part's beginning, as if its sound were written there.
pub fn cues_follow()
    ensures waves { frames_of waves_in_turn ≡ mono (pos 0 ∷ pos 338063 ∷ pos 633484 ∷ pos 856533 ∷ pos 981737 ∷ pos 988107 ∷ pos 877914 ∷ pos 661365 ∷ pos 0 ∷ pos 338063 ∷ pos 633484 ∷ pos 856533 ∷ pos 981737 ∷ pos 988107 ∷ pos 877914 ∷ pos 661365 ∷ []) }
    ensures cues { frames_of cues_in_turn ≡ mono (pos 0 ∷ pos 338063 ∷ pos 633484 ∷ pos 856533 ∷ pos 981737 ∷ pos 988107 ∷ pos 877914 ∷ pos 661365 ∷ pos 0 ∷ pos 338063 ∷ pos 633484 ∷ pos 856533 ∷ pos 981737 ∷ pos 988107 ∷ pos 877914 ∷ pos 661365 ∷ []) }
{}

/// In a repeat the name stands for 0, and then for 1.
pub fn repeats()
    ensures { frames_of repeats_in_turn ≡ mono (replicate 2 (pos 100000) ++ replicate 2 (pos 1100000)) }
{}

/// Under a warp the second part begins at the local time that is taken to the first one's stop, and lasts as long as the map
/// makes it there.
pub fn under_a_warp()
    ensures { frames_of in_turn_under_warp ≡ mono (replicate 16 (pos 100000) ++ replicate 8 (pos 200000)) }
{}
