//! Lines, computed from the definitions.

// What the definitions say is opened for all of them, so that they compute.
#![tactic(auto, unfolding(crate::specs::Lines::pull_line_of, crate::specs::Lines::peak_line_of, crate::specs::Lines::sum_lines_of))]

ghost use Rattle.std.specs.Prelude.{◌≡◌, ◌++◌, [], ◌∷◌, Some, None, codes};
ghost use Rattle.ny_report.specs.Lines.{peak_line_of, pull_line_of, sum_lines_of};

/// Lines of pulls: without kinds, with one, with none of which a block is live, with the first and the last, and with all.
pub fn pull_lines()
    ensures plain { pull_line_of 1 0 1 3 None ≡ codes "pull 1 channel 0 live 1 fills 3\n" }
    ensures one { pull_line_of 1 0 1 3 (Some (0 ∷ 0 ∷ 1 ∷ 0 ∷ 0 ∷ 0 ∷ 0 ∷ 0 ∷ 0 ∷ 0 ∷ 0 ∷ 0 ∷ 0 ∷ 0 ∷ 0 ∷ 0 ∷ 0 ∷ 0 ∷ []))
        ≡ codes "pull 1 channel 0 live 1 fills 3 osc 1\n" }
    ensures none { pull_line_of 20 9 0 105 (Some (0 ∷ 0 ∷ 0 ∷ 0 ∷ 0 ∷ 0 ∷ 0 ∷ 0 ∷ 0 ∷ 0 ∷ 0 ∷ 0 ∷ 0 ∷ 0 ∷ 0 ∷ 0 ∷ 0 ∷ 0 ∷ []))
        ≡ codes "pull 20 channel 9 live 0 fills 105\n" }
    ensures ends { pull_line_of 2 1 13 20 (Some (12 ∷ 0 ∷ 0 ∷ 0 ∷ 0 ∷ 0 ∷ 0 ∷ 0 ∷ 0 ∷ 0 ∷ 0 ∷ 0 ∷ 0 ∷ 0 ∷ 0 ∷ 0 ∷ 0 ∷ 1 ∷ []))
        ≡ codes "pull 2 channel 1 live 13 fills 20 const 12 channel 1\n" }
    ensures every { pull_line_of 3 0 171 300 (Some (1 ∷ 2 ∷ 3 ∷ 4 ∷ 5 ∷ 6 ∷ 7 ∷ 8 ∷ 9 ∷ 10 ∷ 11 ∷ 12 ∷ 13 ∷ 14 ∷ 15 ∷ 16 ∷ 17 ∷ 18 ∷ []))
        ≡ codes "pull 3 channel 0 live 171 fills 300 const 1 ramp 2 osc 3 hzosc 4 lfo 5 noise 6 pwl 7 data 8"
        ++ codes " abs 9 add 10 sub 11 mul 12 max 13 min 14 resample 15 filter 16 mix 17 channel 18\n" }
{}

/// The other lines of a run: its peak, and the lines of a drawn piece.
pub fn other_lines()
    ensures peak { peak_line_of 6 ≡ codes "peak 6\n" }
    ensures none_live { peak_line_of 0 ≡ codes "peak 0\n" }
    ensures sums { sum_lines_of 2 15435 6 64 4294967295 ≡ codes "notes 2\nframes 15435\npeak 6\nfills 64\nsum 4294967295\n" }
{}
