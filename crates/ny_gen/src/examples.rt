ghost use Rattle.std.specs.Prelude.{◌≡◌, codes};
ghost use Rattle.ny_gen.specs.Piece.{piece_text};

/// A worked example, computed from the definition: the piece of 7 with two notes.
pub fn two_notes()
    ensures { piece_text 7 2 ≡ codes "define function n(k, d) return osc(k, d) * pwl(0.01, 0.3, d - 0.02, 0.2, d)\ndefine function e(x) return sim(cue(x), scale(0.4, cue(x) @ 0.25))\nplay vector(e(seq(n(71, 0.15))), e(seq(n(63, 0.2))))\n" }
{}
