//! Words and what they ask for, computed from the definitions.

// What the definitions say is opened for all of them, so that they compute.
#![tactic(auto, unfolding(clap::proofs::OnLiterals::clap_on_literals, crate::specs::Reader::found_in, crate::specs::Words::read_words))]

ghost use Rattle.std.specs.Prelude.{◌≡◌, [], ◌∷◌, Some, None, codes};
ghost use Rattle.ny_num.specs.declared.rate.Rate.TheVariants.{R8000, R44100};
ghost use Rattle.ny_words.specs.Commands.{check, command_of, render};
ghost use Rattle.ny_words.specs.Words.{read_words};

/// Words that are commands: an option with `=`, options before the names, a name after `--`, and `check`.
pub fn asked_for()
    ensures equals { read_words (codes "render" ∷ codes "a.sal" ∷ codes "a.wav" ∷ codes "--rate=8000" ∷ codes "--block=16" ∷ [])
        ≡ Some (command_of (codes "a.sal") (render (record { to = codes "a.wav"; pool = 16384; block = 16; rate = R8000 }))) }
    ensures anywhere { read_words (codes "render" ∷ codes "--pool" ∷ codes "9" ∷ codes "a.sal" ∷ codes "--block" ∷ codes "0032" ∷ codes "a.wav" ∷ [])
        ≡ Some (command_of (codes "a.sal") (render (record { to = codes "a.wav"; pool = 9; block = 32; rate = R44100 }))) }
    ensures dashes { read_words (codes "check" ∷ codes "--" ∷ codes "--rate" ∷ []) ≡ Some (command_of (codes "--rate") check) }
{}

/// Words that are none: help that is asked for, an option twice, an option with no value and with one that it can't have, an option of
/// another command, a name too few and one too many, and an empty word as a name, as a value and as the command.
pub fn no_command()
    ensures help { read_words (codes "render" ∷ codes "--help" ∷ []) ≡ None }
    ensures short_help { read_words (codes "check" ∷ codes "a.sal" ∷ codes "-h" ∷ []) ≡ None }
    ensures twice { read_words (codes "render" ∷ codes "a.sal" ∷ codes "a.wav" ∷ codes "--pool=9" ∷ codes "--pool" ∷ codes "9" ∷ []) ≡ None }
    ensures no_value { read_words (codes "render" ∷ codes "a.sal" ∷ codes "a.wav" ∷ codes "--pool" ∷ []) ≡ None }
    ensures no_rate { read_words (codes "render" ∷ codes "a.sal" ∷ codes "a.wav" ∷ codes "--rate=8001" ∷ []) ≡ None }
    ensures equals_twice { read_words (codes "render" ∷ codes "a.sal" ∷ codes "a.wav" ∷ codes "--rate=8000=" ∷ []) ≡ None }
    ensures another { read_words (codes "check" ∷ codes "a.sal" ∷ codes "--rate=8000" ∷ []) ≡ None }
    ensures too_few { read_words (codes "render" ∷ codes "a.sal" ∷ []) ≡ None }
    ensures too_many { read_words (codes "check" ∷ codes "a.sal" ∷ codes "b.sal" ∷ []) ≡ None }
    ensures empty_input { read_words (codes "check" ∷ [] ∷ []) ≡ None }
    ensures empty_output { read_words (codes "render" ∷ codes "a.sal" ∷ [] ∷ []) ≡ None }
    ensures empty_value { read_words (codes "render" ∷ codes "a.sal" ∷ codes "a.wav" ∷ codes "--pool" ∷ [] ∷ []) ≡ None }
    ensures empty_command { read_words ([] ∷ codes "a.sal" ∷ []) ≡ None }
    ensures no_words { read_words [] ≡ None }
{}
