//! How the environment of an expression is changed (`docs/DEFINITIONS.md`, "Environments").

ghost use Rattle.std.specs.Prelude.{◌≡◌};
ghost use Rattle.ny_check.specs.Families.{changed_by, at_rate};

use crate::node::Transformation;
use ny_num::{Fix, Rate};
use ny_resolve::Rated;
use ny_warp::Env;

/// Changes an environment by a number.
pub fn change_by(env: &mut Env, by: Transformation, k: Fix)
    ensures { env.new ≡ changed_by by env.old k }
{
    match by {
        Transformation::At => env.at(k),
        Transformation::Stretch => env.stretch(k),
        Transformation::Loud => env.loud(k),
        Transformation::Sustain => env.sustain(k),
        Transformation::Transpose => env.transpose(k),
    }
}

/// Changes one of the rates of an environment.
pub fn change_rate(env: &mut Env, rated: Rated, rate: Rate)
    ensures { env.new ≡ at_rate rated env.old rate }
{
    match rated {
        Rated::Sound => env.sound_rate(rate),
        Rated::Control => env.control_rate(rate),
    }
}
