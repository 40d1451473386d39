ghost use Rattle.ny_laws.specs.Complete.{NodesAreWhole, IsWholeText};
ghost use Rattle.ny_laws.specs.Kinds.{IsPlayable};
ghost use Rattle.ny_laws.specs.Reached.{ReachedHaveMeaning, PlaysItsChannels, HasItsChannels};

use ny_check::Program;

/// The law of meanings (`docs/DEFINITIONS.md`, "Kinds in a program"): what a program plays is a sound or several side by side, as many as
/// it has channels; and whatever is reached from there is of a kind by the rule of its node, so that it is a number, a test, a sound or
/// channels, as its kind says, in every environment.
pub fn meaning_law(program: &Program)
    ensures playable { IsPlayable program.now }
    ensures reached { ReachedHaveMeaning program.now }
    ensures played { PlaysItsChannels program.now }
    ensures channels { HasItsChannels program.now }
{
    program.order_law();
    program.text_law();
}

/// The law of whole tables (`docs/DEFINITIONS.md`, "Tables that leave nothing out"): each node names nodes before it and has as many
/// operands as it takes; and it stands for a part of the text, in the place of nothing that is missing.
pub fn whole_law(program: &Program)
    ensures nodes { NodesAreWhole program.now }
    ensures text { IsWholeText program.now }
{
    program.order_law();
    program.text_law();
}
