ghost use Rattle.std.specs.Prelude.{ℕ, List};
ghost use Rattle.ny_resolve.specs.declared.term.Declared.{Declared as DeclaredOf};
ghost use Rattle.ny_resolve.specs.declared.term.Part.{Part as PartOf};
ghost use Rattle.ny_check.specs.Writing.{program_of};
ghost use Rattle.ny_laws.specs.Standing.{IsTableOf};

/// The law of tables (`docs/DEFINITIONS.md`, "Programs"): the table that is written of a text is the text's. Each part of the text
/// has its node there, and each node is that of a part of the text.
pub fn table_law()
    ensures { (ds : List DeclaredOf) (play : PartOf) (channels : ℕ) → IsTableOf ds play (program_of ds play channels) }
{}
