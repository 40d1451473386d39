ghost use Rattle.std.specs.Prelude.{◌≡◌, List, []};
ghost use Rattle.ny_syntax.specs.declared.tree.Decl.{Decl as DeclOf};
ghost use Rattle.ny_resolve.specs.Declarations.{names_faults, nothing_declared};
ghost use Rattle.ny_resolve.specs.Again.{again_after};

/// A law: a declared name is a fault where an earlier declaration has it, or where it is a function's and a built-in has it.
pub fn name_laws()
    ensures again { (decls : List DeclOf) → names_faults 0 decls nothing_declared ≡ again_after [] decls }
{}
