ghost use Rattle.std.specs.Prelude.{◌≡◌, ◌≤◌, ◌<◌, ◌+◌, ◌^◌, IfOk, OnOk, map, [], ◌∷◌, ◌++◌, length, bytes_eq, ℕ};
ghost use Rattle.ny_resolve.specs.declared.names.Names.{Names as NamesOf};
ghost use Rattle.indexmap.specs.IndexMap.{insert_entry};
ghost use Rattle.ny_syntax.specs.Sizes.{total, size_of, declaration_size, play_size, tree_size};
ghost use Rattle.ny_resolve.specs.Sizes.{size_of_part, declared_size, played_size, text_size};
ghost use Rattle.ny_resolve.specs.Faults.{earliest, earliest_after};
ghost use Rattle.ny_resolve.specs.Names.{scope_of, with_local, again_faults, seen_after};
ghost use Rattle.ny_resolve.specs.Reading.{reading};
ghost use Rattle.ny_resolve.specs.Declarations.{declare, declare_faults, declared_after, names_faults, nothing_declared, function_is_taken, param_names, with_params, params_faults, declaration_read, declarations_read, scope_in, play_read, tree_read, declaring_of};

use crate::builtin::built_in;
use crate::fault::{CheckWhy, Fault, noted};
use crate::names::{Called, Names, function_named, variable_named};
use crate::parts::Read;
use crate::reading::{note_again, read_expr};
use crate::term::{Declared, NameId, Part};
use crate::word::Word;
use indexmap::IndexMap;
use ny_scope::Scope;
use ny_syntax::{Decl, Expr, Param, Tree, size_laws};
use sqlite_items::Items;
use std::alloc::{AllocError, Global};

/// A text that was read, and the first of the faults that it shows before any kind is known.
#[derive(Drop)]
pub struct ReadTree {
    pub declared: Items<Declared>,
    pub play: Option<Part>,
    pub first: Option<Fault>,
}

fn function_is_taken<'t>(names: &Names<'t>, word: &Word<'t>, bytes: &[u8]) -> bool
    requires { bytes.now ≡ word.now }
    ensures { result ≡ function_is_taken word.now names.now.functions.entries }
{
    built_in(bytes).is_some() || function_named(&names.functions, word).is_some()
}

/// Declares one more function or variable.
#[tactic(auto, using(crate::proofs::Earliest::told))]
fn declare<'t>(
    names: &mut Names<'t>,
    number: u32,
    declaration: &'t Decl,
    first: Option<Fault>,
) -> Result<Option<Fault>, AllocError>
    ensures names { OnOk result (declaring_of names.new ≡ declare number declaration.now (declaring_of names.old)) }
    ensures first { IfOk result (λ f. f ≡ earliest_after first (declare_faults declaration.now (declaring_of names.old))) }
{
    match declaration {
        Decl::Function {
            at,
            name,
            params,
            ..
        } => {
            let word = Word::of(name);
            if function_is_taken(names, &word, name.bytes.as_slice()) {
                return Ok(noted(CheckWhy::Redefined, *at, first));
            }
            let params = params.len();
            names.functions.insert(word, Called { number, params })?;
            Ok(first)
        }
        Decl::Variable { at, name, .. } => {
            let word = Word::of(name);
            if variable_named(&names.variables, &word).is_some() {
                return Ok(noted(CheckWhy::Redefined, *at, first));
            }
            names.variables.insert(word, number)?;
            Ok(first)
        }
    }
}

/// What a text declares.
#[derive(Drop)]
struct AllNames<'t> {
    names: Names<'t>,
    first: Option<Fault>,
}

#[tactic(auto, using(crate::proofs::Earliest::told))]
fn all_names<'t>(alloc: Global, declarations: &'t [Decl]) -> Result<AllNames<'t>, AllocError>
    requires { length declarations.now < 2 ^ 32 }
    ensures names { IfOk result (λ r. declaring_of r.names ≡ declared_after 0 declarations.now nothing_declared) }
    ensures first { IfOk result (λ r. r.first ≡ earliest (names_faults 0 declarations.now nothing_declared)) }
{
    let mut names = Names {
        functions: IndexMap::new(alloc),
        variables: IndexMap::new(alloc),
    };
    let mut first = None;
    for i in 0..declarations.len() {
        let number = i as u32;
        first = declare(&mut names, number, &declarations[i], first)?;
    }
    Ok(AllNames { names, first })
}

/// Binds one more parameter, and notes whether the list has it already.
fn bind_param<'t>(
    seen: &mut IndexMap<Word<'t>, NameId>,
    locals: &mut Scope<Word<'t>, NameId>,
    param: &'t Param,
    first: Option<Fault>,
) -> Result<Option<Fault>, AllocError>
    ensures seen { OnOk result (seen.new.entries ≡ seen_after seen.old.entries param.now.name.bytes param.now.at) }
    ensures bound { (names : NamesOf) → (here : ℕ) → OnOk result (scope_of names here locals.new ≡ with_local param.now.name.bytes param.now.at (scope_of names here locals.old)) }
    ensures first { IfOk result (λ f. f ≡ earliest_after first (again_faults seen.old.entries param.now.name.bytes param.now.at)) }
{
    locals.bind(Word::of(&param.name), NameId(param.at))?;
    note_again(seen, Word::of(&param.name), param.at, first)
}

/// Binds parameters, and notes each that the list has already.
#[tactic(auto, using(crate::proofs::Earliest::told))]
fn bind_params<'t>(
    seen: &mut IndexMap<Word<'t>, NameId>,
    locals: &mut Scope<Word<'t>, NameId>,
    params: &'t [Param],
    first: Option<Fault>,
) -> Result<Option<Fault>, AllocError>
    ensures bound { (names : NamesOf) → (here : ℕ) → OnOk result (scope_of names here locals.new ≡ with_params params.now (scope_of names here locals.old)) }
    ensures first { IfOk result (λ f. f ≡ earliest_after first (params_faults params.now seen.old.entries)) }
{
    let mut first = first;
    for param in params {
        first = bind_param(seen, locals, param, first)?;
    }
    Ok(first)
}

/// The names of parameters.
fn param_names(alloc: Global, params: &[Param]) -> Result<Items<NameId>, AllocError>
    ensures { IfOk result (λ names. names ≡ param_names params.now) }
{
    let mut names = Items::new(alloc);
    for param in params {
        names.push(NameId(param.at))?;
    }
    Ok(names)
}

/// The first fault where parameters are bound.
fn params_read<'t>(
    alloc: Global,
    locals: &mut Scope<Word<'t>, NameId>,
    params: &'t [Param],
    first: Option<Fault>,
) -> Result<Option<Fault>, AllocError>
    ensures bound { (names : NamesOf) → (here : ℕ) → OnOk result (scope_of names here locals.new ≡ with_params params.now (scope_of names here locals.old)) }
    ensures first { IfOk result (λ f. f ≡ earliest_after first (params_faults params.now [])) }
{
    let mut seen = IndexMap::new(alloc);
    bind_params(&mut seen, locals, params, first)
}

/// One declaration that was read.
#[derive(Drop)]
struct ReadDeclaration {
    declared: Declared,
    first: Option<Fault>,
}

/// Reads an expression that sees no local name.
fn read_alone<'t>(
    alloc: Global,
    names: &Names<'t>,
    here: u32,
    e: &'t Expr,
    first: Option<Fault>,
) -> Result<Read, AllocError>
    ensures part { IfOk result (λ r. r.part ≡ ((reading e.now).read (scope_of names.now here [])).part) }
    ensures first { IfOk result (λ r. r.first ≡ earliest_after first ((reading e.now).read (scope_of names.now here [])).faults) }
    ensures small { IfOk result (λ r. size_of_part r.part ≤ size_of e.now) }
{
    read_expr(alloc, names, here, &mut Scope::new(alloc), e, first)
}

/// Reads the body of a function in a scope, behind its parameters.
#[tactic(auto, using(crate::proofs::Earliest::told))]
fn read_within<'t>(
    alloc: Global,
    names: &Names<'t>,
    here: u32,
    locals: &mut Scope<Word<'t>, NameId>,
    params: &'t [Param],
    body: &'t Expr,
    first: Option<Fault>,
) -> Result<Read, AllocError>
    ensures part { IfOk result (λ r. r.part ≡ ((reading body.now).read (with_params params.now (scope_of names.now here locals.old))).part) }
    ensures first { IfOk result (λ r. r.first ≡ earliest_after first (params_faults params.now [] ++ ((reading body.now).read (with_params params.now (scope_of names.now here locals.old))).faults)) }
    ensures small { IfOk result (λ r. size_of_part r.part ≤ size_of body.now) }
{
    let first = params_read(alloc, locals, params, first)?;
    let body = read_expr(alloc, names, here, locals, body, first)?;
    Ok(body)
}

/// Reads the body of a function, which sees its parameters.
fn read_body<'t>(
    alloc: Global,
    names: &Names<'t>,
    here: u32,
    params: &'t [Param],
    body: &'t Expr,
    first: Option<Fault>,
) -> Result<Read, AllocError>
    ensures part { IfOk result (λ r. r.part ≡ ((reading body.now).read (with_params params.now (scope_of names.now here []))).part) }
    ensures first { IfOk result (λ r. r.first ≡ earliest_after first (params_faults params.now [] ++ ((reading body.now).read (with_params params.now (scope_of names.now here []))).faults)) }
    ensures small { IfOk result (λ r. size_of_part r.part ≤ size_of body.now) }
{
    let mut locals = Scope::new(alloc);
    read_within(alloc, names, here, &mut locals, params, body, first)
}

fn declaration_read<'t>(
    alloc: Global,
    names: &Names<'t>,
    here: u32,
    declaration: &'t Decl,
    first: Option<Fault>,
) -> Result<ReadDeclaration, AllocError>
    ensures declared { IfOk result (λ r. r.declared ≡ (declaration_read declaration.now (scope_of names.now here [])).declared) }
    ensures first { IfOk result (λ r. r.first ≡ earliest_after first (declaration_read declaration.now (scope_of names.now here [])).faults) }
    ensures small { IfOk result (λ r. declared_size r.declared ≤ declaration_size declaration.now) }
{
    match declaration {
        Decl::Function { params, body, .. } => {
            let params = params.as_slice();
            let names_of = param_names(alloc, params)?;
            let body = read_body(alloc, names, here, params, body, first)?;
            Ok(ReadDeclaration {
                declared: Declared {
                    params: names_of,
                    body: body.part,
                    is_variable: false,
                },
                first: body.first,
            })
        }
        Decl::Variable { value, .. } => {
            let value = read_alone(alloc, names, here, value, first)?;
            Ok(ReadDeclaration {
                declared: Declared {
                    params: Items::new(alloc),
                    body: value.part,
                    is_variable: true,
                },
                first: value.first,
            })
        }
    }
}

/// Declarations that were read.
#[derive(Drop)]
struct ReadDeclared {
    declared: Items<Declared>,
    first: Option<Fault>,
}

#[tactic(auto, using(crate::proofs::Earliest::told))]
fn declarations_read<'t>(
    alloc: Global,
    names: &Names<'t>,
    declarations: &'t [Decl],
    first: Option<Fault>,
) -> Result<ReadDeclared, AllocError>
    requires { length declarations.now < 2 ^ 32 }
    ensures declared { IfOk result (λ r. r.declared ≡ (declarations_read (declaring_of names.now) 0 declarations.now).declared) }
    ensures first { IfOk result (λ r. r.first ≡ earliest_after first (declarations_read (declaring_of names.now) 0 declarations.now).faults) }
    ensures small { IfOk result (λ r. total (map declared_size r.declared) ≤ total (map declaration_size declarations.now)) }
    ensures count { IfOk result (λ r. length r.declared ≡ length declarations.now) }
{
    let mut done = Items::new(alloc);
    let mut first = first;
    for i in 0..declarations.len() {
        let here = i as u32;
        let read = declaration_read(alloc, names, here, &declarations[i], first)?;
        first = read.first;
        done.push(read.declared)?;
    }
    Ok(ReadDeclared {
        declared: done,
        first,
    })
}

#[tactic(auto, using(crate::proofs::Earliest::told))]
fn play_read<'t>(
    alloc: Global,
    names: &Names<'t>,
    here: u32,
    end: u32,
    play: &'t Option<Expr>,
    read: ReadDeclared,
) -> Result<ReadTree, AllocError>
    ensures declared { IfOk result (λ r. r.declared ≡ read.declared) }
    ensures play { IfOk result (λ r. r.play ≡ (play_read (declaring_of names.now) here end play.now).play) }
    ensures first { IfOk result (λ r. r.first ≡ earliest_after read.first (play_read (declaring_of names.now) here end play.now).faults) }
    ensures small { IfOk result (λ r. played_size r.play ≤ play_size play.now) }
{
    let ReadDeclared { declared, first } = read;
    match play {
        None => Ok(ReadTree {
            declared,
            play: None,
            first: noted(CheckWhy::NoPlay, end, first),
        }),
        Some(e) => {
            let played = read_alone(alloc, names, here, e, first)?;
            Ok(ReadTree {
                declared,
                play: Some(played.part),
                first: played.first,
            })
        }
    }
}

/// The terms of a text, and the first of the faults that it shows before any kind is known.
///
/// Names and declarations have 32-bit numbers, so the tree has fewer than 2^32 expressions and names, as each
/// tree of a text has (`ny_syntax::size_laws`). What is read is no larger than the tree.
#[tactic(auto, using(crate::proofs::Earliest::told))]
pub fn read_tree(alloc: Global, tree: &Tree) -> Result<ReadTree, AllocError>
    requires { tree_size tree.now < 2 ^ 32 }
    ensures declared { IfOk result (λ r. r.declared ≡ (tree_read tree.now).declared) }
    ensures play { IfOk result (λ r. r.play ≡ (tree_read tree.now).play) }
    ensures first { IfOk result (λ r. r.first ≡ earliest (tree_read tree.now).faults) }
    ensures small { IfOk result (λ r. text_size r.declared r.play ≤ tree_size tree.now) }
    ensures numbered { IfOk result (λ r. length r.declared < 2 ^ 32) }
{
    size_laws();
    let declarations = tree.decls.as_slice();
    let all = all_names(alloc, declarations)?;
    let read = declarations_read(alloc, &all.names, declarations, all.first)?;
    let here = declarations.len() as u32;
    play_read(alloc, &all.names, here, tree.end, &tree.play, read)
}
