//! What names stand for while a program is evaluated.

ghost use Rattle.std.specs.Prelude.{◌≡◌, ◌≤◌, ◌<◌, ◌+◌, ◌++◌, [], ◌∷◌, length, take, drop, get_or, map, IfOk, IfErr, OnOk, OnErr};
ghost use Rattle.std.specs.Option.{option_map};
ghost use Rattle.ny_scope.specs.Scopes.{last_of};
ghost use Rattle.ny_resolve.specs.Keys.{same_name};
ghost use Rattle.ny_resolve.specs.declared.term.NameId.{NameId as Name};
ghost use Rattle.ny_check.specs.declared.value.Value.{Value as ValueOf};
ghost use Rattle.ny_check.specs.Values.{scalars_of, scalar_in, scalar_of, number_of, test_of};
ghost use Rattle.ny_heap.specs.declared.sound.Sound.{Sound as Handle};
ghost use Rattle.ny_hands.specs.Calls.{ReleasesAll};
ghost use Rattle.ny_hands.specs.Frames.{sounds_among};
ghost use Rattle.ny_hands.specs.Hands.{InHand, GivesUp};
ghost use Rattle.ny_trace.specs.Evaluates.{sounds_of_values, timed_in, times_in};
ghost use Rattle.ny_eval.specs.Framed.{FrameState, names_in, places_from};

use crate::unit::give_up;
use ny_check::operations::{holds, number_in};
use ny_check::{Binds, ExprId, NameId, Program, Scalar, Value};
use ny_hands::Branch;
use ny_heap::{Heap, Sound};
use ny_num::{Fix, Timing};
use ny_scope::Scope;
use sqlite_items::Items;
use std::alloc::{AllocError, Global};
use std::marker::Model;
use std::mem::replace;

/// Names, one after another, and what each stands for: those that a caller lends, and those bound since. The last binding
/// of a name counts.
///
/// A name is found in constant time, however many there are.
#[derive(Drop)]
pub(crate) struct Frame<'a> {
    lent: &'a [(NameId, Value<Sound>)],
    bound: Vec<(NameId, Value<Sound>)>,
    // Where each name stands among both.
    places: Scope<NameId, usize>,
    // What numbers and tests are told from.
    scalars: Scope<NameId, Scalar>,
}

impl<'a> Model for Frame<'a> {
    ghost use Rattle.std.specs.Prelude.{◌≡◌, ◌++◌};
    ghost use Rattle.ny_check.specs.Values.{scalars_of};
    ghost use Rattle.ny_eval.specs.Framed.{FrameState, places_from};

    ghost Value = { FrameState };

    ghost view = { λ f. record { lent = f.lent.now; bound = f.bound.items } };

    ghost invariant = { λ f. (f.places ≡ places_from 0 (f.lent.now ++ f.bound.items)) × (f.scalars ≡ scalars_of (f.lent.now ++ f.bound.items)) };
}

fn scalar_in(value: &Value<Sound>) -> Scalar
    ensures { result ≡ scalar_in value.now }
{
    match value {
        Value::Number(v) => Scalar::Number(*v),
        Value::Sound(_) => Scalar::Sound,
    }
}

/// Where each of these names stands.
fn places_of(
    alloc: Global,
    names: &[(NameId, Value<Sound>)],
) -> Result<Scope<NameId, usize>, AllocError>
    ensures { IfOk result (λ places. places ≡ places_from 0 names.now) }
{
    let mut places = Scope::new(alloc);
    for i in 0..names.len() {
        places.bind(names[i].0, i)?;
    }
    Ok(places)
}

/// What these names stand for, as far as it is a number.
fn scalars_of(
    alloc: Global,
    names: &[(NameId, Value<Sound>)],
) -> Result<Scope<NameId, Scalar>, AllocError>
    ensures { IfOk result (λ scalars. scalars ≡ scalars_of names.now) }
{
    let mut scalars = Scope::new(alloc);
    for i in 0..names.len() {
        scalars.bind(names[i].0, scalar_in(&names[i].1))?;
    }
    Ok(scalars)
}

// A number, or when a sound is heard.
fn timed_in(value: &Value<Sound>) -> Value<Timing>
    ensures { result ≡ timed_in value.now }
{
    match value {
        Value::Number(v) => Value::Number(*v),
        Value::Sound(sound) => Value::Sound(sound.timing),
    }
}

/// Adds when the sounds are heard that these names stand for.
///
/// # Errors
/// `AllocError` where memory is missing.
fn add_times(
    names: &[(NameId, Value<Sound>)],
    times: &mut Vec<(NameId, Value<Timing>)>,
) -> Result<(), AllocError>
    ensures { OnOk result (times.new.items ≡ times.old.items ++ times_in names.now) }
{
    for i in 0..names.len() {
        times.push((names[i].0, timed_in(&names[i].1)))?;
    }
    Ok(())
}

/// Binds a name after all that are bound.
///
/// # Errors
/// `AllocError` where memory is missing, and then all is as before.
fn bind_both(
    places: &mut Scope<NameId, usize>,
    scalars: &mut Scope<NameId, Scalar>,
    name: NameId,
    scalar: Scalar,
) -> Result<(), AllocError>
    ensures places { OnOk result (places.new ≡ places.old ++ (name, length places.old) ∷ []) }
    ensures scalars { OnOk result (scalars.new ≡ scalars.old ++ (name, scalar) ∷ []) }
    ensures same_places { OnErr result (places.new ≡ places.old) }
    ensures same_scalars { OnErr result (scalars.new ≡ scalars.old) }
{
    let place = places.len();
    let outer = scalars.len();
    scalars.bind(name, scalar)?;
    match places.bind(name, place) {
        Ok(()) => Ok(()),
        Err(fault) => {
            scalars.leave(outer);
            Err(fault)
        }
    }
}

/// The value at a place of two lists, one behind the other.
fn value_at<'b>(
    lent: &'b [(NameId, Value<Sound>)],
    bound: &'b [(NameId, Value<Sound>)],
    place: usize,
) -> &'b Value<Sound>
    requires { place < length lent.now + length bound.now }
    ensures { (other : Name × ValueOf Handle) → result.now ≡ (get_or (lent.now ++ bound.now) place other).1 }
{
    if place < lent.len() {
        &lent[place].1
    } else {
        &bound[place - lent.len()].1
    }
}

/// The value of a binding, which is a number from now on.
fn taken(binding: &mut (NameId, Value<Sound>)) -> Value<Sound>
    ensures { result ≡ binding.old.1 }
{
    replace(&mut binding.1, Value::Number(Fix::of(0)))
}

/// Gives up the sounds of all bindings but the first `len`, the first one first.
fn give_up_after(bound: &mut [(NameId, Value<Sound>)], len: usize, heap: &mut Heap<Branch>)
    requires hands { InHand heap.old (sounds_among (drop len bound.old)) }
    ensures released { ReleasesAll heap.old heap.new (sounds_among (drop len bound.old)) }
    ensures kept { take len bound.new ≡ take len bound.old }
{
    for k in len..bound.len() {
        give_up(taken(&mut bound[k]), heap);
    }
}

impl<'a> Frame<'a> {
    /// Names that a caller lends.
    ///
    /// # Errors
    /// `AllocError` where memory is missing.
    pub(crate) fn of(
        alloc: Global,
        names: &'a [(NameId, Value<Sound>)],
    ) -> Result<Frame<'a>, AllocError>
        ensures { IfOk result (λ f. f ≡ record { lent = names.now; bound = [] }) }
    {
        let places = places_of(alloc, names)?;
        let scalars = scalars_of(alloc, names)?;
        Ok(Frame {
            lent: names,
            bound: Vec::new(alloc),
            places,
            scalars,
        })
    }

    /// How many names are bound besides those that are lent.
    pub(crate) fn len(&self) -> usize
        ensures { result ≡ length self.now.bound }
    {
        self.bound.len()
    }

    /// What a name stands for.
    pub(crate) fn find(&self, x: NameId) -> Option<&Value<Sound>>
        ensures { option_map (λ v. v.now) result ≡ last_of (same_name x) (names_in self.now) }
    {
        match self.places.find(&x) {
            None => None,
            Some(place) => Some(value_at(self.lent, self.bound.as_slice(), place)),
        }
    }

    /// Binds a name to a value from here on.
    ///
    /// # Errors
    /// The value, where memory is missing. All is then as before.
    pub(crate) fn bind(&mut self, name: NameId, value: Value<Sound>) -> Result<(), Value<Sound>>
        ensures bound { OnOk result (self.new ≡ record self.old { bound = self.old.bound ++ (name, value) ∷ [] }) }
        ensures refused { OnErr result (self.new ≡ self.old) }
        ensures back { IfErr result (λ v. v ≡ value) }
    {
        let scalar = scalar_in(&value);
        match self.bound.reserve(1) {
            Err(_) => Err(value),
            Ok(()) => match bind_both(&mut self.places, &mut self.scalars, name, scalar) {
                Err(_) => Err(value),
                Ok(()) => {
                    self.bound.push_reserved((name, value));
                    Ok(())
                }
            },
        }
    }

    /// Binds a name to a value in hand.
    ///
    /// # Errors
    /// `AllocError` where memory is missing. The value is then given up, and no name is bound.
    pub(crate) fn keep(
        &mut self,
        name: NameId,
        value: Value<Sound>,
        heap: &mut Heap<Branch>,
    ) -> Result<(), AllocError>
        requires hands { InHand heap.old (sounds_of_values (value ∷ [])) }
        ensures bound { OnOk result (self.new ≡ record self.old { bound = self.old.bound ++ (name, value) ∷ [] }) }
        ensures held { OnOk result (heap.new ≡ heap.old) }
        ensures refused { OnErr result (self.new ≡ self.old) }
        ensures gives_up { OnErr result (GivesUp heap.old heap.new (sounds_of_values (value ∷ []))) }
    {
        match self.bind(name, value) {
            Ok(()) => Ok(()),
            Err(value) => {
                give_up(value, heap);
                Err(AllocError)
            }
        }
    }

    /// Undoes all bindings but those that are lent and the first `len` after them, and gives up their sounds, the first one
    /// first.
    pub(crate) fn leave(&mut self, len: usize, heap: &mut Heap<Branch>)
        requires within { len ≤ length self.old.bound }
        requires hands { InHand heap.old (sounds_among (drop len self.old.bound)) }
        ensures left { self.new ≡ record self.old { bound = take len self.old.bound } }
        ensures released { ReleasesAll heap.old heap.new (sounds_among (drop len self.old.bound)) }
    {
        let outer = self.places.len() - (self.bound.as_slice().len() - len);
        self.places.leave(outer);
        self.scalars.leave(outer);
        give_up_after(self.bound.as_mut_slice(), len, heap);
        self.bound.truncate(len);
    }

    /// When the sounds are heard that all names stand for.
    ///
    /// # Errors
    /// `AllocError` where memory is missing.
    pub(crate) fn times(&self, alloc: Global) -> Result<Binds<Timing>, AllocError>
        ensures { IfOk result (λ binds. binds.names ≡ times_in (names_in self.now)) }
    {
        let mut times = Vec::new(alloc);
        add_times(self.lent, &mut times)?;
        add_times(self.bound.as_slice(), &mut times)?;
        Ok(Binds {
            names: Items::from_vec(times),
        })
    }

    /// What an expression is under these names, with its value where it is a number or a test.
    ///
    /// # Errors
    /// `AllocError` where memory is missing.
    pub(crate) fn scalar(
        &mut self,
        alloc: Global,
        p: &Program,
        e: ExprId,
    ) -> Result<Scalar, AllocError>
        requires { e.0 < length p.now.nodes }
        ensures value { IfOk result (λ s. s ≡ scalar_of p.now e.0 (scalars_of (names_in self.old))) }
        ensures same { self.new ≡ self.old }
    {
        let outer = self.scalars.len();
        match p.scalar_under(alloc, e, &mut self.scalars) {
            Ok(scalar) => Ok(scalar),
            Err(fault) => {
                self.scalars.leave(outer);
                Err(fault)
            }
        }
    }

    /// The number that an expression is; 0 where it is none.
    ///
    /// # Errors
    /// `AllocError` where memory is missing.
    #[tactic(auto, unfolding(ny_check::specs::Values::number_of))]
    pub(crate) fn number(
        &mut self,
        alloc: Global,
        p: &Program,
        e: ExprId,
    ) -> Result<Fix, AllocError>
        requires { e.0 < length p.now.nodes }
        ensures value { IfOk result (λ v. v ≡ number_of p.now e (scalars_of (names_in self.old))) }
        ensures same { self.new ≡ self.old }
    {
        let scalar = self.scalar(alloc, p, e)?;
        Ok(number_in(scalar))
    }

    /// Whether an expression holds; false where it is no test.
    ///
    /// # Errors
    /// `AllocError` where memory is missing.
    #[tactic(auto, unfolding(ny_check::specs::Values::test_of))]
    pub(crate) fn test(&mut self, alloc: Global, p: &Program, e: ExprId) -> Result<bool, AllocError>
        requires { e.0 < length p.now.nodes }
        ensures value { IfOk result (λ b. b ≡ test_of p.now e (scalars_of (names_in self.old))) }
        ensures same { self.new ≡ self.old }
    {
        let scalar = self.scalar(alloc, p, e)?;
        Ok(holds(scalar))
    }
}
