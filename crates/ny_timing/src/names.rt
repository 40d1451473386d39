//! What names stand for: numbers, and when their sounds are heard.

ghost use Rattle.std.specs.Prelude.{◌≡◌, [], ◌∷◌, ◌++◌, length, take, OnOk, IfOk, unwrap_or};
ghost use Rattle.ny_num.specs.Sound.{IsTiming};
ghost use Rattle.ny_scope.specs.Scopes.{last_of};
ghost use Rattle.ny_resolve.specs.Keys.{same_name};
ghost use Rattle.ny_check.specs.Values.{scalar_named, scalars_of, scalar_in};
ghost use Rattle.ny_check.specs.declared.value.Value.TheVariants as value;
ghost use Rattle.ny_timing.specs.Timings.{AllTimed, IsTimedValue, timing_in, no_time};
ghost use Rattle.ny_timing.specs.Found.{scalar_of_found, time_of_found};
ghost use Rattle.ny_timing.specs.Held.{value_of_held};

use crate::found::{Found, no_time};
use ny_check::{NameId, Value};
use ny_num::{Fix, Rate, Timing};
use ny_scope::Scope;
use std::alloc::{AllocError, Global};
use std::marker::Model;

/// A number, or when a sound is heard.
#[derive(Clone, Copy)]
pub enum Held {
    Number(Fix),
    Sound(Timing),
}

/// Names bound to values, one after another. The last binding of a name counts.
#[derive(Drop)]
pub(crate) struct Names {
    scope: Scope<NameId, Held>,
}

impl Model for Names {
    ghost use Rattle.ny_timing.specs.Timings.{Timed, AllTimed};
    ghost use Rattle.ny_timing.specs.Held.{values_of_held};

    ghost Value = { Timed };

    ghost view = { λ n. values_of_held n.scope };

    ghost invariant = { λ n. AllTimed (values_of_held n.scope) };
}

fn kept(value: &Value<Timing>) -> Held
    ensures { value_of_held result ≡ value.now }
{
    match value {
        Value::Number(v) => Held::Number(*v),
        Value::Sound(t) => Held::Sound(*t),
    }
}

fn held_found(held: Held, rate: Rate) -> Found
    requires { IsTimedValue (value_of_held held) }
    ensures scalar { scalar_of_found result ≡ scalar_in (value_of_held held) }
    ensures timing { time_of_found rate result ≡ timing_in rate (value_of_held held) }
    ensures bounds { IsTiming (time_of_found rate result) }
{
    match held {
        Held::Number(v) => Found::Number(v),
        Held::Sound(t) => Found::Sound(t),
    }
}

impl Names {
    /// No name.
    pub(crate) fn new(alloc: Global) -> Names
        ensures { result ≡ [] }
    {
        Names {
            scope: Scope::new(alloc),
        }
    }

    /// These names.
    pub(crate) fn of(alloc: Global, names: &[(NameId, Value<Timing>)]) -> Result<Names, AllocError>
        requires { AllTimed names.now }
        ensures { IfOk result (λ n. n ≡ names.now) }
    {
        let mut scope = Scope::new(alloc);
        for i in 0..names.len() {
            scope.bind(names[i].0, kept(&names[i].1))?;
        }
        Ok(Names { scope })
    }

    /// How many bindings there are.
    pub(crate) fn len(&self) -> usize
        ensures { result ≡ length self.now }
    {
        self.scope.len()
    }

    /// Binds a name to a value from here on.
    pub(crate) fn bind(&mut self, name: NameId, value: Value<Timing>) -> Result<(), AllocError>
        requires { IsTimedValue value }
        ensures { OnOk result (self.new ≡ self.old ++ (name, value) ∷ []) }
    {
        self.scope.bind(name, kept(&value))
    }

    /// Undoes all bindings but the first `len`.
    pub(crate) fn leave(&mut self, len: usize)
        ensures { self.new ≡ take len self.old }
    {
        self.scope.leave(len);
    }

    /// What a name stands for, and when it is heard; no sound of this rate where it is a number.
    pub(crate) fn find(&self, x: NameId, rate: Rate) -> Found
        ensures scalar { scalar_of_found result ≡ scalar_named x (scalars_of self.now) }
        ensures timing { time_of_found rate result ≡ timing_in rate (unwrap_or (last_of (same_name x) self.now) (value.Sound (no_time rate))) }
        ensures bounds { IsTiming (time_of_found rate result) }
    {
        let none = Held::Sound(no_time(rate));
        held_found(self.scope.find(&x).unwrap_or(none), rate)
    }
}
