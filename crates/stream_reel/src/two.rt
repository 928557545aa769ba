//! Up to two values.

ghost use Rattle.std.specs.Prelude.{◌≡◌, ◌<◌, ◌≤◌, ◌∷◌, [], ◌++◌, length, IfSome, IfNone, List, false, true};

use std::marker::Model;

/// Up to two values, first in, first out. Contracts see their list.
#[derive(Drop)]
pub struct Two<T> {
    first: Option<T>,
    second: Option<T>,
}

impl<T> Model for Two<T> {
    ghost use Rattle.std.specs.Prelude.{List, ◌++◌, IsNone, option_to_list};

    ghost Value = { List T };

    ghost view = { λ t. option_to_list t.first ++ option_to_list t.second };

    ghost invariant = { λ t. IsNone t.first → IsNone t.second };
}

impl<T: Drop> Two<T> {
    pub(crate) fn new() -> Two<T>
        ensures { result ≡ [] }
    {
        Two {
            first: None,
            second: None,
        }
    }

    pub(crate) fn is_full(&self) -> bool
        ensures most { length self.now ≤ 2 }
        ensures room { result ≡ false → length self.now < 2 }
        ensures full { result ≡ true → length self.now ≡ 2 }
    {
        self.second.is_some()
    }

    pub(crate) fn is_empty(&self) -> bool
        ensures most { length self.now ≤ 2 }
        ensures some { result ≡ false → 0 < length self.now }
        ensures none { result ≡ true → self.now ≡ [] }
    {
        self.first.is_none()
    }

    /// Puts a value behind those that are there.
    pub(crate) fn push(&mut self, value: T)
        requires { length self.old < 2 }
        ensures { self.new ≡ self.old ++ value ∷ [] }
    {
        if self.first.is_none() {
            self.first = Some(value);
        } else {
            self.second = Some(value);
        }
    }

    /// Takes the first one.
    pub(crate) fn pop(&mut self) -> Option<T>
        ensures some { IfSome result (λ value. self.old ≡ value ∷ self.new) }
        ensures none { IfNone result ((self.old ≡ []) × (self.new ≡ [])) }
    {
        let front = self.first.take();
        self.first = self.second.take();
        front
    }

    /// The last one.
    pub(crate) fn last(&self) -> &T
        requires { 0 < length self.now }
        ensures { (before : List T) × (self.now ≡ before ++ result.now ∷ []) }
    {
        match (&self.first, &self.second) {
            (_, Some(value)) => value,
            (Some(value), None) => value,
            _ => unreachable!(),
        }
    }
}
