//! A vector that contracts see as the list of its items.
ghost use Rattle.std.specs.Prelude.{◌≡◌};

use std::marker::Model;

/// A `Vec<T>` in a field or a variant of a public type, seen as its list.
#[derive(Drop)]
pub struct Several<T> {
    items: Vec<T>,
}

impl<T> Model for Several<T> {
    ghost use Rattle.std.specs.Prelude.{List};
    ghost use Rattle.std.specs.Coded.{coded_list};

    ghost Value = { List T };

    ghost coded = { coded_list T.code };

    ghost view = { λ a. a.items.items };
}

impl<T> Several<T> {
    /// The vector's items, in their order. Takes no memory.
    pub fn of(vec: Vec<T>) -> Several<T>
        ensures { result ≡ vec.items }
    {
        Several { items: vec }
    }

    /// The items, in their order.
    pub fn slice(&self) -> &[T]
        ensures { result.now ≡ self.now }
    {
        self.items.as_slice()
    }

    /// The vector, to be changed. Takes no memory.
    pub fn into_vec(self) -> Vec<T>
        ensures { result.items ≡ self }
    {
        let Several { items } = self;
        items
    }
}
