ghost use Rattle.std.specs.Prelude.{◌≡◌, ◌<◌, ◌^◌, length};

use std::marker::Model;

/// A list that fits a line.
#[derive(Drop)]
pub struct Row<T> {
    items: Vec<T>,
}

impl<T> Model for Row<T> {
    ghost use Rattle.std.specs.Prelude.{List, ◌<◌, ◌^◌, length};

    ghost Value = { List T };

    ghost view = { λ row. row.items.items };

    ghost invariant = { λ row. length row.items.items < 2 ^ 32 };
}

impl<T> Row<T> {
    /// These items.
    pub fn of(items: Vec<T>) -> Row<T>
        requires { length items.items < 2 ^ 32 }
        ensures { result ≡ items.items }
    {
        Row { items }
    }

    pub fn as_slice(&self) -> &[T]
        ensures items { result.now ≡ self.now }

        // What holds of every row.
        ensures few { length self.now < 2 ^ 32 }
    {
        &self.items
    }

    pub fn into_vec(self) -> Vec<T>
        ensures { result.items ≡ self }
    {
        self.items
    }
}
