//! Lists that lie behind a `Box`.

ghost use Rattle.std.specs.Prelude.{◌≡◌, IfOk};

use std::alloc::{AllocError, Global};
use std::marker::Model;

/// Items in their order, behind a `Box`, so that a variant of an enum takes no more room than a word for them. A contract
/// sees them as their list.
#[derive(Debug, Drop)]
pub struct Behind<T> {
    items: Box<Vec<T>>,
}

impl<T> Model for Behind<T> {
    ghost use Rattle.std.specs.Prelude.{List};

    ghost Value = { List T };

    ghost view = { λ s. s.items.value.items };
}

impl<T: Drop> Behind<T> {
    /// These items, in this order.
    pub fn new(alloc: Global, items: Vec<T>) -> Result<Behind<T>, AllocError>
        ensures { IfOk result (λ behind. behind ≡ items.items) }
    {
        let items = Box::new(alloc, items)?;
        Ok(Behind { items })
    }

    /// The items as a slice.
    pub fn as_slice(&self) -> &[T]
        ensures { result.now ≡ self.now }
    {
        self.items.as_slice()
    }

    /// The items as a `Vec` again; takes no memory.
    pub fn into_vec(self) -> Vec<T>
        ensures { result.items ≡ self }
    {
        let Behind { items } = self;
        Box::into_inner(items)
    }
}
