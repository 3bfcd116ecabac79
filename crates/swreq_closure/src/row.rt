// Rows that several places share.
ghost use Rattle.std.specs.Prelude.{◌≡◌, IfOk};

use crate::bits::Bits;
use std::alloc::{AllocError, Global};
use std::marker::Model;
use std::rc::Rc;

/// The places that chains of steps lead to from one place, or from each of several.
#[derive(Drop)]
pub struct Row {
    places: Rc<Bits>,
}

impl Model for Row {
    ghost use Rattle.std.specs.Prelude.{List, ℕ};

    ghost Value = { List ℕ };

    ghost view = { λ r. r.places.value };
}

impl Row {
    /// The row that has these places.
    pub fn of(alloc: Global, places: Bits) -> Result<Self, AllocError>
        ensures { IfOk result (λ row. row ≡ places) }
    {
        let places = Rc::new(alloc, places)?;
        Ok(Row { places })
    }

    /// This row once more. Its words are not copied.
    pub fn shared(&self) -> Result<Self, AllocError>
        ensures { IfOk result (λ row. row ≡ self.now) }
    {
        let places = self.places.clone()?;
        Ok(Row { places })
    }

    /// The places that the chains lead to.
    pub fn places(&self) -> &Bits
        ensures { result.now ≡ self.now }
    {
        self.places.as_ref()
    }
}
