use crate::rows::RowTerm;
use smallvec::SmallVec;
use std::alloc::{AllocError, Global};
use std::marker::Model;

/// A list of terms. Up to four stand in the value itself, and take no memory.
#[derive(Drop)]
pub struct Terms {
    kept: SmallVec<RowTerm, 4>,
}

impl Model for Terms {
    ghost use Rattle.std.specs.Prelude.{List};
    ghost use Rattle.linear_rows.specs.declared.rows.RowTerm.{RowTerm};

    ghost Value = { List RowTerm };

    ghost view = { λ t. t.kept.items };
}

impl Terms {
    ghost use Rattle.std.specs.Prelude.{◌≡◌, [], ◌∷◌, ◌++◌, OnErr, OnOk};

    /// No terms.
    pub fn new(alloc: Global) -> Terms
        ensures { result ≡ [] }
    {
        Terms {
            kept: SmallVec::new(alloc),
        }
    }

    /// Adds a term at the end. Where memory is refused, the list stays as it was.
    pub fn push(&mut self, term: RowTerm) -> Result<(), AllocError>
        ensures added { OnOk result (self.new ≡ self.old ++ term ∷ []) }
        ensures unchanged { OnErr result (self.new ≡ self.old) }
    {
        self.kept.push(term)?;
        Ok(())
    }

    /// The terms.
    pub fn as_slice(&self) -> &[RowTerm]
        ensures { result.now ≡ self.now }
    {
        self.kept.as_slice()
    }
}
