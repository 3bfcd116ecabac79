// Lists of written requirements.
ghost use Rattle.std.specs.Prelude.{◌≡◌, map, IfOk};

use std::alloc::{AllocError, Global};
use std::marker::Model;
use swreq_lexicon::derive::Requirement;
use swreq_lowering::Written;
use swreq_text::Seq;

/// Written requirements, with the places of their sides and without.
#[derive(Drop)]
pub struct RequirementList {
    written: Seq<Written>,
    bare: Seq<Requirement>,
}

impl Model for RequirementList {
    ghost use Rattle.std.specs.Prelude.{◌≡◌, List, map};
    ghost use Rattle.swreq_lowering.specs.declared.ids.Written.{Written};

    ghost Value = { List Written };

    ghost view = { λ r. r.written };

    ghost invariant = { λ r. r.bare ≡ map (λ w. w.requirement) r.written };
}

impl RequirementList {
    /// The requirements of the list.
    pub fn of(alloc: Global, written: Vec<Written>) -> Result<RequirementList, AllocError>
        ensures { IfOk result (λ r. r ≡ written.items) }
    {
        let bare = bare_of(alloc, &written)?;
        Ok(RequirementList {
            written: Seq::new(written),
            bare: Seq::new(bare),
        })
    }

    /// The requirements with the places of their sides.
    pub fn written(&self) -> &[Written]
        ensures { result.now ≡ self.now }
    {
        self.written.items()
    }

    /// The requirements alone.
    pub fn bare(&self) -> &[Requirement]
        ensures { result.now ≡ map (λ w. w.requirement) self.now }
    {
        self.bare.items()
    }
}

/// The requirements without the places of their sides.
pub fn bare_of(alloc: Global, written: &[Written]) -> Result<Vec<Requirement>, AllocError>
    ensures { IfOk result (λ v. v.items ≡ map (λ w. w.requirement) written.now) }
{
    written.iter().map(|w| w.requirement).collect(alloc)
}
