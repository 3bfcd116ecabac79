//! The conformance path that is given.
ghost use Rattle.std.specs.Prelude.{◌≡◌, ◌<◌, IfOk, length};
ghost use Rattle.swreq_machine.specs.swreq_derive.{declared.requirements.Requirement.TheVariants.{Conf}, Derivation.{Derivable}, Derivation.TermRequirement.{Conforms}, Derivation.TermStatement.{Requires}, Facts.{generic_params}, Paths.{IsGivenPath}};
ghost use Rattle.swreq_machine.specs.swreq_world.{FactsAt.{facts_of, source_of, written_list}, Worlds.{signature_at}};
ghost use Rattle.swreq_machine.specs.swreq_symbols.Texts.{IsRequirementOfText, term_of, world_of};
ghost use Rattle.swreq_confpath.specs.{declared.places.Place.TheVariants.{Start}, Searches.{IsGiven, IsMachineFor}};

use crate::aim::Aim;
use crate::parting::changed_symbols;
use crate::path::ConfPath;
use crate::places::Place;
use crate::sought::{Sought, follow};
use crate::tried::Tried;
use crate::trying::go_on;
use std::alloc::{AllocError, Global};
use swreq_machine::Machine;
use swreq_machine::param::{ProtoId, TermId};
use swreq_machine::symbols::Text;
use swreq_print::lowering::FuncId;

/// The path that is given for the conformance that is sought.
///
/// Lists of numbers are tried in their order, the shorter ones first, but for those that lead to a place from which the one that is sought
/// cannot be reached. What was tried grows while the search goes on, so the search ends: with the path, since there is one, or when memory
/// runs out.
fn find(aim: &Aim<'_>) -> Result<ConfPath, AllocError>
    ensures { IfOk result (IsGiven aim.now.sought) }
{
    let mut tried = Tried::start(aim.sought.alloc)?;
    let mut next = 0;
    while next < tried.len() {
        match go_on(aim, &mut tried, next)? {
            Some(path) => return Ok(path),
            None => next += 1,
        }
    }
    unreachable!()
}

/// The conformance path that is given for `[t : p]`: of those with the fewest conformances the one whose numbers are the least from the
/// left.
///
/// The text is well formed, as far as its protocols and this signature go, m is the machine of the signature, and `[t : p]` is
/// derivable from its list.
pub fn shortest(
    alloc: Global,
    text: &Text<'_>,
    machine: &Machine,
    f: FuncId,
    t: TermId,
    p: ProtoId,
) -> Result<ConfPath, AllocError>
    requires machine { IsMachineFor text.now f machine.now }
    requires asked { IsRequirementOfText text.now (Conf t p) }
    requires derivable { Derivable (facts_of (world_of text.now))
        (source_of (signature_at (world_of text.now) f))
        (Requires (Conforms (term_of text.now t) p)) }
    ensures path { IfOk result (λ path. IsGivenPath (facts_of (world_of text.now))
        (generic_params (signature_at (world_of text.now) f).params)
        (written_list (signature_at (world_of text.now) f))
        path.first path.steps (term_of text.now t) p) }
{
    let list = text.world.bare_signature(alloc, f)?;
    let changed = changed_symbols(alloc, machine.rules())?;
    let sought = Sought {
        alloc,
        text: *text,
        machine,
        list: &list,
        changed: &changed,
        subject: t,
        proto: p,
    };
    let target = follow(&sought, &Place::Start, t, p)?;
    let aim = Aim { sought, target };
    find(&aim)
}
