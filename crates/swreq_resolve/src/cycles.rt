//! The first protocol that inherits itself.

ghost use Rattle.std.specs.Prelude.{◌≡◌, length, MatchOption};
ghost use Rattle.swreq_resolve.specs.Cycles.{HasNoLoop, IsFirstLoop, IsLoopAt};

use swreq_closure::Closure;
use swreq_decl::Skeleton;

/// The first of the places below `count` that leads to itself.
fn first_loop(inherits: &Closure, count: usize) -> Option<usize>
    ensures { MatchOption result (HasNoLoop inherits.now count) (IsFirstLoop inherits.now count) }
{
    for i in 0..count {
        if inherits.leads(i, i) {
            return Some(i);
        }
    }
    None
}

/// Where the first protocol that inherits itself has its name, if there is one.
pub fn cycle_of(skeleton: &Skeleton, inherits: &Closure) -> Option<u32>
    ensures { MatchOption result (HasNoLoop inherits.now (length skeleton.now.protocols))
        (IsLoopAt inherits.now skeleton.now) }
{
    let protocols = skeleton.protocols.items();
    let place = first_loop(inherits, protocols.len())?;
    Some(protocols[place].name.start)
}
