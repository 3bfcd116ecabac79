// The world of a skeleton whose names resolve.
ghost use Rattle.std.specs.Prelude.{◌≡◌, ◌≤◌, ◌⊎◌, length, IfOk, IfErr, IsOk, Err};
ghost use Rattle.swreq_param.specs.Tables.{Extends};
ghost use Rattle.swreq_lexicon.specs.swreq_decl.Skeletons.{StandsFor};
ghost use Rattle.swreq_lexicon.specs.swreq_names.Names.{HasDeclared};
ghost use Rattle.swreq_resolve.specs.{Resolving.{Resolve, RefusesSkeleton}, declared.refusal.NameErr.{NameErr}, declared.refusal.NameErr.TheVariants.{Memory}};
ghost use Rattle.swreq_lexicon.specs.Texts.{IsLexiconOf};
ghost use Rattle.swreq_lowering.specs.Short.{HasShortLists};
ghost use Rattle.swreq_world.specs.{ByTable.{world_by, IsOverTable}, Short.{IsShort}, TextOver.{IsTextOver}, WorldOf.{IsWorldOf}};

use crate::laws::{worlds_are_closed, worlds_are_short};
use crate::making::lists_of;
use crate::world::World;
use std::alloc::{AllocError, Global};
use swreq_lex::laws::tokens_are_slices;
use swreq_lexicon::Lexicon;
use swreq_lexicon::decl::Skeleton;
use swreq_lexicon::names::Names;
use swreq_lowering::laws::lists_are_short;
use swreq_lowering::words_of;
use swreq_param::ParamTable;
use swreq_resolve::{NameErr, resolve_names};

/// The world of a skeleton with this lexicon.
fn assemble(
    alloc: Global,
    text: &[u8],
    skeleton: &Skeleton,
    lexicon: Box<Lexicon>,
    table: &mut ParamTable,
) -> Result<World, AllocError>
    requires limit { length text.now ≤ 1048576 }
    requires stands { StandsFor text.now skeleton.now }
    requires short { HasShortLists text.now skeleton.now }
    requires lexicon { IsLexiconOf text.now skeleton.now lexicon.value }
    ensures world { IfOk result (λ w. IsWorldOf text.now skeleton.now (world_by table.new w)) }
    ensures over { IfOk result (IsOverTable table.new) }
    ensures extends { Extends table.old table.new }
{
    tokens_are_slices(text);
    let words = words_of(text, skeleton, &lexicon);
    let made = lists_of(alloc, table, &words)?;
    Ok(World::of(lexicon, made))
}

/// The world of a skeleton with these names.
fn with_names(
    alloc: Global,
    text: &[u8],
    skeleton: &Skeleton,
    names: Names,
    table: &mut ParamTable,
) -> Result<World, AllocError>
    requires limit { length text.now ≤ 1048576 }
    requires stands { StandsFor text.now skeleton.now }
    requires declared { HasDeclared text.now skeleton.now names }
    ensures world { IfOk result (λ w. IsWorldOf text.now skeleton.now (world_by table.new w)) }
    ensures over { IfOk result (IsOverTable table.new) }
    ensures extends { Extends table.old table.new }
{
    lists_are_short(text);
    let lexicon = Box::new(alloc, Lexicon::of(alloc, text, skeleton, names)?)?;
    assemble(alloc, text, skeleton, lexicon, table)
}

impl World {
    /// The world of the skeleton that stands for a text of at most 1,048,576 bytes. Ok if and only if its names resolve and no
    /// protocol inherits itself, and then the table has each type parameter of the text, and all that is written is of the world.
    ///
    /// Where they do not, the refusal is of the name with the least offset among those that are refused. `Cycle` comes only
    /// where no name is refused, at the name of the first protocol in written order that inherits itself. On
    /// every answer the table begins with the one that was given, and after a refusal it has some of the type parameters of the text.
    pub fn resolve(
        alloc: Global,
        text: &[u8],
        skeleton: &Skeleton,
        table: &mut ParamTable,
    ) -> Result<World, NameErr>
        requires limit { length text.now ≤ 1048576 }
        requires stands { StandsFor text.now skeleton.now }
        ensures world { IfOk result
            (λ w. IsWorldOf text.now skeleton.now (world_by table.new w)) }
        ensures text { IfOk result (IsTextOver table.new) }
        ensures extends { Extends table.old table.new }
        ensures ok { IsOk result → Resolve text.now skeleton.now }
        ensures resolves { Resolve text.now skeleton.now → IsOk result ⊎ (result ≡ Err Memory) }
        ensures refused { IfErr result
            (λ e. RefusesSkeleton text.now skeleton.now e ⊎ (e ≡ Memory)) }
        ensures refuses { (e : NameErr) → RefusesSkeleton text.now skeleton.now e
            → (result ≡ Err e) ⊎ (result ≡ Err Memory) }
    {
        worlds_are_closed(text);
        worlds_are_short(text);
        let names = resolve_names(alloc, text, skeleton)?;
        Ok(with_names(alloc, text, skeleton, names, table)?)
    }
}
