//! The reader of a text.

ghost use Rattle.swreq_print.specs.Reading.{TellsApart};
ghost use Rattle.swreq_lines.specs.Reader.{TellsApart-prop};

use std::alloc::Global;
use swreq_print::lexicon::Lexicon;

/// Reads words as the ids that they name, where names tell ids apart.
#[derive(Drop)]
pub(crate) struct Reader<'a> {
    pub alloc: Global,
    pub names: &'a Lexicon,
    ghost tells_apart: { TellsApart names.now } by { TellsApart-prop names.now },
}
