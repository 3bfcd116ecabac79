//! A selection of the requirements of the protocols.
ghost use Rattle.std.specs.Prelude.{◌≡◌, length};

use crate::setting::Setting;

/// The requirements of the protocols of a text whose flags are set. Each has a flag.
#[derive(Clone, Copy)]
pub(crate) struct Selection<'a> {
    pub setting: Setting<'a>,
    pub flags: &'a [bool],
    ghost flagged: { length flags.now ≡ length setting.places.now },
}
