//! Scripts whose lines the caller reads.
ghost use Rattle.std.specs.Prelude.{◌≡◌};

use crate::answering::Script;

/// A script whose caller gives one line after another. It keeps its whole history.
#[derive(Drop)]
pub struct ScriptRun {
    pub(crate) script: Script,
    pub(crate) ghost whole: { script.session.kernel.kept_from ≡ 0 },
}
