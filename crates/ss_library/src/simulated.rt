//! Graphs as runs of these kinds.

use crate::kinds::Any;
use ss_run::Simulated;

impl Simulated for Any {
    ghost use Rattle.ss_library.specs.Meaning.{any_meaning};
    ghost use Rattle.ss_library.specs.Opens.{any_opens};

    ghost meaning = { any_meaning };

    ghost opens = { any_opens };
}
