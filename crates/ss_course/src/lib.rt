//! Runs as they are asked for, in whatever parts: which lines they print, and which checkpoints they put, up to the limits. It has
//! no code: its definitions stand in `specs/`.
#![tactic(auto)]

ghost use Rattle.ss_course.specs.Course.{Course};
ghost use Rattle.ss_course.specs.Laws.{EndsInOneWay, RestartsPrintTheRest};

use ss_run::Simulated;
use ss_safe::Local;

/// A run ends in one way: its checkpoints, their bytes, the lines between them, the time that its final line tells and the components
/// that it leaves are one thing, and so are those up to a limit, where one ends it.
pub fn a_course_ends_in_one_way<E: Simulated>()
    ensures { (c : Course) → EndsInOneWay E.kind E.saving E.meaning c }
{}

/// A run goes on from each checkpoint of a whole run: the checkpoint's bytes spell a state over the graph that is sound at their time,
/// and are accepted. In whatever parts the first run and the later one are divided, the later one, with the same stop time, prints
/// the lines behind that checkpoint and the same final line, and leaves the same components; and where the same checkpoints are
/// asked for, it puts those behind that checkpoint, byte for byte, and passes no limit. This needs a graph whose runs can be saved.
pub fn a_restart_prints_the_rest<E: Simulated + Local>()
    ensures { RestartsPrintTheRest E.kind E.saving E.meaning E.safe }
{}
