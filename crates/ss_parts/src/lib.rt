//! A simulation in parts: what its windows are, in terms of the run of one ordered list of events. Each part
//! holds some of the components, with the events that these receive. In a window every part handles its own
//! events up to the window's end, and then the parts exchange what they sent to each other. The definitions
//! stand in `specs/`; each theorem stands on a function here.
#![tactic(auto)]

ghost use Rattle.ss_parts.specs.Windows.{OfRuns, RunsAlone, ComesLate, Exchanges, TellsNext, AreWindows, IsCounted, EndsAtCuts, KeepsBounds};

use ss_element::Element;

/// A part that runs alone to a window's end does what the whole does: its components, its lines and what it
/// sends are the whole's, each of its events may be handled, and it comes to that end.
pub fn a_window_is_a_projection<E: Element>()
    ensures { OfRuns E.kind E.safe (λ kind w d s. RunsAlone kind w d s) }
{}

/// What a part sends to another in a window arrives at that window's end or later.
pub fn what_crosses_comes_late<E: Element>()
    ensures { OfRuns E.kind E.safe (λ kind w d s. ComesLate kind w d s) }
{}

/// Parts that take in what the others sent to them, giver by giver in any order, are the parts of the whole
/// when the next window begins.
pub fn batches_give_the_next_projection<E: Element>()
    ensures { OfRuns E.kind E.safe (λ kind w d s. Exchanges kind w d s) }
{}

/// The least time of the next window, and whether the components agree to end, from what each part knows of
/// itself at the end of a window.
pub fn parts_tell_the_next_window<E: Element>()
    ensures { OfRuns E.kind E.safe (λ kind w d s. TellsNext kind w d s) }
{}

/// The windows, one after another, are the run of the one list, and the lines of all parts, merged window by
/// window, are its lines.
pub fn windows_are_one_run<E: Element>()
    ensures { OfRuns E.kind E.safe (λ kind w d s. AreWindows kind w d s) }
{}

/// A run has one number of windows, at most 2^62.
pub fn windows_are_counted<E: Element>()
    ensures { OfRuns E.kind E.safe (λ kind w d s. IsCounted kind w d s) }
{}

/// A window ends at the least of the times at which it may have to end.
pub fn windows_end_at_cuts<E: Element>()
    ensures { OfRuns E.kind E.safe (λ kind w d s. EndsAtCuts kind w d s) }
{}

/// The bound as known in a window is never below the run's bound, no window passes the bound, and the last
/// window leaves the whole as the run does that ends there.
pub fn windows_keep_the_bound<E: Element>()
    ensures { OfRuns E.kind E.safe (λ kind w d s. KeepsBounds kind w d s) }
{}
