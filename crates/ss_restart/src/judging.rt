//! Judging a saved state, clause by clause.

ghost use Rattle.std.specs.Prelude.{◌≡◌, ◌<◌, ◌↔◌, ℕ, length, IsTrue, OnOk, OnErr, IfErr};
ghost use Rattle.ss_ckpt.specs.Views.{state_of};
ghost use Rattle.ss_safe.specs.Sound.{ElementSound, PayloadSound, TimeSound, TickSound, Sound};
ghost use Rattle.ss_restart.specs.declared.fault.RestartFault.TheVariants as fault;
ghost use Rattle.ss_restart.specs.Faults.{IsSpelled, IsFirstFault};
ghost use Rattle.ss_restart.specs.Ready.{IsReady, Judges, HeardAt};

use crate::fault::RestartFault;
use crate::flows::flows_match;
use crate::ticks::{has_tick, is_timed};
use ss_ckpt::Saved;
use ss_element::{Cause, Element, Event};
use ss_safe::Local;

/// Whether each element is such as a run may leave it.
fn elements_fit<E: Element>(saved: &Saved<E>) -> Result<(), RestartFault>
    requires { IsReady E.kind saved.now.model.wires saved.now.time (state_of saved.now) }
    ensures { Judges (ElementSound E.kind saved.now.model.wires saved.now.time (state_of saved.now)) fault.Element result }
{
    let elements = &saved.model.elements;
    for component in 0..elements.len() {
        if !elements[component].fits(saved.time) {
            return Err(RestartFault::Element {
                component: component as u32,
            });
        }
    }
    Ok(())
}

/// Whether what an event brings may come to the component that it tells.
fn is_heard<E: Element>(saved: &Saved<E>, event: &Event<E::Load>) -> bool
    ensures { IsTrue result ↔ HeardAt E.kind saved.now.model.wires saved.now.time saved.now.model.elements.items event.now }
{
    let Some((component, cause)) = saved.model.wires.told(event) else {
        return true;
    };
    let Some(element) = saved.model.elements.get(component as usize) else {
        return true;
    };
    match cause {
        Cause::Start | Cause::Tick { .. } => true,
        Cause::Link { .. } | Cause::Own { .. } => element.fits_load(&cause, saved.time),
    }
}

/// Whether what each event brings may come.
fn payloads_fit<E: Element>(saved: &Saved<E>) -> Result<(), RestartFault>
    ensures { Judges (PayloadSound E.kind saved.now.model.wires saved.now.time (state_of saved.now)) fault.Payload result }
{
    let events = &saved.events;
    for event in 0..events.len() {
        if !is_heard(saved, &events[event]) {
            return Err(RestartFault::Payload {
                event: event as u64,
            });
        }
    }
    Ok(())
}

/// Whether each event stands in its time.
fn times_fit<E: Element>(saved: &Saved<E>) -> Result<(), RestartFault>
    requires { IsReady E.kind saved.now.model.wires saved.now.time (state_of saved.now) }
    ensures { Judges (TimeSound E.kind saved.now.model.wires saved.now.time (state_of saved.now)) fault.Time result }
{
    for event in 0..saved.events.len() {
        if !is_timed(saved, event) {
            return Err(RestartFault::Time {
                event: event as u64,
            });
        }
    }
    Ok(())
}

/// Whether each clock that is on has a tick.
fn ticks_stand<E: Element>(saved: &Saved<E>) -> Result<(), RestartFault>
    requires ready { IsReady E.kind saved.now.model.wires saved.now.time (state_of saved.now) }
    requires times { (i : ℕ) → TimeSound E.kind saved.now.model.wires saved.now.time (state_of saved.now) i }
    ensures { Judges (TickSound E.kind saved.now.model.wires saved.now.time (state_of saved.now)) fault.Tick result }
{
    let (links, own, clocks) = saved.model.wires.counts();
    for clock in links..links + own + clocks {
        if !has_tick(saved, clock) {
            return Err(RestartFault::Tick { clock });
        }
    }
    Ok(())
}

/// Whether a run can go on from a saved state, or what its first fault is: an element that no run leaves so (`Element`), a
/// load that its component can't be brought (`Payload`), an event that comes before the checkpoint's time, too late, or as
/// a tick that isn't its clock's next (`Time`), a clock that is on and has no tick (`Tick`), and a channel of a network's
/// line whose flits and credits aren't what its queue can hold (`Unbalanced`). It needs a state that some bytes spell over
/// a model that was made. It takes no memory, and never answers `NoMemory`. What is judged is this project's own.
pub fn sound<E: Local>(saved: &Saved<E>) -> Result<(), RestartFault>
    requires { IsSpelled E.kind E.allowed E.saving saved.now.model.wires saved.now.time (state_of saved.now) }
    ensures sound { OnOk result (Sound E.kind saved.now.model.wires saved.now.time (state_of saved.now)) }
    ensures unsound { OnErr result (Sound E.kind saved.now.model.wires saved.now.time (state_of saved.now) → ⊥) }
    // Which fault it is.
    ensures first { IfErr result (IsFirstFault E.kind saved.now.model.wires saved.now.time (state_of saved.now)) }
{
    elements_fit(saved)?;
    payloads_fit(saved)?;
    times_fit(saved)?;
    ticks_stand(saved)?;
    flows_match(saved)?;
    Ok(())
}
