//! The numbers that core kinds send each other.

ghost use Rattle.std.specs.Prelude.{◌≡◌, ◌∷◌, [], ◌++◌, OnOk};
ghost use Rattle.mr_flow.specs.declared.Load.TheVariants as net;
ghost use Rattle.ss_kinds.specs.Number.{sent, sends, load_fits, cause_fits};

use mr_flow::Load;
use ss_element::Acts;
use ss_model::{Action, Cause};
use std::alloc::AllocError;

/// Sends a copy of a load out of the first port.
pub fn send_load(load: &Load, acts: &mut Acts<Load>) -> Result<(), AllocError>
    ensures { OnOk result (acts.new ≡ acts.old ++ sent load.now ∷ []) }
{
    acts.push(Action::Send {
        port: 0,
        extra: 0,
        load: *load,
    })
}

/// Sends a number out of the first port.
pub fn send(n: u32, acts: &mut Acts<Load>) -> Result<(), AllocError>
    ensures { OnOk result (acts.new ≡ acts.old ++ sends n ∷ []) }
{
    send_load(&Load::Core { n }, acts)
}

/// A number in a copy of the load that came. A load is as large as a packet, and is copied faster than it is made anew.
pub fn number_in(came: &Load, n: u32) -> Load
    ensures { result ≡ net.Core n }
{
    let mut load = *came;
    if let Load::Core { n: number } = &mut load {
        *number = n;
        load
    } else {
        Load::Core { n }
    }
}

/// Whether a load is a number.
fn load_fits(load: &Load) -> bool
    ensures { result ≡ load_fits load.now }
{
    match load {
        Load::Core { n } => u64::from(*n) < 1 << 32,
        Load::Net(_) => false,
    }
}

/// Whether a cause brings a number, where it brings a load.
pub fn cause_fits(cause: &Cause<Load>) -> bool
    ensures { result ≡ cause_fits cause.now }
{
    match cause {
        Cause::Start | Cause::Tick { .. } => true,
        Cause::Link { load, .. } | Cause::Own { load, .. } => load_fits(load),
    }
}
