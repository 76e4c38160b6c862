//! An endpoint that passes by the ticks that change nothing.

ghost use Rattle.std.specs.Prelude.{◌≡◌, ◌<◌, ◌^◌, ◌++◌, OnOk};
ghost use Rattle.std.specs.Bool.{OnTrue};
ghost use Rattle.ss_element.specs.Gives.{Gives};
ghost use Rattle.mr_nic.specs.Endpoint.{still, ticked, endpoint_handled, CanTick, endpoint_meets};
ghost use Rattle.mr_nic.specs.Saved.{endpoint_form};
ghost use Rattle.mr_nic.specs.Quiet.{same_until};

use crate::nic::Endpoint;
use mr_flow::Load;
use ss_element::{Acts, RestoreFault};
use ss_model::Cause;
use ss_wire::Reader;
use std::alloc::AllocError;
use std::marker::Model;

/// An endpoint, with the times at which its ticks change nothing: from `quiet_from` on and before `quiet_until`, as long as nothing
/// else happens to it. Contracts see the endpoint.
#[derive(Drop)]
pub struct Station {
    endpoint: Endpoint,
    quiet_from: u64,
    quiet_until: u64,
}

impl Model for Station {
    ghost use Rattle.mr_nic.specs.declared.nic.Endpoint.{Endpoint};
    ghost use Rattle.mr_nic.specs.Quiet.{IsQuiet};

    ghost Value = { Endpoint };

    ghost view = { λ s. s.endpoint };

    ghost invariant = { λ s. IsQuiet s.endpoint s.quiet_from s.quiet_until };
}

// Until when time alone changes nothing for a line: where it is busy, until it is free, and else for good.
fn same_until(line_free: u64, now: u64) -> u64
    ensures { result ≡ same_until line_free now }
{
    if now < line_free { line_free } else { u64::MAX }
}

impl Station {
    /// An endpoint of which no quiet time is known.
    pub(crate) fn new(endpoint: Endpoint) -> Station
        ensures { result ≡ endpoint }
    {
        Station {
            endpoint,
            quiet_from: 0,
            quiet_until: 0,
        }
    }

    /// The endpoint.
    pub(crate) fn endpoint(&self) -> &Endpoint
        ensures { result.now ≡ self.now }
    {
        &self.endpoint
    }

    /// Whether a tick at a time is known to change nothing.
    pub(crate) fn is_quiet(&self, now: u64) -> bool
        ensures { OnTrue result (ticked self.now now ≡ still self.now) }
    {
        self.quiet_from <= now && now < self.quiet_until
    }

    // Passes by a quiet tick. Any other is the endpoint's, and one that makes no packet and asks for nothing begins a quiet time.
    fn tick(&mut self, now: u64, acts: &mut Acts<Load>) -> Result<(), AllocError>
        requires early { now < 2 ^ 62 }
        requires can { CanTick self.old }
        ensures state { OnOk result (self.new ≡ (ticked self.old now).state) }
        ensures actions { OnOk result (acts.new ≡ acts.old ++ (ticked self.old now).actions) }
    {
        if self.is_quiet(now) {
            return Ok(());
        }
        self.quiet_until = 0;
        let sent = self.endpoint.sent;
        let asked = acts.len();
        self.endpoint.tick(now, acts)?;
        if self.endpoint.sent == sent && acts.len() == asked {
            self.quiet_from = now;
            self.quiet_until = same_until(self.endpoint.link.line_free(), now);
        }
        Ok(())
    }

    /// Handles a cause as the endpoint does. All but a tick ends its quiet time.
    pub(crate) fn handle(
        &mut self,
        now: u64,
        cause: &Cause<Load>,
        acts: &mut Acts<Load>,
    ) -> Result<(), AllocError>
        requires early { now < 2 ^ 62 }
        requires meets { endpoint_meets self.old cause.now }
        ensures state { OnOk result (self.new ≡ (endpoint_handled self.old now cause.now).state) }
        ensures actions { OnOk result (acts.new ≡ acts.old ++ (endpoint_handled self.old now cause.now).actions) }
    {
        match cause {
            Cause::Tick { .. } => self.tick(now, acts),
            Cause::Start | Cause::Link { .. } | Cause::Own { .. } => {
                self.quiet_until = 0;
                self.endpoint.handle(now, cause, acts)
            }
        }
    }

    /// Takes on what was written, as an endpoint whose start event was handled and of which no quiet time is known.
    pub(crate) fn restore(&mut self, bytes: &mut Reader<'_>) -> Result<(), RestoreFault>
        ensures { Gives (λ u. self.new) result bytes.new ((endpoint_form self.old).read bytes.old) }
    {
        self.quiet_until = 0;
        self.endpoint.restore(bytes)
    }
}
