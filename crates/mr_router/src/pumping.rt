//! What a router's ports send.

ghost use Rattle.std.specs.Prelude.{◌≡◌, ◌<◌, ◌≤◌, ◌^◌, ◌++◌, length, map, OnOk, IfSome};
ghost use Rattle.mr_flow.specs.Side.{sent};
ghost use Rattle.mr_router.specs.Router.{port_at, port_pumped, sends_of, all_sent, counted, all_counted, changed, all_idle};

use crate::port::Port;
use mr_flow::{Load, NetLoad};
use ss_element::{Action, Acts};
use ss_stats::StatSet;
use ss_tally::tally;
use std::alloc::AllocError;

// Lets a port send a packet, where one may go.
fn pump(
    ports: &mut [Port],
    index: usize,
    stats: &mut StatSet,
    place: Option<usize>,
    now: u64,
    acts: &mut Acts<Load>,
) -> Result<(), AllocError>
    requires here { index < length ports.old }
    requires few { length ports.old ≤ 256 }
    requires early { now < 2 ^ 62 }
    requires place { IfSome place (λ i. i < length stats.old) }
    ensures ports { OnOk result (ports.new ≡ changed ports.old index (port_pumped now)) }
    ensures stats { OnOk result (stats.new ≡ counted place stats.old (sent (port_at ports.old index).line now)) }
    ensures actions { OnOk result (acts.new ≡ acts.old ++ sends_of index (sent (port_at ports.old index).line now)) }
{
    let Some((channel, packet, extra)) = ports[index].line.pump(now) else {
        return Ok(());
    };
    tally(stats, place, u64::from(packet.flits));
    acts.push(Action::Send {
        port: index as u16,
        extra,
        load: Load::Net(NetLoad::Packet { channel, packet }),
    })
}

// Lets each port send a packet, in ascending order.
pub(crate) fn pump_all(
    ports: &mut [Port],
    stats: &mut StatSet,
    place: Option<usize>,
    now: u64,
    acts: &mut Acts<Load>,
) -> Result<(), AllocError>
    requires few { length ports.old ≤ 256 }
    requires early { now < 2 ^ 62 }
    requires place { IfSome place (λ i. i < length stats.old) }
    ensures ports { OnOk result (ports.new ≡ map (port_pumped now) ports.old) }
    ensures stats { OnOk result (stats.new ≡ all_counted now place stats.old ports.old) }
    ensures actions { OnOk result (acts.new ≡ acts.old ++ all_sent now 0 ports.old) }
{
    for index in 0..ports.len() {
        pump(ports, index, stats, place, now, acts)?;
    }
    Ok(())
}

// Whether all queues of all ports are empty.
pub(crate) fn is_idle(ports: &[Port]) -> bool
    ensures { result ≡ all_idle ports.now }
{
    for port in ports {
        if !port.line.is_idle() {
            return false;
        }
    }
    true
}
