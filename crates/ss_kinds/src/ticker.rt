//! A ticker.

ghost use Rattle.std.specs.Prelude.{◌≡◌, ◌∷◌, [], ◌++◌, OnOk, IfOk};
ghost use Rattle.ss_stats.specs.Set.{place_of};
ghost use Rattle.ss_element.specs.Gives.{Tells};
ghost use Rattle.ss_kinds.specs.declared.names.StatName.TheVariants.{Events};
ghost use Rattle.ss_kinds.specs.Names.{stat_text};
ghost use Rattle.ss_kinds.specs.Number.{prints, no_channel};
ghost use Rattle.ss_kinds.specs.Ticker.{tick_text, event_text, port_label, ticked, ticker_handled, ticker_form};

use crate::names::{port_name, ticker_ports};
use crate::number::{cause_fits, send};
use itoa::Buffer;
use mr_flow::{Load, read_core_load};
use ss_element::{Acts, Element, Flow, RestoreFault, restore_stats, save_stats};
use ss_model::{Action, Cause};
use ss_safe::Local;
use ss_stats::StatSet;
use ss_tally::tally;
use ss_units::Text;
use ss_wire::{Reader, Writer};
use std::alloc::{AllocError, Global};

/// The number of a ticker's port `out`, its first.
pub const TICKER_OUT: u16 = 0;

/// Ticks `count` times, and prints each tick and each number that comes. It sends the number of each tick
/// out of its port `out` where a link leads from there.
#[derive(Drop)]
pub struct Ticker {
    /// The name in the graph.
    pub name: Text,
    pub count: u32,
    /// Whether it keeps the simulation going until it has ticked `count` times.
    pub primary: bool,
    /// Whether a link leads from port `out`.
    pub linked: bool,
    /// Whether its start event was handled.
    pub begun: bool,
    /// How many ticks there were.
    pub ticks: u32,
    /// The statistics that its graph asked for.
    pub stats: StatSet,
    /// The place of `events` among them, if it is there.
    pub events: Option<usize>,
}

/// The name of a ticker's port.
fn port_label(port: u16) -> &'static str
    ensures { result.now ≡ port_label port }
{
    match ticker_ports().get(port as usize) {
        Some(name) => port_name(*name),
        None => "",
    }
}

impl Ticker {
    /// What is printed at a tick.
    fn tick_text(&self, alloc: Global, now: u64) -> Result<Text, AllocError>
        ensures { IfOk result (λ t. t ≡ tick_text self.now.name self.now.ticks now) }
    {
        let (name, mut digits, mut times) = (self.name.as_str(), Buffer::new(), Buffer::new());
        let (tick, time) = (digits.format(self.ticks), times.format(now));
        let room = name.len() + tick.len() + time.len() + 15;
        let mut text = Text::with_capacity(alloc, room)?;
        text.push_str(alloc, name)?;
        text.push_str(alloc, ": tick ")?;
        text.push_str(alloc, tick)?;
        text.push_str(alloc, " at ")?;
        text.push_str(alloc, time)?;
        text.push_str(alloc, " ps\n")?;
        Ok(text)
    }

    /// What is printed when a number comes.
    fn event_text(&self, alloc: Global, n: u32, port: u16, now: u64) -> Result<Text, AllocError>
        ensures { IfOk result (λ t. t ≡ event_text self.now.name n (port_label port) now) }
    {
        let (name, mut digits, mut times) = (self.name.as_str(), Buffer::new(), Buffer::new());
        let (number, time) = (digits.format(n), times.format(now));
        let room = name.len() + number.len() + time.len() + 24;
        let mut text = Text::with_capacity(alloc, room)?;
        text.push_str(alloc, name)?;
        text.push_str(alloc, ": event ")?;
        text.push_str(alloc, number)?;
        text.push_str(alloc, " on ")?;
        text.push_str(alloc, port_label(port))?;
        text.push_str(alloc, " at ")?;
        text.push_str(alloc, time)?;
        text.push_str(alloc, " ps\n")?;
        Ok(text)
    }

    /// Prints a tick that was counted.
    #[inline(never)]
    fn print_tick(&self, now: u64, acts: &mut Acts<Load>) -> Result<(), AllocError>
        ensures { OnOk result (acts.new ≡ acts.old ++ prints (tick_text self.now.name self.now.ticks now) ∷ []) }
    {
        let text = self.tick_text(acts.allocator(), now)?;
        acts.push(Action::Print { text })
    }

    /// Prints a number that came.
    #[inline(never)]
    fn print_event(
        &self,
        n: u32,
        port: u16,
        now: u64,
        acts: &mut Acts<Load>,
    ) -> Result<(), AllocError>
        ensures { OnOk result (acts.new ≡ acts.old ++ prints (event_text self.now.name n (port_label port) now) ∷ []) }
    {
        let text = self.event_text(acts.allocator(), n, port, now)?;
        acts.push(Action::Print { text })
    }

    /// Prints a tick that was counted, sends its number where that leads anywhere, and turns the clock off
    /// after the last.
    fn tell(&self, now: u64, acts: &mut Acts<Load>) -> Result<(), AllocError>
        ensures { OnOk result (acts.new ≡ acts.old ++ (ticked self.now now).actions) }
    {
        self.print_tick(now, acts)?;
        if self.linked {
            send(self.ticks, acts)?;
        }
        if self.ticks == self.count {
            acts.push(Action::ClockOff { clock: 0 })?;
        }
        Ok(())
    }

    /// Writes what runs change: 4 bytes of the ticks, and the statistics.
    fn write(&self, out: &mut Writer) -> Result<(), AllocError>
        ensures { OnOk result (out.new ≡ out.old ++ (ticker_form self.now).spell self.now) }
    {
        out.u32(self.ticks)?;
        save_stats(&self.stats, out)
    }

    /// Takes on what was written, as a ticker whose start event was handled.
    fn read(&mut self, bytes: &mut Reader<'_>) -> Result<(), RestoreFault>
        ensures { Tells (λ u. self.new) result bytes.new ((ticker_form self.old).read bytes.old) }
    {
        self.begun = true;
        self.ticks = bytes.u32()?;
        restore_stats(&mut self.stats, bytes)
    }

    /// What a ticker does.
    pub(crate) fn react(
        &mut self,
        now: u64,
        cause: &Cause<Load>,
        acts: &mut Acts<Load>,
    ) -> Result<(), AllocError>
        requires { self.old.events ≡ place_of self.old.stats (stat_text Events) }
        ensures state { OnOk result (self.new ≡ (ticker_handled self.old now cause.now).state) }
        ensures actions { OnOk result (acts.new ≡ acts.old ++ (ticker_handled self.old now cause.now).actions) }
    {
        match cause {
            Cause::Start => {
                self.begun = true;
                if self.count > 0 {
                    acts.push(Action::ClockOn { clock: 0 })?;
                }
                Ok(())
            }
            Cause::Link { port, load } => {
                let Load::Core { n } = load else {
                    return Ok(());
                };
                self.print_event(*n, *port, now, acts)?;
                tally(&mut self.stats, self.events, *n as u64);
                Ok(())
            }
            Cause::Tick { .. } => {
                self.ticks = self.ticks.saturating_add(1).min(self.count);
                self.tell(now, acts)
            }
            Cause::Own { .. } => Ok(()),
        }
    }
}

impl Element for Ticker {
    type Load = Load;

    ghost use Rattle.ss_kinds.specs.Ticker.{ticker_kind, ticker_saving};
    ghost use Rattle.ss_kinds.specs.TickerLaws.{ticker_safe, ticker_world, ticker_saved};

    ghost kind = { ticker_kind };

    ghost safe = { ticker_safe };

    ghost saving = { ticker_saving };

    ghost laws = { ticker_world };

    ghost saved = { ticker_saved };

    fn handle(
        &mut self,
        now: u64,
        cause: &Cause<Load>,
        acts: &mut Acts<Load>,
    ) -> Result<(), AllocError> {
        self.react(now, cause, acts)
    }

    fn save(&self, out: &mut Writer) -> Result<(), AllocError> {
        self.write(out)
    }

    #[tactic(auto, using(crate::proofs::Restored::told_is_given))]
    fn restore(&mut self, _alloc: Global, bytes: &mut Reader<'_>) -> Result<(), RestoreFault> {
        self.read(bytes)
    }

    fn read_load(&self, bytes: &mut Reader<'_>) -> Result<Load, RestoreFault> {
        read_core_load(bytes)
    }

    fn fits(&self, _at: u64) -> bool {
        self.ticks <= self.count
    }

    fn fits_load(&self, cause: &Cause<Load>, _at: u64) -> bool {
        cause_fits(cause)
    }

    fn is_primary(&self) -> bool {
        self.primary
    }

    fn is_done(&self) -> bool {
        self.ticks == self.count
    }

    fn clock_on(&self, clock: u16) -> bool {
        self.begun && clock == 0 && self.ticks < self.count
    }

    fn channels(&self, _port: u16) -> u16 {
        0
    }

    /// Nothing: no port has a channel.
    fn flow(&self, _port: u16, _channel: u8) -> Flow
        ensures { result ≡ no_channel }
    {
        Flow {
            credits: 0,
            queued: 0,
            capacity: 0,
        }
    }

    fn stats(&self) -> &StatSet {
        &self.stats
    }
}

impl Local for Ticker {
    ghost use Rattle.ss_kinds.specs.Ticker.{ticker_allowed};
    ghost use Rattle.ss_kinds.specs.TickerLaws.{ticker_laws, ticker_saves};

    ghost allowed = { ticker_allowed };

    ghost local = { ticker_laws };

    ghost saves = { ticker_saves };

    ghost tied = { λ w now s. (λ h. h, λ h. h) };
}
