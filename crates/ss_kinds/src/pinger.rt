//! A pinger.

ghost use Rattle.std.specs.Prelude.{◌≡◌, ◌<◌, ◌+◌, ◌^◌, ◌∷◌, [], ◌++◌, OnOk, IfOk};
ghost use Rattle.ss_stats.specs.Set.{place_of};
ghost use Rattle.ss_element.specs.Gives.{Tells};
ghost use Rattle.ss_kinds.specs.declared.names.StatName.TheVariants.{Roundtrip};
ghost use Rattle.ss_kinds.specs.Names.{stat_text};
ghost use Rattle.mr_flow.specs.declared.Load.TheVariants as net;
ghost use Rattle.ss_kinds.specs.Number.{sends, prints, no_channel};
ghost use Rattle.ss_kinds.specs.Pinger.{pong_text, thrown, number_back, pinger_handled, pinger_form};

use crate::number::{cause_fits, number_in, send, send_load};
use itoa::Buffer;
use mr_flow::{Load, read_core_load};
use ss_element::{Acts, Element, Flow, RestoreFault, restore_stats, save_stats};
use ss_model::{Action, Cause};
use ss_safe::Local;
use ss_stats::StatSet;
use ss_tally::tally;
use ss_units::Text;
use ss_wire::{Reader, Writer};
use std::alloc::{AllocError, Global};

/// Sends the numbers from 1 to `count` out of its port, each when the one before came back, and prints
/// what comes back.
#[derive(Drop)]
pub struct Pinger {
    /// The name in the graph.
    pub name: Text,
    pub count: u32,
    /// The last number that was sent; 0 at first.
    pub sent: u32,
    /// How many came back.
    pub got: u32,
    /// When the last was sent, in picoseconds.
    pub at: u64,
    /// The statistics that its graph asked for.
    pub stats: StatSet,
    /// The place of `roundtrip` among them, if it is there.
    pub roundtrip: Option<usize>,
}

impl Pinger {
    /// What is printed when a number comes back.
    fn pong_text(&self, alloc: Global, n: u32, now: u64) -> Result<Text, AllocError>
        ensures { IfOk result (λ t. t ≡ pong_text self.now.name n now) }
    {
        let (name, mut digits, mut times) = (self.name.as_str(), Buffer::new(), Buffer::new());
        let (number, time) = (digits.format(n), times.format(now));
        let room = name.len() + number.len() + time.len() + 15;
        let mut text = Text::with_capacity(alloc, room)?;
        text.push_str(alloc, name)?;
        text.push_str(alloc, ": pong ")?;
        text.push_str(alloc, number)?;
        text.push_str(alloc, " at ")?;
        text.push_str(alloc, time)?;
        text.push_str(alloc, " ps\n")?;
        Ok(text)
    }

    /// Prints a number that came back.
    #[inline(never)]
    fn print_pong(&self, n: u32, now: u64, acts: &mut Acts<Load>) -> Result<(), AllocError>
        ensures { OnOk result (acts.new ≡ acts.old ++ prints (pong_text self.now.name n now) ∷ []) }
    {
        let text = self.pong_text(acts.allocator(), n, now)?;
        acts.push(Action::Print { text })
    }

    /// Sends a number, and notes it.
    fn throw(&mut self, n: u32, now: u64, acts: &mut Acts<Load>) -> Result<(), AllocError>
        ensures state { OnOk result (self.new ≡ thrown self.old n now) }
        ensures actions { OnOk result (acts.new ≡ acts.old ++ sends n ∷ []) }
    {
        self.sent = n;
        self.at = now;
        send(n, acts)
    }

    /// What comes next after a number that came back, as a load: the next number, where one is to be sent.
    fn next_in(&self, came: &Load) -> Load
        ensures { self.now.sent < self.now.count → result ≡ net.Core (self.now.sent + 1) }
    {
        if self.sent < self.count {
            number_in(came, self.sent + 1)
        } else {
            *came
        }
    }

    /// Takes in a number that came back. The load that goes on is made before the text is, so that it has long been stored
    /// when it is copied: read back at once it would have to wait for its parts.
    fn take_back(
        &mut self,
        n: u32,
        came: &Load,
        now: u64,
        acts: &mut Acts<Load>,
    ) -> Result<(), AllocError>
        requires { self.old.roundtrip ≡ place_of self.old.stats (stat_text Roundtrip) }
        ensures state { OnOk result (self.new ≡ (number_back self.old n now).state) }
        ensures actions { OnOk result (acts.new ≡ acts.old ++ (number_back self.old n now).actions) }
    {
        let next = self.next_in(came);
        self.print_pong(n, now, acts)?;
        let taken = now.saturating_sub(self.at);
        tally(&mut self.stats, self.roundtrip, taken);
        self.got = self.got.saturating_add(1).min(self.count);
        if self.sent < self.count {
            self.sent += 1;
            self.at = now;
            send_load(&next, acts)?;
        }
        Ok(())
    }

    /// What a pinger does.
    pub(crate) fn react(
        &mut self,
        now: u64,
        cause: &Cause<Load>,
        acts: &mut Acts<Load>,
    ) -> Result<(), AllocError>
        requires { self.old.roundtrip ≡ place_of self.old.stats (stat_text Roundtrip) }
        ensures state { OnOk result (self.new ≡ (pinger_handled self.old now cause.now).state) }
        ensures actions { OnOk result (acts.new ≡ acts.old ++ (pinger_handled self.old now cause.now).actions) }
    {
        match cause {
            Cause::Start => {
                if self.count > 0 {
                    self.throw(1, now, acts)?;
                }
                Ok(())
            }
            Cause::Link { load, .. } => {
                let Load::Core { n } = load else {
                    return Ok(());
                };
                self.take_back(*n, load, now, acts)
            }
            Cause::Own { .. } | Cause::Tick { .. } => Ok(()),
        }
    }

    /// Writes what runs change: 4 bytes of what was sent last, 4 of how many came back, 8 of when it was sent, and
    /// the statistics.
    fn write(&self, out: &mut Writer) -> Result<(), AllocError>
        ensures { OnOk result (out.new ≡ out.old ++ (pinger_form self.now).spell self.now) }
    {
        out.u32(self.sent)?;
        out.u32(self.got)?;
        out.u64(self.at)?;
        save_stats(&self.stats, out)?;
        Ok(())
    }

    /// Takes on what was written.
    fn read(&mut self, bytes: &mut Reader<'_>) -> Result<(), RestoreFault>
        ensures { Tells (λ u. self.new) result bytes.new ((pinger_form self.old).read bytes.old) }
    {
        self.sent = bytes.u32()?;
        self.got = bytes.u32()?;
        self.at = bytes.u64()?;
        restore_stats(&mut self.stats, bytes)
    }
}

impl Element for Pinger {
    type Load = Load;

    ghost use Rattle.ss_kinds.specs.Pinger.{pinger_kind, pinger_saving};
    ghost use Rattle.ss_kinds.specs.PingerLaws.{pinger_safe, pinger_world, pinger_saved};

    ghost kind = { pinger_kind };

    ghost safe = { pinger_safe };

    ghost saving = { pinger_saving };

    ghost laws = { pinger_world };

    ghost saved = { pinger_saved };

    fn handle(
        &mut self,
        now: u64,
        cause: &Cause<Load>,
        acts: &mut Acts<Load>,
    ) -> Result<(), AllocError> {
        self.react(now, cause, acts)
    }

    fn save(&self, out: &mut Writer) -> Result<(), AllocError> {
        self.write(out)
    }

    #[tactic(auto, using(crate::proofs::Restored::told_is_given))]
    fn restore(&mut self, _alloc: Global, bytes: &mut Reader<'_>) -> Result<(), RestoreFault> {
        self.read(bytes)
    }

    fn read_load(&self, bytes: &mut Reader<'_>) -> Result<Load, RestoreFault> {
        read_core_load(bytes)
    }

    fn fits(&self, at: u64) -> bool {
        self.sent <= self.count && self.got <= self.count && self.at < at
    }

    fn fits_load(&self, cause: &Cause<Load>, _at: u64) -> bool {
        cause_fits(cause)
    }

    fn is_primary(&self) -> bool {
        true
    }

    fn is_done(&self) -> bool {
        self.got == self.count
    }

    fn clock_on(&self, _clock: u16) -> bool {
        false
    }

    fn channels(&self, _port: u16) -> u16 {
        0
    }

    /// Nothing: no port has a channel.
    fn flow(&self, _port: u16, _channel: u8) -> Flow
        ensures { result ≡ no_channel }
    {
        Flow {
            credits: 0,
            queued: 0,
            capacity: 0,
        }
    }

    fn stats(&self) -> &StatSet {
        &self.stats
    }
}

impl Local for Pinger {
    ghost use Rattle.ss_kinds.specs.Pinger.{pinger_allowed};
    ghost use Rattle.ss_kinds.specs.PingerLaws.{pinger_laws, pinger_saves};

    ghost allowed = { pinger_allowed };

    ghost local = { pinger_laws };

    ghost saves = { pinger_saves };

    ghost tied = { λ w now s. (λ h. h, λ h. h) };
}
