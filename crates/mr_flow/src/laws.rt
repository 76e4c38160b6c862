//! Laws of one side of a line, each the contract of a function that does nothing.

ghost use Rattle.mr_flow.specs.Flow.{CreditsPay, ArrivalsCount, TakenCount, SentDeparts, SentTakesItsTime, CapacityStays, StaysWhole, StaysSound, FreshCounts};
ghost use Rattle.mr_flow.specs.Moves.{PacketsMove};
ghost use Rattle.mr_flow.specs.Saved.{Lane, packets_form, lanes_form, core_load_form, net_load_form};
ghost use Rattle.ss_wire.specs.Form.{IsForm};
ghost use Rattle.std.specs.Prelude.{List};

/// The credits of each channel fall by the flits that are sent on it.
pub fn credits_pay_for_what_is_sent()
    ensures { CreditsPay }
{}

/// The credits of each channel rise by the credits that arrive, and the flits of its input queue by those of the packets.
pub fn arrivals_are_counted()
    ensures { ArrivalsCount }
{}

/// The flits of an input queue fall by those of the packet that is taken.
pub fn taken_packets_are_counted()
    ensures { TakenCount }
{}

/// What is sent stood in front of its channel's queue and had credits, on a free line that is then busy for as long as its flits
/// take.
pub fn sent_packets_depart()
    ensures { SentDeparts }
{}

/// A packet that arrives or is queued stands at the back of its channel's queue, and one that is taken stood in front. All other
/// queues stay.
pub fn packets_move_from_front_to_back()
    ensures { PacketsMove }
{}

/// The capacities of input queues stay.
pub fn capacities_stay()
    ensures { CapacityStays }
{}

/// Whatever is done to a side keeps it whole.
pub fn a_side_stays_whole()
    ensures { StaysWhole }
{}

/// On a fresh side nothing is held, and each channel has its capacity and its credits.
pub fn a_fresh_side_is_empty()
    ensures { FreshCounts }
{}

/// And keeps it sound, where there is room for what comes.
pub fn a_side_stays_sound()
    ensures { StaysSound }
{}

/// On a sound side a packet that is sent takes the time of all its flits.
pub fn sent_packets_take_their_time()
    ensures { SentTakesItsTime }
{}

/// Packets, the channels of an end of a line, and loads are read back as they were written, whatever follows, and what is read was
/// written so.
pub fn what_was_saved_is_read()
    ensures packets { IsForm packets_form }
    ensures lanes { (ls : List Lane) → IsForm (lanes_form ls) }
    ensures core { IsForm core_load_form }
    ensures net { IsForm net_load_form }
{}
