//! Statistics as a part of a saved element.

ghost use Rattle.std.specs.Prelude.{◌≡◌, ◌<◌, ◌++◌, length, List, slice_get, Some, OnOk};
ghost use Rattle.std.specs.List.{flat_map};
ghost use Rattle.ss_wire.specs.Form.{big_bytes, IsForm};
ghost use Rattle.ss_stats.specs.Set.{Entry};
ghost use Rattle.ss_element.specs.Gives.{Tells, put_at};
ghost use Rattle.ss_element.specs.Stored.{accumulator_form, bins_form, histogram_form, stat_form, stat_text, entry_form, stats_form, stats_text};

use crate::fault::RestoreFault;
use ss_stats::{Accumulator, Histogram, Stat, StatSet};
use ss_wire::{Reader, Writer};
use std::alloc::AllocError;

fn save_accumulator(accumulator: &Accumulator, out: &mut Writer) -> Result<(), AllocError>
    ensures { OnOk result (out.new ≡ out.old ++ accumulator_form.spell accumulator.now) }
{
    out.u64(accumulator.count)?;
    out.u128(accumulator.sum)?;
    out.u128(accumulator.sumsq)?;
    out.u64(accumulator.least)?;
    out.u64(accumulator.greatest)?;
    Ok(())
}

fn save_bins(histogram: &Histogram, out: &mut Writer) -> Result<(), AllocError>
    ensures { OnOk result (out.new ≡ out.old ++ flat_map (big_bytes 8) histogram.now.bins) }
{
    for i in 0..histogram.bins() {
        out.u64(histogram.bin(i))?;
    }
    Ok(())
}

fn save_histogram(histogram: &Histogram, out: &mut Writer) -> Result<(), AllocError>
    ensures { OnOk result (out.new ≡ out.old ++ (histogram_form histogram.now).spell histogram.now) }
{
    out.u64(histogram.count())?;
    out.u64(histogram.below())?;
    out.u64(histogram.above())?;
    save_bins(histogram, out)?;
    Ok(())
}

fn save_stat(stat: &Stat, out: &mut Writer) -> Result<(), AllocError>
    ensures { OnOk result (out.new ≡ out.old ++ stat_text stat.now) }
{
    match stat {
        Stat::Accumulator(accumulator) => save_accumulator(accumulator, out),
        Stat::Histogram(histogram) => save_histogram(histogram, out),
    }
}

/// Writes statistics in their order, high byte first: of an accumulator 8 bytes of count, 16 of sum, 16 of the sum of
/// squares, 8 of the least and 8 of the greatest value; of a histogram 8 of count, 8 of the values below all bins, 8 of
/// those above, and 8 for each bin. Names and the places of bins aren't written. It fails only where no memory is left,
/// and nothing is then known of `out`. The form is this project's own.
pub fn save_stats(set: &StatSet, out: &mut Writer) -> Result<(), AllocError>
    ensures { OnOk result (out.new ≡ out.old ++ stats_text set.now) }
{
    for index in 0..set.len() {
        save_stat(set.stat(index), out)?;
    }
    Ok(())
}

fn read_accumulator(bytes: &mut Reader<'_>) -> Result<Accumulator, RestoreFault>
    ensures { Tells (λ a. a) result bytes.new (accumulator_form.read bytes.old) }
{
    let count = bytes.u64()?;
    let sum = bytes.u128()?;
    let sumsq = bytes.u128()?;
    let least = bytes.u64()?;
    let greatest = bytes.u64()?;
    Ok(Accumulator {
        count,
        sum,
        sumsq,
        least,
        greatest,
    })
}

fn restore_bins(histogram: &mut Histogram, bytes: &mut Reader<'_>) -> Result<(), RestoreFault>
    ensures bins { Tells (λ u. histogram.new.bins) result bytes.new ((bins_form histogram.old.bins).read bytes.old) }
    ensures same { histogram.new ≡ record histogram.old { bins = histogram.new.bins } }
{
    for i in 0..histogram.bins() {
        let n = bytes.u64()?;
        histogram.set_bin(i, n);
    }
    Ok(())
}

fn restore_histogram(histogram: &mut Histogram, bytes: &mut Reader<'_>) -> Result<(), RestoreFault>
    ensures { Tells (λ u. histogram.new) result bytes.new ((histogram_form histogram.old).read bytes.old) }
{
    let count = bytes.u64()?;
    let below = bytes.u64()?;
    let above = bytes.u64()?;
    restore_bins(histogram, bytes)?;
    histogram.set_counts(count, below, above);
    Ok(())
}

// A statistic of the same sort, with the numbers that were written.
fn read_stat(stat: Stat, bytes: &mut Reader<'_>) -> Result<Stat, RestoreFault>
    ensures { Tells (λ s. s) result bytes.new ((stat_form stat).read bytes.old) }
{
    match stat {
        Stat::Accumulator(_) => Ok(Stat::Accumulator(read_accumulator(bytes)?)),
        Stat::Histogram(mut histogram) => {
            restore_histogram(&mut histogram, bytes)?;
            Ok(Stat::Histogram(histogram))
        }
    }
}

fn restore_at(set: &mut StatSet, index: usize, bytes: &mut Reader<'_>) -> Result<(), RestoreFault>
    requires { index < length set.old }
    ensures told { (e : Entry) → slice_get set.old index ≡ Some e → Tells (λ u. set.new) result bytes.new (put_at set.old index ((entry_form e).read bytes.old)) }
    ensures len { length set.new ≡ length set.old }
{
    let stat = set.replace(index, Stat::Accumulator(Accumulator::new()));
    let stat = read_stat(stat, bytes)?;
    set.replace(index, stat);
    Ok(())
}

/// Takes on the numbers of statistics that `save_stats` wrote. Their names and sorts, and the places of bins, stay. It
/// answers `Short` at the first field that has too few bytes, and nothing else. It takes no memory. After a refusal
/// nothing is known of the set and of the reader.
pub fn restore_stats(set: &mut StatSet, bytes: &mut Reader<'_>) -> Result<(), RestoreFault>
    ensures { Tells (λ u. set.new) result bytes.new ((stats_form set.old).read bytes.old) }
{
    for index in 0..set.len() {
        restore_at(set, index, bytes)?;
    }
    Ok(())
}

/// A law: statistics that were written are read back, whatever follows them, and what is read was written so.
pub fn statistics_are_read_back()
    ensures { (set : List Entry) → IsForm (stats_form set) }
{}
