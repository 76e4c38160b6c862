//! The CSV text of statistics.

ghost use Rattle.std.specs.Prelude.{◌≡◌, ◌++◌, ◌∷◌, [], map, codes, decimal, IfOk, OnOk, OnErr};
ghost use Rattle.csv.specs.Writing.{row_text, default_writer};
ghost use Rattle.ss_stats.specs.Sheet.{IsReady, written};
ghost use Rattle.ss_stats.specs.Text.{row, rows, accumulator_fields, bin_fields, histogram_fields, fields, set_rows, head};

use crate::accumulator::Accumulator;
use crate::histogram::Histogram;
use crate::set::{Entry, Stat, StatSet};
use csv::Writer;
use itoa::Buffer;
use ss_units::push_decimal;
use std::alloc::{AllocError, Global};

// A writer of records to bytes in memory.
type Sheet = Writer<Vec<u8>>;

fn new_sheet(alloc: Global) -> Sheet
    ensures ready { IsReady result }
    ensures empty { written result ≡ [] }
{
    Writer::from_writer(Vec::new(alloc))
}

// Adds a record.
fn write_record(sheet: &mut Sheet, cells: &[&[u8]]) -> Result<(), AllocError>
    requires { IsReady sheet.old }
    ensures ready { OnOk result (IsReady sheet.new) }
    ensures text { OnOk result (written sheet.new ≡ written sheet.old ++ row_text default_writer (map (λ f. f.now) cells.now)) }
{
    match sheet.write_fields(cells) {
        Ok(()) => Ok(()),
        Err(_) => Err(AllocError),
    }
}

// The text of a sheet.
fn into_text(sheet: Sheet) -> Result<Vec<u8>, AllocError>
    ensures { IfOk result (λ text. text.items ≡ written sheet) }
{
    match sheet.into_inner() {
        Ok(text) => Ok(text),
        Err(_) => Err(AllocError),
    }
}

// Adds a record of four cells.
fn write_cells<'a>(
    sheet: &mut Sheet,
    component: &'a [u8],
    statistic: &'a [u8],
    field: &'a [u8],
    value: &'a [u8],
) -> Result<(), AllocError>
    requires { IsReady sheet.old }
    ensures ready { OnOk result (IsReady sheet.new) }
    ensures text { OnOk result (written sheet.new ≡ written sheet.old ++ row_text default_writer (component.now ∷ statistic.now ∷ field.now ∷ value.now ∷ [])) }
{
    write_record(sheet, &[component, statistic, field, value])
}

// Adds the record of a field.
fn write_field(
    sheet: &mut Sheet,
    component: &[u8],
    statistic: &[u8],
    field: &[u8],
    value: u128,
) -> Result<(), AllocError>
    requires { IsReady sheet.old }
    ensures ready { OnOk result (IsReady sheet.new) }
    ensures text { OnOk result (written sheet.new ≡ written sheet.old ++ row component.now statistic.now (field.now, value)) }
{
    let mut digits = Buffer::new();
    let value = digits.format(value).as_bytes();
    write_cells(sheet, component, statistic, field, value)
}

fn write_accumulator(
    sheet: &mut Sheet,
    component: &[u8],
    statistic: &[u8],
    accumulator: &Accumulator,
) -> Result<(), AllocError>
    requires { IsReady sheet.old }
    ensures ready { OnOk result (IsReady sheet.new) }
    ensures text { OnOk result (written sheet.new ≡ written sheet.old ++ rows component.now statistic.now (accumulator_fields accumulator.now)) }
{
    let count = u128::from(accumulator.count);
    let least = u128::from(accumulator.least);
    let greatest = u128::from(accumulator.greatest);
    write_field(sheet, component, statistic, b"count", count)?;
    write_field(sheet, component, statistic, b"sum", accumulator.sum)?;
    write_field(sheet, component, statistic, b"sumsq", accumulator.sumsq)?;
    write_field(sheet, component, statistic, b"min", least)?;
    write_field(sheet, component, statistic, b"max", greatest)
}

// Makes `name` the name of a bin's field.
fn name_bin(name: &mut Vec<u8>, i: u32) -> Result<(), AllocError>
    ensures { OnOk result (name.new.items ≡ codes "bin" ++ decimal i) }
{
    name.clear();
    name.extend_from_slice(b"bin")?;
    push_decimal(name, u128::from(i))
}

fn write_bins(
    alloc: Global,
    sheet: &mut Sheet,
    component: &[u8],
    statistic: &[u8],
    histogram: &Histogram,
) -> Result<(), AllocError>
    requires { IsReady sheet.old }
    ensures ready { OnOk result (IsReady sheet.new) }
    ensures text { OnOk result (written sheet.new ≡ written sheet.old ++ rows component.now statistic.now (bin_fields 0 histogram.now.bins)) }
{
    let mut name = Vec::new(alloc);
    for i in 0..histogram.bins() {
        name_bin(&mut name, i)?;
        let count = u128::from(histogram.bin(i));
        write_field(sheet, component, statistic, name.as_slice(), count)?;
    }
    Ok(())
}

fn write_histogram(
    alloc: Global,
    sheet: &mut Sheet,
    component: &[u8],
    statistic: &[u8],
    histogram: &Histogram,
) -> Result<(), AllocError>
    requires { IsReady sheet.old }
    ensures ready { OnOk result (IsReady sheet.new) }
    ensures text { OnOk result (written sheet.new ≡ written sheet.old ++ rows component.now statistic.now (histogram_fields histogram.now)) }
{
    let count = u128::from(histogram.count());
    let below = u128::from(histogram.below());
    let above = u128::from(histogram.above());
    write_field(sheet, component, statistic, b"count", count)?;
    write_field(sheet, component, statistic, b"below", below)?;
    write_field(sheet, component, statistic, b"above", above)?;
    write_bins(alloc, sheet, component, statistic, histogram)
}

fn write_entry(
    alloc: Global,
    sheet: &mut Sheet,
    component: &[u8],
    entry: &Entry,
) -> Result<(), AllocError>
    requires { IsReady sheet.old }
    ensures ready { OnOk result (IsReady sheet.new) }
    ensures text { OnOk result (written sheet.new ≡ written sheet.old ++ rows component.now entry.now.0 (fields entry.now.1)) }
{
    let name = entry.name.as_slice();
    match &entry.stat {
        Stat::Accumulator(accumulator) => write_accumulator(sheet, component, name, accumulator),
        Stat::Histogram(histogram) => write_histogram(alloc, sheet, component, name, histogram),
    }
}

fn write_set(
    alloc: Global,
    sheet: &mut Sheet,
    component: &[u8],
    set: &StatSet,
) -> Result<(), AllocError>
    requires { IsReady sheet.old }
    ensures ready { OnOk result (IsReady sheet.new) }
    ensures text { OnOk result (written sheet.new ≡ written sheet.old ++ set_rows component.now set.now) }
{
    for entry in set.entries() {
        write_entry(alloc, sheet, component, entry)?;
    }
    Ok(())
}

// The record of the columns' names.
fn head_text(alloc: Global) -> Result<Vec<u8>, AllocError>
    ensures { IfOk result (λ text. text.items ≡ head) }
{
    let mut sheet = new_sheet(alloc);
    let columns = [
        b"component".as_slice(),
        b"statistic".as_slice(),
        b"field".as_slice(),
        b"value".as_slice(),
    ];
    write_record(&mut sheet, &columns)?;
    into_text(sheet)
}

// The records of a set.
fn set_text(alloc: Global, component: &[u8], set: &StatSet) -> Result<Vec<u8>, AllocError>
    ensures { IfOk result (λ text. text.items ≡ set_rows component.now set.now) }
{
    let mut sheet = new_sheet(alloc);
    write_set(alloc, &mut sheet, component, set)?;
    into_text(sheet)
}

/// Appends the record of the columns' names, `component,statistic,field,value`, and its line end. It fails only where
/// no memory is left, and `out` is then as before.
pub fn csv_head(out: &mut Vec<u8>) -> Result<(), AllocError>
    ensures ok { OnOk result (out.new.items ≡ out.old.items ++ head) }
    ensures err { OnErr result (out.new.items ≡ out.old.items) }
{
    let text = head_text(*out.allocator())?;
    out.extend_from_slice(text.as_slice())
}

/// Appends the records of a component's statistics, in the order of the set: one record for each field, as `csv`
/// writes it by default, with commas, a line end of one 0x0A, and quotes where they are necessary. An accumulator's
/// fields are `count`, `sum`, `sumsq`, `min` and `max`; a histogram's are `count`, `below`, `above`, `bin0`, `bin1`
/// and so on. It fails only where no memory is left, and `out` is then as before.
pub fn csv_rows(component: &[u8], set: &StatSet, out: &mut Vec<u8>) -> Result<(), AllocError>
    ensures ok { OnOk result (out.new.items ≡ out.old.items ++ set_rows component.now set.now) }
    ensures err { OnErr result (out.new.items ≡ out.old.items) }
{
    let text = set_text(*out.allocator(), component, set)?;
    out.extend_from_slice(text.as_slice())
}
