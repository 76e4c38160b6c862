//! A component's parameters.

ghost use Rattle.std.specs.Prelude.{◌≡◌, ◌≤◌, ◌∷◌, [], IfOk};
ghost use Rattle.ss_graph.specs.Checks.{Judged};
ghost use Rattle.ss_graph.specs.Options.{the, ranged};
ghost use Rattle.ss_library.specs.Tables.{digits_value, count_value, truth_value, value_of, param_value};
ghost use Rattle.ss_network.specs.Faults.{is_memory};
ghost use Rattle.ss_library.specs.Make.{row_check};

use crate::table::{Form, ParamRow, param_name};
use ss_network::{MakeFault, item_place};
use ss_units::{Text, UnitFault, period_of, ps_of};
use std::alloc::Global;

/// The number that digits write, where it is at most `most`.
fn digits_of(text: &[u8], most: u64) -> Option<u64>
    ensures { result ≡ digits_value most 0 text.now }
{
    let mut value = 0u64;
    for byte in text {
        if *byte < 48 || *byte > 57 {
            return None;
        }
        let next = value as u128 * 10 + (*byte - 48) as u128;
        if next > most as u128 {
            return None;
        }
        value = next as u64;
    }
    Some(value)
}

fn count_of(text: &[u8], most: u64) -> Option<u64>
    ensures { result ≡ count_value most text.now }
{
    match text {
        [] => None,
        [48, _, ..] => None,
        _ => digits_of(text, most),
    }
}

fn truth_of(text: &str) -> Option<u64>
    ensures { result ≡ truth_value text.now }
{
    match text {
        "true" => Some(1),
        "false" => Some(0),
        _ => None,
    }
}

/// A time that is from the least to the most.
fn within(answer: Result<u64, UnitFault>, least: u64, most: u64) -> Option<u64>
    ensures { result ≡ ranged least most answer }
{
    match answer {
        Err(_) => None,
        Ok(n) => if least <= n && n <= most {
            Some(n)
        } else {
            None
        },
    }
}

/// The value of a parameter's text.
fn value_at(form: Form, text: &str) -> Option<u64>
    ensures { result ≡ value_of form text.now }
{
    match form {
        Form::Count { least, most } => match count_of(text.as_bytes(), most) {
            None => None,
            Some(n) => if n >= least { Some(n) } else { None },
        },
        Form::Time { least, most } => within(ps_of(text.as_bytes()), least, most),
        Form::Period { least, most } => within(period_of(text.as_bytes()), least, most),
        Form::Truth => truth_of(text),
    }
}

/// The value of a row.
pub fn row_value(params: &[(Text, Text)], row: ParamRow) -> Option<u64>
    ensures { result ≡ param_value params.now row }
{
    for param in params {
        if param.0.as_str() == param_name(row.name) {
            return value_at(row.form, param.1.as_str());
        }
    }
    row.default
}

/// The value of a parameter of component `index`.
#[tactic(auto, unfolding(ss_graph::specs::Checks::first_fault))]
pub fn param_at(
    alloc: Global,
    params: &[(Text, Text)],
    row: ParamRow,
    index: usize,
) -> Result<u64, MakeFault>
    ensures { Judged is_memory (λ n. n) result (row_check index params.now row ∷ []) (the (param_value params.now row)) }
{
    match row_value(params, row) {
        Some(value) => Ok(value),
        None => {
            let mut place = item_place(alloc, "components", index)?;
            place.push_str(".params.")?;
            place.push_str(param_name(row.name))?;
            Err(MakeFault::Param(Text::from_string(place)))
        }
    }
}
