//! What is put behind a run: its statistics and its report.

ghost use Rattle.std.specs.Prelude.{◌≡◌, ◌≤◌, ◌^◌, ◌++◌, ◌∷◌, [], false, IfOk, OnOk, ℕ, List, length, map, slice_get, Some};
ghost use Rattle.ss_stats.specs.Text.{head};
ghost use Rattle.ss_top.specs.Answer.{sheets as sheets_of, stats_rows, stats_text};
ghost use Rattle.ss_graph.specs.Fit.{IsFit};
ghost use Rattle.ss_library.specs.declared.kinds.Any.{Any};
ghost use Rattle.ss_library.specs.Kinds.{any_kind};
ghost use Rattle.ss_library.specs.Meaning.{any_meaning};
ghost use Rattle.ss_run.specs.Run.{IsFitting};
ghost use Rattle.ss_worker.specs.Place.{Place, AllStandAt};
ghost use Rattle.ss_top.specs.Dividing.{AreListsOf, AreParts};
ghost use Rattle.ss_top.specs.Report.{Has};
ghost use Rattle.ss_top.specs.Simulate.{puts_by};

use ss_element::Element;
use ss_graph::{Graph, Part};
use ss_library::Any;
use ss_part::Partition;
use ss_run::RunSpec;
use ss_stats::{csv_head, csv_rows};
use ss_units::Text;
use ss_worker::Worker;
use std::alloc::{AllocError, Global};

/// A text, and the name under which it is put.
#[derive(Drop)]
pub struct Sheet {
    pub name: Text,
    pub text: Vec<u8>,
}

/// Adds a text under a name.
pub fn add_sheet(
    alloc: Global,
    sheets: &mut Vec<Sheet>,
    name: &Text,
    text: Vec<u8>,
) -> Result<(), AllocError>
    ensures { OnOk result (puts_by sheets.new.items ≡ puts_by sheets.old.items ++ (name.now, text.items) ∷ []) }
{
    let name = name.copy(alloc)?;
    sheets.push(Sheet { name, text })?;
    Ok(())
}

/// The elements of each worker.
fn lists_of<'a>(
    alloc: Global,
    workers: &'a [Worker<Any>],
) -> Result<Vec<&'a [(u32, Any)]>, AllocError>
    requires alive { (p : ℕ) (x : Place) → slice_get workers.now p ≡ Some x → x.failed ≡ false }
    ensures { IfOk result (λ v. AreListsOf workers.now (map (λ s. s.now) v.items)) }
{
    let mut lists = Vec::new(alloc);
    for worker in workers {
        lists.push(worker.elements())?;
    }
    Ok(lists)
}

/// The text of the statistics of components, whose elements stand in the lists of their parts.
fn stats_of_lists(
    alloc: Global,
    parts: &[Part],
    partition: &Partition,
    lists: &[&[(u32, Any)]],
) -> Result<Vec<u8>, AllocError>
    requires whole { length partition.now.list ≡ length parts.now }
    requires few { length parts.now ≤ 2 ^ 16 }
    requires lists { length lists.now ≡ partition.now.parts }
    requires elements { (left : List Any) × AreParts partition.now.list (map (λ s. s.now) lists.now) left }
    ensures { (left : List Any) → AreParts partition.now.list (map (λ s. s.now) lists.now) left → IfOk result (λ v. v.items ≡ head ++ stats_rows parts.now left) }
{
    let mut places = vec![in alloc; 0usize; lists.len()]?;
    let mut text = Vec::new(alloc);
    csv_head(&mut text)?;
    for (i, part) in parts.iter().enumerate() {
        let owner = partition.part_of(i as u32) as usize;
        let place = places[owner];
        let list = lists[owner];
        let (_, element) = &list[place];
        let name = part.name.as_str().as_bytes();
        csv_rows(name, element.stats(), &mut text)?;
        places[owner] = place + 1;
    }
    Ok(text)
}

/// The text of the statistics that a run in parts left with its workers, in the order of the graph's components.
pub fn stats_in_parts(
    alloc: Global,
    run: &RunSpec,
    workers: &[Worker<Any>],
    windows: u64,
) -> Result<Vec<u8>, AllocError>
    requires fits { IsFitting any_kind any_meaning run.now }
    requires fit { IsFit run.now.graph }
    requires stand { AllStandAt run.now windows workers.now }
    requires windows { Has run.now windows }
    ensures { (n : Has run.now windows) → IfOk result (λ v. v.items ≡ stats_text run.now.graph n.last.whole.state) }
{
    let lists = lists_of(alloc, workers)?;
    stats_of_lists(
        alloc,
        run.graph.components.as_slice(),
        &run.partition,
        lists.as_slice(),
    )
}

/// The text of the statistics of components.
fn stats_of(alloc: Global, parts: &[Part], elements: &[Any]) -> Result<Vec<u8>, AllocError>
    ensures { IfOk result (λ v. v.items ≡ head ++ stats_rows parts.now elements.now) }
{
    let mut text = Vec::new(alloc);
    csv_head(&mut text)?;
    for (part, element) in parts.iter().zip(elements) {
        csv_rows(part.name.as_str().as_bytes(), element.stats(), &mut text)?;
    }
    Ok(text)
}

/// The text of the statistics that a run left, where a name for it is given.
pub fn stats_sheet(
    alloc: Global,
    name: &Option<Text>,
    graph: &Graph,
    elements: &[Any],
) -> Result<Vec<Sheet>, AllocError>
    ensures { IfOk result (λ v. puts_by v.items ≡ sheets_of name.now (stats_text graph.now elements.now)) }
{
    let mut sheets = Vec::new(alloc);
    if let Some(name) = name {
        let text = stats_of(alloc, graph.components.as_slice(), elements)?;
        add_sheet(alloc, &mut sheets, name, text)?;
    }
    Ok(sheets)
}
