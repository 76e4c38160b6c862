//! What no clause says: that texts are accepted and refused where memory is there.

use crate::component::parts_at;
use crate::{Graph, GraphFault, read};
use indexmap::IndexSet;
use serde_json::Value;
use ss_units::Text;
use std::alloc::Global;
use std::test::*;

const PING: &str =
    "{\"components\":[{\"name\":\"ping\",\"type\":\"core.pinger\",\"params\":{\"count\":3}},{\"name\":\"echo\",\"type\":\"core.echo\",\"params\":{}}],\"links\":[{\"name\":\"wire\",\"left\":{\"component\":\"ping\",\"port\":\"port\",\"latency\":\"1ns\"},\"right\":{\"component\":\"echo\",\"port\":\"port\",\"latency\":\"1ns\"}}]}";

fn crosses<T: Send + Sync + Drop>(_value: T) {}

#[test]
fn a_pinger_and_an_echo(rt: HostRuntime) -> Result<(), Fail> {
    let graph = read(rt.alloc(), PING.as_bytes()).ok().ok_or("a graph")?;
    assert_eq!(rt; graph.text.as_slice().len(), 264);
    assert_eq!(rt; graph.components.as_slice().len(), 2);
    assert_eq!(rt; graph.links.as_slice().len(), 1);
    assert_eq!(rt; graph.options.stop_at, 1 << 62);
    assert_eq!(rt; graph.options.exit_period, 1_000_000);
    if graph.links.as_slice().len() == 1 {
        assert_eq!(rt; graph.latency(1), 1000);
        assert_eq!(rt; graph.line_ends(1), (1, 0));
    }
    crosses(graph);
    Ok(())
}

/// The fault of a text as it is printed, with its place.
fn fault_of(answer: Result<Graph, GraphFault>) -> (&'static str, Option<Text>) {
    match answer {
        Ok(_) => ("accepted", None),
        Err(GraphFault::Text) => ("Text", None),
        Err(GraphFault::Form(place)) => ("Form", Some(place)),
        Err(GraphFault::SharedParams) => ("SharedParams", None),
        Err(GraphFault::Member(place)) => ("Member", Some(place)),
        Err(GraphFault::Unit(place)) => ("Unit", Some(place)),
        Err(GraphFault::DuplicateName(place)) => ("DuplicateName", Some(place)),
        Err(GraphFault::UnknownComponent(place)) => ("UnknownComponent", Some(place)),
        Err(GraphFault::PortTaken(place)) => ("PortTaken", Some(place)),
        Err(GraphFault::Latency(place)) => ("Latency", Some(place)),
        Err(GraphFault::Limit(_, _)) => ("Limit", None),
        Err(GraphFault::NoMemory) => ("NoMemory", None),
    }
}

/// Whether reading a text gives this fault at this place.
fn refuses(alloc: Global, text: &str, fault: &str, place: &str) -> bool {
    let (found, at) = fault_of(read(alloc, text.as_bytes()));
    found == fault
        && match &at {
            None => place == "",
            Some(at) => at.as_str() == place,
        }
}

#[test]
fn refusals(rt: HostRuntime) -> Result<(), Fail> {
    let rows = [
        ("{\"components\":[", "Text", ""),
        ("[]", "Form", "graph"),
        ("{}", "Member", "components"),
        ("{\"components\":{}}", "Form", "components"),
        ("{\"components\":[]}", "accepted", ""),
        ("{\"components\":[],\"other\":1}", "accepted", ""),
        (
            "{\"components\":[],\"shared_params\":{\"a\":1}}",
            "SharedParams",
            "",
        ),
        (
            "{\"components\":[],\"program_options\":{\"stop-at\":5}}",
            "Form",
            "program_options.stop-at",
        ),
        (
            "{\"components\":[],\"program_options\":{\"exit-period\":\"0ps\"}}",
            "Unit",
            "program_options.exit-period",
        ),
        (
            "{\"components\":[{\"name\":\"a\",\"type\":\"core.echo\"},{\"name\":\"a\"}]}",
            "DuplicateName",
            "components[1].name",
        ),
        (
            "{\"components\":[{\"name\":\"a\",\"type\":\"x\",\"params\":{\"input_latency\":\"1 h\"}}]}",
            "Unit",
            "components[0].params.input_latency",
        ),
        (
            "{\"components\":[],\"links\":[{\"name\":\"l\",\"left\":{\"component\":\"a\"}}]}",
            "UnknownComponent",
            "links[0].left.component",
        ),
    ];
    for row in &rows {
        assert!(rt; refuses(rt.alloc(), row.0, row.1, row.2));
    }
    Ok(())
}

// A component with all that it may have.
const WHOLE: &str =
    "{\"components\":[{\"name\":\"a\",\"type\":\"t\",\"params\":{\"b\":1,\"output_latency\":\"2ns\"},\"subcomponents\":[{\"slot_name\":\"s\",\"type\":\"u\",\"params\":{\"p\":true},\"subcomponents\":[]}],\"statistics\":[{\"name\":\"x\"},{\"name\":\"y\",\"type\":\"sst.HistogramStatistic\",\"params\":{\"binwidth\":\"5\",\"numbins\":2}}],\"partition\":{\"thread\":7}}]}";

#[test]
fn a_whole_component(rt: HostRuntime) -> Result<(), Fail> {
    let alloc = rt.alloc();
    let value = Value::from_str(alloc, WHOLE).ok().ok_or("a value")?;
    let mut names = IndexSet::new(alloc);
    let parts = parts_at(alloc, &value, &mut names)
        .ok()
        .ok_or("components")?;
    for part in &parts {
        assert_eq!(rt; part.thread, Some(7));
        assert_eq!(rt; part.input_latency, 0);
        assert_eq!(rt; part.output_latency, 2000);
        assert_eq!(rt; part.stats.as_slice().len(), 2);
        for stat in part.stats.as_slice() {
            if stat.histogram {
                assert_eq!(rt; stat.least, 0);
                assert_eq!(rt; stat.width, 5);
                assert_eq!(rt; stat.bins, 2);
            }
        }
        assert_eq!(rt; part.params.as_slice().len(), 4);
        for param in part.params.as_slice() {
            if param.0.as_str() == "s.p" {
                assert_eq!(rt; param.1.as_str(), "true");
            }
        }
    }
    assert!(rt; refuses(alloc, WHOLE, "accepted", ""));
    Ok(())
}

#[test]
fn refusals_in_components(rt: HostRuntime) -> Result<(), Fail> {
    let rows = [
        (
            "\"subcomponents\":{}",
            "Form",
            "components[0].subcomponents",
        ),
        (
            "\"subcomponents\":[{\"slot_name\":5}]",
            "Form",
            "components[0].subcomponents[0].slot_name",
        ),
        (
            "\"subcomponents\":[{\"slot_name\":\"s\",\"type\":\"t\",\"params\":{\"p\":1.5}}]",
            "Form",
            "components[0].subcomponents[0].params.p",
        ),
        (
            "\"subcomponents\":[{\"slot_name\":\"s\",\"type\":\"t\",\"subcomponents\":[{}]}]",
            "Form",
            "components[0].subcomponents[0].subcomponents",
        ),
        (
            "\"params\":{\"s.p\":1},\"subcomponents\":[{\"slot_name\":\"s\",\"type\":\"t\",\"params\":{\"p\":1}}]",
            "Form",
            "components[0].subcomponents[0]",
        ),
        (
            "\"subcomponents\":[{\"slot_name\":\"input_latency\",\"type\":\"5 m\"}]",
            "Unit",
            "components[0].params.input_latency",
        ),
        (
            "\"statistics\":[{\"name\":\"x\",\"type\":\"y\"}]",
            "Form",
            "components[0].statistics[0].type",
        ),
        (
            "\"statistics\":[{\"name\":\"x\",\"type\":\"sst.HistogramStatistic\",\"params\":{\"numbins\":4294967296}}]",
            "Form",
            "components[0].statistics[0]",
        ),
        (
            "\"partition\":{\"thread\":4294967296}",
            "Form",
            "components[0].partition.thread",
        ),
    ];
    for row in &rows {
        let mut text = String::from_str(
            rt.alloc(),
            "{\"components\":[{\"name\":\"a\",\"type\":\"t\",",
        )?;
        text.push_str(row.0)?;
        text.push_str("}]}")?;
        assert!(rt; refuses(rt.alloc(), text.as_str(), row.1, row.2));
    }
    Ok(())
}
