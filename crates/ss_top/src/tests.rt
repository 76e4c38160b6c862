//! Whole calls over a shelf and sinks in memory.

use crate::{Ran, Status, sst_here};
use ss_edge::{MemShelf, MemSink};
use ss_library::Any;
use ss_units::Text;
use ss_worker::Worker;
use std::alloc::{AllocError, Global};
use std::process::Abort;
use std::test::Fail;
use std::thread::Threads;

/// A pinger of three rounds and an echo, joined by a link of 1 ns each way.
pub(super) const PING_PONG: &str =
    "{\"components\":[{\"name\":\"ping\",\"type\":\"core.pinger\",\"params\":{\"count\":3}},{\"name\":\"echo\",\"type\":\"core.echo\",\"params\":{}}],\"links\":[{\"name\":\"wire\",\"left\":{\"component\":\"ping\",\"port\":\"port\",\"latency\":\"1ns\"},\"right\":{\"component\":\"echo\",\"port\":\"port\",\"latency\":\"1ns\"}}]}";

pub(super) const PONGS: &str =
    "ping: pong 1 at 2000 ps\nping: pong 2 at 4000 ps\nping: pong 3 at 6000 ps\nSimulation is complete, simulated time: 1000000 ps\n";

/// A pinger and an echo, joined by a link that takes no time on one side.
const NO_LATENCY: &str =
    "{\"components\":[{\"name\":\"ping\",\"type\":\"core.pinger\"},{\"name\":\"echo\",\"type\":\"core.echo\"}],\"links\":[{\"name\":\"wire\",\"left\":{\"component\":\"ping\",\"port\":\"port\",\"latency\":\"0ns\"},\"right\":{\"component\":\"echo\",\"port\":\"port\",\"latency\":\"1ns\"}}]}";

/// Four tickers in a ring, the first of which names thread 5.
const RING: &str =
    "{\"components\":[{\"name\":\"a\",\"type\":\"core.ticker\",\"partition\":{\"thread\":5}},{\"name\":\"b\",\"type\":\"core.ticker\"},{\"name\":\"c\",\"type\":\"core.ticker\"},{\"name\":\"d\",\"type\":\"core.ticker\"}],\"links\":[{\"name\":\"w\",\"left\":{\"component\":\"a\",\"port\":\"out\",\"latency\":\"1ps\"},\"right\":{\"component\":\"b\",\"port\":\"in0\",\"latency\":\"1ps\"}},{\"name\":\"x\",\"left\":{\"component\":\"b\",\"port\":\"out\",\"latency\":\"5ps\"},\"right\":{\"component\":\"c\",\"port\":\"in0\",\"latency\":\"5ps\"}},{\"name\":\"y\",\"left\":{\"component\":\"c\",\"port\":\"out\",\"latency\":\"1ps\"},\"right\":{\"component\":\"d\",\"port\":\"in0\",\"latency\":\"1ps\"}},{\"name\":\"z\",\"left\":{\"component\":\"d\",\"port\":\"out\",\"latency\":\"9ps\"},\"right\":{\"component\":\"a\",\"port\":\"in0\",\"latency\":\"9ps\"}}]}";

/// The words of a line, which spaces part.
fn words_of(alloc: Global, line: &str) -> Result<Vec<Text>, AllocError> {
    let mut words = Vec::new(alloc);
    for word in line.split_whitespace() {
        words.push(Text::new(alloc, word)?)?;
    }
    Ok(words)
}

pub(super) fn shelf_with(
    alloc: Global,
    graph: &str,
    fails: Vec<(u64, u64)>,
) -> Result<MemShelf, AllocError> {
    let mut entries = Vec::new(alloc);
    let bytes = Vec::from_slice(alloc, graph.as_bytes())?;
    entries.push((Text::new(alloc, "g1.json")?, bytes))?;
    MemShelf::new(alloc, entries, fails)
}

/// A call, and what it must leave.
#[derive(Drop)]
pub(super) struct Case<'a> {
    line: &'a str,
    graph: &'a str,
    most: usize,
    status: Status,
    out: &'a str,
    err: &'a str,
}

/// Runs a case over a shelf, with a sink that fails at the listed calls, and gives what it leaves.
pub(super) fn check_over<R: Abort + Threads + Sync>(
    rt: &R,
    alloc: Global,
    case: &Case,
    shelf: &mut MemShelf,
    fails: Vec<u64>,
) -> Result<Ran, AllocError> {
    let words = words_of(alloc, case.line)?;
    let mut out = MemSink::new(alloc, case.most, fails);
    let mut err = MemSink::new(alloc, 0, Vec::new(alloc));
    let mut ran = Ran::new(alloc);
    let status = sst_here(rt, alloc, &words, shelf, &mut out, &mut err, &mut ran);
    assert_eq!(rt; status, case.status);
    assert_eq!(rt; out.bytes(), case.out.as_bytes());
    assert_eq!(rt; err.bytes(), case.err.as_bytes());
    Ok(ran)
}

/// Runs a case with a sink that fails at the listed calls.
fn check<R: Abort + Threads + Sync>(
    rt: &R,
    alloc: Global,
    case: &Case,
    fails: Vec<u64>,
) -> Result<(), AllocError> {
    let mut shelf = shelf_with(alloc, case.graph, Vec::new(alloc))?;
    let _ran = check_over(rt, alloc, case, &mut shelf, fails)?;
    Ok(())
}

pub(super) fn case_of<'a>(
    line: &'a str,
    graph: &'a str,
    status: Status,
    out: &'a str,
    err: &'a str,
) -> Case<'a> {
    Case {
        line,
        graph,
        most: 0,
        status,
        out,
        err,
    }
}

/// Runs a case in one, two and three parts, and on one, two and four threads. A graph that can't be run in so many parts is
/// refused for that, unless it is refused before.
fn check_spread<R: Abort + Threads + Sync>(
    rt: &R,
    alloc: Global,
    case: &Case,
    most_parts: u32,
    fails: &[u64],
) -> Result<(), AllocError> {
    for (words, parts) in [
        ("--parts=1", 1),
        ("--parts=2", 2),
        ("--parts=3", 3),
        ("--threads=1", 1),
        ("--threads=2", 1),
        ("--threads=4", 1),
    ] {
        let line = format!(in alloc; "{} {}", case.line, words)?;
        let limit = format!(in alloc; "sst: limit: parts {}\n", parts)?;
        let fails = Vec::from_slice(alloc, fails)?;
        if parts > most_parts {
            let refused = Case {
                line: line.as_str(),
                graph: case.graph,
                most: case.most,
                status: Status::Limit,
                out: "",
                err: limit.as_str(),
            };
            check(rt, alloc, &refused, fails)?;
        } else {
            let spread = Case {
                line: line.as_str(),
                graph: case.graph,
                most: case.most,
                status: case.status,
                out: case.out,
                err: case.err,
            };
            check(rt, alloc, &spread, fails)?;
        }
    }
    Ok(())
}

#[test]
fn does_what_lines_ask(rt: HostRuntime) -> Result<(), Fail> {
    let alloc = rt.alloc();
    for (line, graph, out) in [
        ("run g1.json", PING_PONG, PONGS),
        ("run g1.json --threads=4 --exchange=queue", PING_PONG, PONGS),
        (
            "run g1.json --parts=2 --partitioner=roundrobin",
            PING_PONG,
            PONGS,
        ),
        (
            "run --stop-at 2ns g1.json --parts=2",
            PING_PONG,
            "Simulation is complete, simulated time: 2000 ps\n",
        ),
        (
            "run --stop-at 2ns g1.json",
            PING_PONG,
            "Simulation is complete, simulated time: 2000 ps\n",
        ),
        (
            "check g1.json",
            PING_PONG,
            "graph accepted: 2 components, 1 links\n",
        ),
        (
            "partition g1.json --parts=2 --partitioner=latency",
            RING,
            "a 0\nb 0\nc 1\nd 1\ncut 5 ps\n",
        ),
        ("partition g1.json", RING, "a 0\nb 0\nc 0\nd 0\ncut none\n"),
        (
            "partition g1.json --parts=2 --partitioner=roundrobin",
            RING,
            "a 0\nb 1\nc 0\nd 1\ncut 1 ps\n",
        ),
    ] {
        let case = case_of(line, graph, Status::Whole, out, "");
        check(&rt, alloc, &case, Vec::new(alloc))?;
    }
    Ok(())
}

#[test]
fn runs_in_parts_what_it_runs_whole(rt: HostRuntime) -> Result<(), Fail> {
    let alloc = rt.alloc();
    for (line, graph, parts, out) in [
        ("run g1.json", PING_PONG, 2, PONGS),
        (
            "run g1.json",
            "{\"components\":[]}",
            1,
            "Simulation is complete, simulated time: 0 ps\n",
        ),
        (
            "run g1.json --stop-at=3ns",
            PING_PONG,
            2,
            "ping: pong 1 at 2000 ps\nSimulation is complete, simulated time: 3000 ps\n",
        ),
        (
            "run g1.json --stop-at=2ns",
            PING_PONG,
            2,
            "Simulation is complete, simulated time: 2000 ps\n",
        ),
    ] {
        let case = case_of(line, graph, Status::Whole, out, "");
        check_spread(&rt, alloc, &case, parts, &[])?;
    }
    let text = case_of(
        "run g1.json",
        "{\"components\":[",
        Status::Text,
        "",
        "sst: text: g1.json\n",
    );
    check_spread(&rt, alloc, &text, 3, &[])?;
    Ok(())
}

#[test]
fn refuses_lines(rt: HostRuntime) -> Result<(), Fail> {
    let alloc = rt.alloc();
    for (line, graph, status, err) in [
        (
            "",
            PING_PONG,
            Status::Usage,
            "sst: usage: unknown command\n",
        ),
        (
            "run --help",
            PING_PONG,
            Status::Usage,
            "sst: usage: words\n",
        ),
        (
            "run g1.json --parts=3",
            PING_PONG,
            Status::Limit,
            "sst: limit: parts 3\n",
        ),
        (
            "run g1.json --parts=0",
            PING_PONG,
            Status::Limit,
            "sst: limit: parts 0\n",
        ),
        (
            "run g2.json --threads=33",
            PING_PONG,
            Status::Limit,
            "sst: limit: threads 33\n",
        ),
        (
            "run g2.json --threads=0",
            PING_PONG,
            Status::Limit,
            "sst: limit: threads 0\n",
        ),
        (
            "run g1.json --parts=4 --partitioner=self",
            RING,
            Status::Graph,
            "sst: graph: BadThread components[0].partition.thread\n",
        ),
        (
            "run g1.json --stop-at=5000000s",
            PING_PONG,
            Status::Usage,
            "sst: usage: --stop-at\n",
        ),
        (
            "check g1.json",
            "[]",
            Status::Graph,
            "sst: graph: Form graph\n",
        ),
        (
            "partition g1.json --parts=3",
            PING_PONG,
            Status::Limit,
            "sst: limit: parts 3\n",
        ),
        (
            "partition g1.json --parts=4 --partitioner=self",
            RING,
            Status::Graph,
            "sst: graph: BadThread components[0].partition.thread\n",
        ),
        (
            "run g1.json",
            "{\"components\":[",
            Status::Text,
            "sst: text: g1.json\n",
        ),
    ] {
        let case = case_of(line, graph, status, "", err);
        check(&rt, alloc, &case, Vec::new(alloc))?;
    }
    Ok(())
}

// The pinger and the echo, where the pinger is asked for its statistic.
const ASKING: &str =
    "{\"components\":[{\"name\":\"ping\",\"type\":\"core.pinger\",\"params\":{\"count\":3},\"statistics\":[{\"name\":\"roundtrip\"}]},{\"name\":\"echo\",\"type\":\"core.echo\",\"params\":{}}],\"links\":[{\"name\":\"wire\",\"left\":{\"component\":\"ping\",\"port\":\"port\",\"latency\":\"1ns\"},\"right\":{\"component\":\"echo\",\"port\":\"port\",\"latency\":\"1ns\"}}]}";

#[test]
fn puts_statistics(rt: HostRuntime) -> Result<(), Fail> {
    let alloc = rt.alloc();
    let mut case = case_of("", ASKING, Status::Whole, PONGS, "");
    for line in [
        "run g1.json --parts=1 --stats=s.csv",
        "run g1.json --parts=2 --stats=s.csv",
        "run g1.json --threads=2 --stats=s.csv",
        "run g1.json --threads=4 --stats=s.csv",
        "run g1.json --stats=s.csv",
    ] {
        case.line = line;
        let mut shelf = shelf_with(alloc, ASKING, Vec::new(alloc))?;
        let _ran = check_over(&rt, alloc, &case, &mut shelf, Vec::new(alloc))?;
        let text = shelf.entry("s.csv").ok_or("no entry")?;
        assert_eq!(rt;
            text,
            b"component,statistic,field,value\nping,roundtrip,count,3\nping,roundtrip,sum,6000\nping,roundtrip,sumsq,12000000\nping,roundtrip,min,2000\nping,roundtrip,max,2000\n".as_slice()
        );
    }
    // Two reads come before the put, which keeps nine bytes.
    let mut fails = Vec::new(alloc);
    fails.push((2, 9))?;
    let mut full = shelf_with(alloc, ASKING, fails)?;
    case.status = Status::WriteFault;
    case.err = "sst: write fault: s.csv\n";
    let _full = check_over(&rt, alloc, &case, &mut full, Vec::new(alloc))?;
    let part = full.entry("s.csv").ok_or("no entry")?;
    assert_eq!(rt; part, b"component".as_slice());
    Ok(())
}

/// A router with four generators, each of which sends 10 packets of 8 flits to its complement.
const GENERATORS: &str =
    "{\"program_options\":{\"exit-period\":\"1us\"},\"components\":[{\"name\":\"rtr\",\"type\":\"merlin.hr_router\",\"params\":{\"id\":0,\"topology\":\"merlin.singlerouter\",\"topology.local_ports\":4,\"xbar_bw\":\"8GB/s\",\"num_vns\":2,\"flit_size\":\"8B\",\"link_bw\":\"8GB/s\",\"input_buf_size\":\"1KiB\",\"output_buf_size\":\"1KiB\"}},{\"name\":\"gen0\",\"type\":\"merlin.trafficgen\",\"params\":{\"id\":0,\"num_peers\":4,\"pattern\":\"complement\",\"packets\":10,\"packet_size\":\"64B\",\"num_vns\":2,\"flit_size\":\"8B\",\"link_bw\":\"8GB/s\",\"input_buf_size\":\"1KiB\",\"output_buf_size\":\"1KiB\"},\"statistics\":[{\"name\":\"received\"},{\"name\":\"out_of_order\"}]},{\"name\":\"gen1\",\"type\":\"merlin.trafficgen\",\"params\":{\"id\":1,\"num_peers\":4,\"pattern\":\"complement\",\"packets\":10,\"packet_size\":\"64B\",\"num_vns\":2,\"flit_size\":\"8B\",\"link_bw\":\"8GB/s\",\"input_buf_size\":\"1KiB\",\"output_buf_size\":\"1KiB\"},\"statistics\":[{\"name\":\"received\"},{\"name\":\"out_of_order\"}]},{\"name\":\"gen2\",\"type\":\"merlin.trafficgen\",\"params\":{\"id\":2,\"num_peers\":4,\"pattern\":\"complement\",\"packets\":10,\"packet_size\":\"64B\",\"num_vns\":2,\"flit_size\":\"8B\",\"link_bw\":\"8GB/s\",\"input_buf_size\":\"1KiB\",\"output_buf_size\":\"1KiB\"},\"statistics\":[{\"name\":\"received\"},{\"name\":\"out_of_order\"}]},{\"name\":\"gen3\",\"type\":\"merlin.trafficgen\",\"params\":{\"id\":3,\"num_peers\":4,\"pattern\":\"complement\",\"packets\":10,\"packet_size\":\"64B\",\"num_vns\":2,\"flit_size\":\"8B\",\"link_bw\":\"8GB/s\",\"input_buf_size\":\"1KiB\",\"output_buf_size\":\"1KiB\"},\"statistics\":[{\"name\":\"received\"},{\"name\":\"out_of_order\"}]}],\"links\":[{\"name\":\"l0\",\"left\":{\"component\":\"gen0\",\"port\":\"rtr\",\"latency\":\"10ns\"},\"right\":{\"component\":\"rtr\",\"port\":\"port0\",\"latency\":\"10ns\"}},{\"name\":\"l1\",\"left\":{\"component\":\"gen1\",\"port\":\"rtr\",\"latency\":\"10ns\"},\"right\":{\"component\":\"rtr\",\"port\":\"port1\",\"latency\":\"10ns\"}},{\"name\":\"l2\",\"left\":{\"component\":\"gen2\",\"port\":\"rtr\",\"latency\":\"10ns\"},\"right\":{\"component\":\"rtr\",\"port\":\"port2\",\"latency\":\"10ns\"}},{\"name\":\"l3\",\"left\":{\"component\":\"gen3\",\"port\":\"rtr\",\"latency\":\"10ns\"},\"right\":{\"component\":\"rtr\",\"port\":\"port3\",\"latency\":\"10ns\"}}]}";

const GENERATED: &str =
    "component,statistic,field,value\ngen0,received,count,10\ngen0,received,sum,80\ngen0,received,sumsq,640\ngen0,received,min,8\ngen0,received,max,8\ngen0,out_of_order,count,10\ngen0,out_of_order,sum,0\ngen0,out_of_order,sumsq,0\ngen0,out_of_order,min,0\ngen0,out_of_order,max,0\ngen1,received,count,10\ngen1,received,sum,80\ngen1,received,sumsq,640\ngen1,received,min,8\ngen1,received,max,8\ngen1,out_of_order,count,10\ngen1,out_of_order,sum,0\ngen1,out_of_order,sumsq,0\ngen1,out_of_order,min,0\ngen1,out_of_order,max,0\ngen2,received,count,10\ngen2,received,sum,80\ngen2,received,sumsq,640\ngen2,received,min,8\ngen2,received,max,8\ngen2,out_of_order,count,10\ngen2,out_of_order,sum,0\ngen2,out_of_order,sumsq,0\ngen2,out_of_order,min,0\ngen2,out_of_order,max,0\ngen3,received,count,10\ngen3,received,sum,80\ngen3,received,sumsq,640\ngen3,received,min,8\ngen3,received,max,8\ngen3,out_of_order,count,10\ngen3,out_of_order,sum,0\ngen3,out_of_order,sumsq,0\ngen3,out_of_order,min,0\ngen3,out_of_order,max,0\n";

#[test]
fn generators_reach_their_complements(rt: HostRuntime) -> Result<(), Fail> {
    let alloc = rt.alloc();
    let out = "Simulation is complete, simulated time: 1000000 ps\n";
    for line in [
        "run g1.json --stats=s.csv",
        "run g1.json --parts=2 --stats=s.csv",
        "run g1.json --threads=3 --stats=s.csv",
    ] {
        let case = case_of(line, GENERATORS, Status::Whole, out, "");
        let mut shelf = shelf_with(alloc, GENERATORS, Vec::new(alloc))?;
        let _ran = check_over(&rt, alloc, &case, &mut shelf, Vec::new(alloc))?;
        let text = shelf.entry("s.csv").ok_or("no entry")?;
        assert_eq!(rt; text, GENERATED.as_bytes());
    }
    Ok(())
}

#[test]
fn runs_clocks(rt: HostRuntime) -> Result<(), Fail> {
    let alloc = rt.alloc();
    for (graph, parts, out) in [
        (
            "{\"components\":[{\"name\":\"a\",\"type\":\"core.ticker\",\"params\":{\"clock\":\"1ns\",\"count\":1}},{\"name\":\"b\",\"type\":\"core.ticker\",\"params\":{\"clock\":\"1ns\",\"count\":1}},{\"name\":\"c\",\"type\":\"core.ticker\",\"params\":{\"count\":0}}],\"links\":[{\"name\":\"x\",\"left\":{\"component\":\"b\",\"port\":\"out\",\"latency\":\"1ns\"},\"right\":{\"component\":\"c\",\"port\":\"in1\",\"latency\":\"1ns\"}},{\"name\":\"y\",\"left\":{\"component\":\"a\",\"port\":\"out\",\"latency\":\"1ns\"},\"right\":{\"component\":\"c\",\"port\":\"in0\",\"latency\":\"1ns\"}}]}",
            3,
            "a: tick 1 at 1000 ps\nb: tick 1 at 1000 ps\nc: event 1 on in1 at 2000 ps\nc: event 1 on in0 at 2000 ps\nSimulation is complete, simulated time: 1000000 ps\n",
        ),
        (
            "{\"components\":[{\"name\":\"a\",\"type\":\"core.ticker\",\"params\":{\"clock\":\"1ns\",\"count\":1}},{\"name\":\"b\",\"type\":\"core.ticker\",\"params\":{\"clock\":\"2ns\",\"count\":1}}],\"links\":[{\"name\":\"x\",\"left\":{\"component\":\"a\",\"port\":\"out\",\"latency\":\"1ns\"},\"right\":{\"component\":\"b\",\"port\":\"in0\",\"latency\":\"1ns\"}}]}",
            2,
            "a: tick 1 at 1000 ps\nb: tick 1 at 2000 ps\nb: event 1 on in0 at 2000 ps\nSimulation is complete, simulated time: 1000000 ps\n",
        ),
        (
            "{\"components\":[{\"name\":\"a\",\"type\":\"core.ticker\",\"params\":{\"clock\":\"999999ps\",\"count\":1}}]}",
            1,
            "a: tick 1 at 999999 ps\nSimulation is complete, simulated time: 1000000 ps\n",
        ),
        (
            "{\"components\":[{\"name\":\"a\",\"type\":\"core.ticker\",\"params\":{\"clock\":\"1us\",\"count\":1}}]}",
            1,
            "a: tick 1 at 1000000 ps\nSimulation is complete, simulated time: 2000000 ps\n",
        ),
        (
            "{\"program_options\":{\"stop-at\":\"3ns\"},\"components\":[{\"name\":\"ping\",\"type\":\"core.pinger\",\"params\":{\"count\":3}},{\"name\":\"echo\",\"type\":\"core.echo\"}],\"links\":[{\"name\":\"x\",\"left\":{\"component\":\"ping\",\"port\":\"port\",\"latency\":\"1ns\"},\"right\":{\"component\":\"echo\",\"port\":\"port\",\"latency\":\"1ns\"}}]}",
            2,
            "ping: pong 1 at 2000 ps\nSimulation is complete, simulated time: 3000 ps\n",
        ),
    ] {
        let case = case_of("run g1.json", graph, Status::Whole, out, "");
        check_spread(&rt, alloc, &case, parts, &[])?;
    }
    Ok(())
}

/// How many events a worker handed out to another part, where it can be asked.
fn sent_to(worker: &Worker<Any>, taker: u32) -> Option<u128> {
    if worker.failed() || taker >= worker.run().partition.parts() || taker == worker.part() {
        return None;
    }
    Some(worker.sent(taker))
}

#[test]
fn reports_windows(rt: HostRuntime) -> Result<(), Fail> {
    let alloc = rt.alloc();
    for (line, workers, report) in [
        (
            "run g1.json --threads=2 --sync-report=r",
            2,
            "windows 7\n0 1 batches 7 events 3\n1 0 batches 7 events 3\n",
        ),
        (
            "run g1.json --threads=2 --exchange=queue --sync-report=r",
            2,
            "windows 7\n0 1 batches 7 events 3\n1 0 batches 7 events 3\n",
        ),
        ("run g1.json --threads=1 --sync-report=r", 1, "windows 1\n"),
    ] {
        let mut shelf = shelf_with(alloc, PING_PONG, Vec::new(alloc))?;
        let case = case_of(line, PING_PONG, Status::Whole, PONGS, "");
        let ran = check_over(&rt, alloc, &case, &mut shelf, Vec::new(alloc))?;
        let text = shelf.entry("r").ok_or("no report")?;
        assert_eq!(rt; text, report.as_bytes());
        assert_eq!(rt; ran.workers.len(), workers);
        if workers == 2 {
            assert_eq!(rt; sent_to(&ran.workers[0], 1), Some(3));
            assert_eq!(rt; sent_to(&ran.workers[1], 0), Some(3));
            assert_eq!(rt; ran.workers[1].windows(), 7);
        }
    }
    Ok(())
}

#[test]
fn refuses_texts(rt: HostRuntime) -> Result<(), Fail> {
    let alloc = rt.alloc();
    for (graph, err) in [
        ("{}", "sst: graph: Member components\n"),
        ("[]", "sst: graph: Form graph\n"),
        (NO_LATENCY, "sst: graph: Latency links[0].left\n"),
        (
            "{\"components\":[],\"shared_params\":1}",
            "sst: graph: SharedParams shared_params\n",
        ),
        (
            "{\"components\":[{\"name\":\"a\",\"type\":\"core.echo\"}]}",
            "sst: graph: PortUnlinked components[0].port\n",
        ),
        (
            "{\"components\":[{\"name\":\"a\",\"type\":\"core.other\"}]}",
            "sst: graph: UnknownType components[0].type\n",
        ),
        (
            "{\"components\":[{\"name\":\"a\",\"type\":\"core.pinger\",\"params\":{\"count\":\"01\"}}]}",
            "sst: graph: Param components[0].params.count\n",
        ),
    ] {
        let case = case_of("run g1.json", graph, Status::Graph, "", err);
        check_spread(&rt, alloc, &case, 3, &[])?;
    }
    Ok(())
}

#[test]
fn tells_faults(rt: HostRuntime) -> Result<(), Fail> {
    let alloc = rt.alloc();
    let write = case_of(
        "run g1.json",
        PING_PONG,
        Status::WriteFault,
        "ping: pong 1 at 2000 ps\n",
        "sst: write fault: output\n",
    );
    check_spread(&rt, alloc, &write, 2, &[1])?;
    let read = case_of(
        "run g2.json",
        PING_PONG,
        Status::ReadFault,
        "",
        "sst: read fault: g2.json\n",
    );
    check_spread(&rt, alloc, &read, 3, &[])?;
    let mut bytewise = case_of("run g1.json", PING_PONG, Status::Whole, PONGS, "");
    bytewise.most = 1;
    check_spread(&rt, alloc, &bytewise, 2, &[])?;
    Ok(())
}
