//! Checkpoints that runs put, and restarts from their bytes, over a shelf and sinks in memory. What is expected stands here field
//! by field, as the form says.

use crate::Status;
use crate::tests::{PING_PONG, PONGS, case_of, check_over, shelf_with};
use ss_edge::MemShelf;
use ss_units::Text;
use ss_wire::Writer;
use std::alloc::{AllocError, Global};
use std::fmt::Write;
use std::process::Abort;
use std::test::Fail;
use std::thread::Threads;

/// A shelf with one entry.
fn shelf_of(alloc: Global, name: &str, bytes: &[u8]) -> Result<MemShelf, AllocError> {
    let mut entries = Vec::new(alloc);
    let bytes = Vec::from_slice(alloc, bytes)?;
    entries.push((Text::new(alloc, name)?, bytes))?;
    MemShelf::new(alloc, entries, Vec::new(alloc))
}

/// Runs a line that ends well over a shelf with a graph, and gives the shelf as it leaves it.
fn run_on<R: Abort + Threads + Sync>(
    rt: &R,
    alloc: Global,
    line: &str,
    graph: &str,
    out: &str,
) -> Result<MemShelf, AllocError> {
    let mut shelf = shelf_with(alloc, graph, Vec::new(alloc))?;
    let case = case_of(line, graph, Status::Whole, out, "");
    let _ran = check_over(rt, alloc, &case, &mut shelf, Vec::new(alloc))?;
    Ok(shelf)
}

/// Runs a line that ends well over a shelf with a checkpoint `from`, and gives the shelf as it leaves it.
fn restart_on<R: Abort + Threads + Sync>(
    rt: &R,
    alloc: Global,
    line: &str,
    bytes: &[u8],
    out: &str,
) -> Result<MemShelf, AllocError> {
    let mut shelf = shelf_of(alloc, "from", bytes)?;
    let case = case_of(line, "", Status::Whole, out, "");
    let _ran = check_over(rt, alloc, &case, &mut shelf, Vec::new(alloc))?;
    Ok(shelf)
}

/// What stands before the graph text in a checkpoint of the pinger and its echo at 5 ns, behind the first letter: the other letters
/// and the number of the form; the time; the time of the last event, 4 ns; and 264 bytes of graph text.
const BEFORE: &[u8] =
    b"STCKPT1\x00\x00\x00\x00\x00\x00\x13\x88\x00\x00\x00\x00\x00\x00\x0f\xa0\x00\x00\x01\x08";

/// What comes behind the number that the pinger sent last: 2 came back, the last was sent at 4 ns, and three bytes of the
/// number of events, whose last byte is left out.
const STATE: &[u8] = b"\x00\x00\x00\x02\x00\x00\x00\x00\x00\x00\x0f\xa0\x00\x00\x00";

/// The number 3 comes to the echo at 5 ns.
const COMING: &[u8] = b"\x00\x00\x00\x00\x00\x00\x13\x88\x02\x00\x00\x00\x00\x00\x00\x00\x03";

/// A checkpoint of the pinger and its echo, from its first byte, the last byte of the number that was sent last, that of the number
/// of events, and the events.
fn pair_saved(
    alloc: Global,
    first: u8,
    sent: u8,
    count: u8,
    events: &[u8],
) -> Result<Vec<u8>, AllocError> {
    let mut bytes = Vec::new(alloc);
    bytes.push(first)?;
    bytes.extend_from_slice(BEFORE)?;
    bytes.extend_from_slice(PING_PONG.as_bytes())?;
    bytes.extend_from_slice(b"\x00\x00\x00")?;
    bytes.push(sent)?;
    bytes.extend_from_slice(STATE)?;
    bytes.push(count)?;
    bytes.extend_from_slice(events)?;
    Ok(bytes)
}

/// The checkpoint that the run of the pinger and its echo puts at 5 ns.
fn pair_at_five(alloc: Global) -> Result<Vec<u8>, AllocError> {
    pair_saved(alloc, b'S', 3, 1, COMING)
}

const REST: &str = "ping: pong 3 at 6000 ps\nSimulation is complete, simulated time: 1000000 ps\n";

#[test]
fn a_pair_is_saved(rt: HostRuntime) -> Result<(), Fail> {
    let alloc = rt.alloc();
    let wanted = pair_at_five(alloc)?;
    assert_eq!(rt; wanted.len(), 329);
    for line in [
        "run g1.json --checkpoint-at=5ns",
        "run g1.json --checkpoint-at=5ns --exchange=queue",
        "run g1.json --checkpoint-at=5ns --parts=1 --threads=2",
        "run g1.json --checkpoint-at=5ns --parts=2",
        "run g1.json --checkpoint-at=5ns --parts=2 --partitioner=roundrobin",
        "run g1.json --checkpoint-at=5ns --parts=2 --exchange=queue",
        "run g1.json --checkpoint-at=5ns --threads=2",
        "run g1.json --checkpoint-at=5ns --threads=2 --exchange=joined",
        "run g1.json --checkpoint-at=5ns --threads=2 --exchange=queue",
        "run g1.json --checkpoint-period=5ns --threads=2 --checkpoint-at=7ns",
    ] {
        let shelf = run_on(&rt, alloc, line, PING_PONG, PONGS)?;
        let found = shelf.entry("checkpoint_5000.sstcpt").ok_or("no entry")?;
        assert_eq!(rt; found, wanted.as_slice(), "{line}");
        assert_eq!(rt; shelf.entry("checkpoint_7000.sstcpt"), None, "{line}");
        assert_eq!(rt; shelf.entry("checkpoint_10000.sstcpt"), None, "{line}");
    }
    Ok(())
}

#[test]
fn names_and_times_are_those_asked_for(rt: HostRuntime) -> Result<(), Fail> {
    let alloc = rt.alloc();
    let wanted = pair_at_five(alloc)?;
    let line =
        "run g1.json --checkpoint-period=2500ps --checkpoint-prefix=p --checkpoint-at=5ns --stop-at=5001ps";
    let out =
        "ping: pong 1 at 2000 ps\nping: pong 2 at 4000 ps\nSimulation is complete, simulated time: 5001 ps\n";
    let shelf = run_on(&rt, alloc, line, PING_PONG, out)?;
    assert_eq!(rt;
        shelf.entry("p_5000.sstcpt").ok_or("no entry")?,
        wanted.as_slice()
    );
    assert!(rt; shelf.entry("p_2500.sstcpt").is_some());
    assert!(rt; shelf.entry("checkpoint_5000.sstcpt").is_none());
    let stopped = "run g1.json --checkpoint-at=5ns --stop-at=5ns";
    let out =
        "ping: pong 1 at 2000 ps\nping: pong 2 at 4000 ps\nSimulation is complete, simulated time: 5000 ps\n";
    let shelf = run_on(&rt, alloc, stopped, PING_PONG, out)?;
    assert!(rt; shelf.entry("checkpoint_5000.sstcpt").is_none());
    let line = "restart from --checkpoint-period=1ns --checkpoint-prefix=later";
    let shelf = restart_on(&rt, alloc, line, wanted.as_slice(), REST)?;
    assert!(rt; shelf.entry("later_5000.sstcpt").is_none());
    assert!(rt; shelf.entry("later_6000.sstcpt").is_some());
    assert!(rt; shelf.entry("later_7000.sstcpt").is_none());
    Ok(())
}

#[test]
fn a_pair_goes_on(rt: HostRuntime) -> Result<(), Fail> {
    let alloc = rt.alloc();
    let bytes = pair_at_five(alloc)?;
    let end = "Simulation is complete, simulated time: 5000 ps\n";
    for (line, out) in [
        ("restart from", REST),
        ("restart from --parts=2", REST),
        (
            "restart from --parts=2 --partitioner=roundrobin --exchange=queue",
            REST,
        ),
        ("restart from --threads=2", REST),
        ("restart from --stop-at=1ns", end),
        ("restart from --stop-at=5ns --parts=2", end),
        ("restart from --stop-at=1ns --threads=2", end),
        (
            "restart from --stop-at=6ns",
            "Simulation is complete, simulated time: 6000 ps\n",
        ),
        (
            "restart from --stop-at=6001ps --parts=2",
            "ping: pong 3 at 6000 ps\nSimulation is complete, simulated time: 6000 ps\n",
        ),
    ] {
        let shelf = restart_on(&rt, alloc, line, bytes.as_slice(), out)?;
        let left = shelf.entry("from").ok_or("no entry")?;
        assert_eq!(rt; left, bytes.as_slice(), "{line}");
        assert!(rt; shelf.entry("checkpoint_5000.sstcpt").is_none(), "{line}");
    }
    Ok(())
}

/// Bytes that are gone on from or refused, and what that must leave.
#[derive(Drop)]
struct Variant<'a> {
    first: u8,
    sent: u8,
    count: u8,
    events: &'a [u8],
    status: Status,
    out: &'a str,
    err: &'a str,
}

fn refused<'a>(first: u8, sent: u8, count: u8, events: &'a [u8], err: &'a str) -> Variant<'a> {
    Variant {
        first,
        sent,
        count,
        events,
        status: Status::Checkpoint,
        out: "",
        err,
    }
}

fn accepted<'a>(count: u8, events: &'a [u8], out: &'a str) -> Variant<'a> {
    Variant {
        first: b'S',
        sent: 3,
        count,
        events,
        status: Status::Whole,
        out,
        err: "",
    }
}

#[test]
fn variants_are_judged(rt: HostRuntime) -> Result<(), Fail> {
    let alloc = rt.alloc();
    for variant in [
        accepted(1, COMING, REST),
        // Another number comes to the pinger at the same time.
        accepted(
            2,
            b"\x00\x00\x00\x00\x00\x00\x13\x88\x02\x00\x00\x00\x00\x00\x00\x00\x03\x00\x00\x00\x00\x00\x00\x13\x88\x02\x00\x00\x00\x01\x00\x00\x00\x01",
            "ping: pong 1 at 5000 ps\nping: pong 3 at 6000 ps\nSimulation is complete, simulated time: 1000000 ps\n",
        ),
        // Another number comes to the echo, by an equal key.
        accepted(
            2,
            b"\x00\x00\x00\x00\x00\x00\x13\x88\x02\x00\x00\x00\x00\x00\x00\x00\x03\x00\x00\x00\x00\x00\x00\x13\x88\x02\x00\x00\x00\x00\x00\x00\x00\x01",
            "ping: pong 3 at 6000 ps\nping: pong 1 at 6000 ps\nSimulation is complete, simulated time: 1000000 ps\n",
        ),
        refused(
            b'S',
            3,
            1,
            b"\x00\x00\x00\x00\x00\x00\x13\x88\x02\x00\x00\x00\x00\x00\x00\x00",
            "sst: checkpoint: Short at 325\n",
        ),
        refused(
            b'S',
            3,
            1,
            b"\x00\x00\x00\x00\x00\x00\x13\x88\x02\x00\x00\x00\x00\x00\x00\x00\x03\x00",
            "sst: checkpoint: Trailing at 329\n",
        ),
        refused(0, 3, 1, COMING, "sst: checkpoint: Magic\n"),
        refused(
            b'S',
            3,
            2,
            b"\x00\x00\x00\x00\x00\x00\x13\x88\x02\x00\x00\x00\x01\x00\x00\x00\x01\x00\x00\x00\x00\x00\x00\x13\x88\x02\x00\x00\x00\x00\x00\x00\x00\x03",
            "sst: checkpoint: Order at 329\n",
        ),
        refused(
            b'S',
            3,
            1,
            b"\x00\x00\x00\x00\x00\x00\x13\x87\x02\x00\x00\x00\x00\x00\x00\x00\x03",
            "sst: checkpoint: Time event 0\n",
        ),
        refused(b'S', 4, 1, COMING, "sst: checkpoint: Element component 0\n"),
    ] {
        let bytes = pair_saved(
            alloc,
            variant.first,
            variant.sent,
            variant.count,
            variant.events,
        )?;
        let is_accepted = variant.status == Status::Whole;
        for line in [
            "restart from --checkpoint-at=6ns --stats=s.csv",
            "restart from --checkpoint-at=6ns --stats=s.csv --parts=2",
        ] {
            let mut shelf = shelf_of(alloc, "from", bytes.as_slice())?;
            let case = case_of(line, "", variant.status, variant.out, variant.err);
            let _ran = check_over(&rt, alloc, &case, &mut shelf, Vec::new(alloc))?;
            let left = shelf.entry("from").ok_or("no entry")?;
            assert_eq!(rt; left, bytes.as_slice());
            let later = shelf.entry("checkpoint_6000.sstcpt").is_some();
            assert_eq!(rt; later, is_accepted, "{}", variant.err);
            assert_eq!(rt;
                shelf.entry("s.csv").is_some(),
                is_accepted,
                "{}",
                variant.err
            );
        }
    }
    Ok(())
}

/// A router with two endpoints, which send each other one packet of 8 flits, that is what each queue holds.
const ROUTER: &str =
    "{\"components\":[{\"name\":\"rtr\",\"type\":\"merlin.hr_router\",\"params\":{\"id\":0,\"topology\":\"merlin.singlerouter\",\"topology.local_ports\":2,\"num_vns\":1,\"flit_size\":\"8B\",\"link_bw\":\"8GB/s\",\"xbar_bw\":\"8GB/s\",\"input_buf_size\":\"64B\",\"output_buf_size\":\"64B\"}},{\"name\":\"n0\",\"type\":\"merlin.test_nic\",\"params\":{\"id\":0,\"num_peers\":2,\"num_messages\":1,\"message_size\":\"64B\",\"verbose\":true,\"num_vns\":1,\"flit_size\":\"8B\",\"link_bw\":\"8GB/s\",\"input_buf_size\":\"64B\",\"output_buf_size\":\"64B\"}},{\"name\":\"n1\",\"type\":\"merlin.test_nic\",\"params\":{\"id\":1,\"num_peers\":2,\"num_messages\":1,\"message_size\":\"64B\",\"verbose\":true,\"num_vns\":1,\"flit_size\":\"8B\",\"link_bw\":\"8GB/s\",\"input_buf_size\":\"64B\",\"output_buf_size\":\"64B\"}}],\"links\":[{\"name\":\"l0\",\"left\":{\"component\":\"n0\",\"port\":\"rtr\",\"latency\":\"10ns\"},\"right\":{\"component\":\"rtr\",\"port\":\"port0\",\"latency\":\"10ns\"}},{\"name\":\"l1\",\"left\":{\"component\":\"n1\",\"port\":\"rtr\",\"latency\":\"10ns\"},\"right\":{\"component\":\"rtr\",\"port\":\"port1\",\"latency\":\"10ns\"}}]}";

const DELIVERED: &str =
    "n0: done, sent 1 received 1 at 40000 ps\nn1: done, sent 1 received 1 at 40000 ps\nSimulation is complete, simulated time: 1000000 ps\n";

/// A port's only channel is next, both of its queues are empty, and it has no credits.
fn write_channel(out: &mut Writer) -> Result<(), AllocError> {
    out.u8(0)?;
    out.u32(0)?;
    out.u32(0)?;
    out.u32(0)
}

/// The router crossed a packet to each port at 20 ns and sent it from 21 ns on; 8 flits take 8 ns each.
fn write_router(out: &mut Writer) -> Result<(), AllocError> {
    for _ in 0..2 {
        out.u64(29_000)?;
        out.u64(28_000)?;
        out.u64(28_000)?;
        write_channel(out)?;
    }
    // Port 0 had its packet from the last slot, port 1 from the first.
    out.u32(0)?;
    out.u32(1)
}

/// An endpoint sent its packet from 1 ns on and has received none.
fn write_endpoint(out: &mut Writer) -> Result<(), AllocError> {
    out.u64(1)?;
    out.u64(0)?;
    out.u64(9_000)?;
    write_channel(out)?;
    out.u64(0)?;
    out.u64(0)
}

/// An arrival on a line, up to its load.
fn write_arrival(out: &mut Writer, time: u64, line: u32) -> Result<(), AllocError> {
    out.u64(time)?;
    out.u8(2)?;
    out.u32(line)
}

fn write_credit(out: &mut Writer, line: u32, flits: u32) -> Result<(), AllocError> {
    write_arrival(out, 30_000, line)?;
    out.u8(1)?;
    out.u8(0)?;
    out.u32(flits)
}

/// The packet that an endpoint made at 1 ns comes to the other one.
fn write_packet(out: &mut Writer, line: u32, from: u32, to: u32) -> Result<(), AllocError> {
    write_arrival(out, 39_000, line)?;
    out.u8(0)?;
    out.u8(0)?;
    out.u32(from)?;
    out.u32(to)?;
    out.u8(0)?;
    out.u32(8)?;
    out.u64(0)?;
    out.u64(1_000)?;
    out.u64(0)
}

/// A checkpoint of the router and its endpoints at a time from 25 to 30 ns, from the number of flits of the first credit.
fn router_saved(alloc: Global, time: u64, flits: u32) -> Result<Vec<u8>, AllocError> {
    let text = ROUTER.as_bytes();
    let mut out = Writer::new(alloc);
    out.bytes(b"SSTCKPT1".as_slice())?;
    out.u64(time)?;
    out.u64(21_000)?;
    out.u32(951)?;
    out.bytes(text)?;
    write_router(&mut out)?;
    write_endpoint(&mut out)?;
    write_endpoint(&mut out)?;
    out.u32(4)?;
    write_credit(&mut out, 1, flits)?;
    write_credit(&mut out, 3, 8)?;
    write_packet(&mut out, 1, 1, 0)?;
    write_packet(&mut out, 3, 0, 1)?;
    Ok(out.finish())
}

#[test]
fn a_network_goes_on(rt: HostRuntime) -> Result<(), Fail> {
    let alloc = rt.alloc();
    assert_eq!(rt; ROUTER.len(), 951);
    let first = router_saved(alloc, 25_000, 8)?;
    let second = router_saved(alloc, 27_000, 8)?;
    for line in [
        "run g1.json --checkpoint-at=25ns",
        "run g1.json --checkpoint-at=25ns --parts=2",
        "run g1.json --checkpoint-at=25ns --threads=3",
    ] {
        let shelf = run_on(&rt, alloc, line, ROUTER, DELIVERED)?;
        let found = shelf.entry("checkpoint_25000.sstcpt").ok_or("no entry")?;
        assert_eq!(rt; found, first.as_slice(), "{line}");
    }
    for line in [
        "restart from --checkpoint-at=27ns",
        "restart from --checkpoint-at=27ns --parts=3",
        "restart from --checkpoint-at=27ns --threads=3 --exchange=queue",
    ] {
        let shelf = restart_on(&rt, alloc, line, first.as_slice(), DELIVERED)?;
        let found = shelf.entry("checkpoint_27000.sstcpt").ok_or("no entry")?;
        assert_eq!(rt; found, second.as_slice(), "{line}");
    }
    let _shelf = restart_on(
        &rt,
        alloc,
        "restart from --parts=3",
        second.as_slice(),
        DELIVERED,
    )?;
    let wrong = router_saved(alloc, 25_000, 7)?;
    let mut shelf = shelf_of(alloc, "from", wrong.as_slice())?;
    let case = case_of(
        "restart from --checkpoint-at=27ns --parts=3",
        "",
        Status::Checkpoint,
        "",
        "sst: checkpoint: Unbalanced line 0 channel 0\n",
    );
    let _ran = check_over(&rt, alloc, &case, &mut shelf, Vec::new(alloc))?;
    assert!(rt; shelf.entry("checkpoint_27000.sstcpt").is_none());
    Ok(())
}

#[test]
fn a_put_that_fails_is_told(rt: HostRuntime) -> Result<(), Fail> {
    let alloc = rt.alloc();
    for line in [
        "run g1.json --checkpoint-at=5ns --stats=s.csv",
        "run g1.json --checkpoint-at=5ns --stats=s.csv --parts=2",
        "run g1.json --checkpoint-at=5ns --stats=s.csv --threads=2",
    ] {
        let case = case_of(
            line,
            PING_PONG,
            Status::WriteFault,
            "ping: pong 1 at 2000 ps\nping: pong 2 at 4000 ps\n",
            "sst: write fault: checkpoint_5000.sstcpt\n",
        );
        // Two reads come before the put, which keeps seven bytes.
        let mut fails = Vec::new(alloc);
        fails.push((2, 7))?;
        let mut shelf = shelf_with(alloc, PING_PONG, fails)?;
        let _ran = check_over(&rt, alloc, &case, &mut shelf, Vec::new(alloc))?;
        let part = shelf.entry("checkpoint_5000.sstcpt").ok_or("no entry")?;
        assert_eq!(rt; part, b"SSTCKPT".as_slice(), "{line}");
        assert!(rt; shelf.entry("s.csv").is_none(), "{line}");
    }
    Ok(())
}

/// A pinger whose number is back at 1024 ps.
const LONE: &str =
    "{\"components\":[{\"name\":\"a\",\"type\":\"core.pinger\"},{\"name\":\"b\",\"type\":\"core.echo\"}],\"links\":[{\"name\":\"w\",\"left\":{\"component\":\"a\",\"port\":\"port\",\"latency\":\"512ps\"},\"right\":{\"component\":\"b\",\"port\":\"port\",\"latency\":\"512ps\"}}]}";

/// The same beside one whose number is back at 1025 ps.
const BESIDE: &str =
    "{\"components\":[{\"name\":\"a\",\"type\":\"core.pinger\"},{\"name\":\"b\",\"type\":\"core.echo\"},{\"name\":\"c\",\"type\":\"core.pinger\"},{\"name\":\"d\",\"type\":\"core.echo\"}],\"links\":[{\"name\":\"w\",\"left\":{\"component\":\"a\",\"port\":\"port\",\"latency\":\"512ps\"},\"right\":{\"component\":\"b\",\"port\":\"port\",\"latency\":\"512ps\"}},{\"name\":\"x\",\"left\":{\"component\":\"c\",\"port\":\"port\",\"latency\":\"512ps\"},\"right\":{\"component\":\"d\",\"port\":\"port\",\"latency\":\"513ps\"}}]}";

/// Whether a shelf has the checkpoint of a time.
fn has_save(alloc: Global, shelf: &MemShelf, time: u64) -> Result<bool, AllocError> {
    let name = format!(in alloc; "checkpoint_{}.sstcpt", time)?;
    Ok(shelf.entry(name.as_str()).is_some())
}

#[test]
fn checkpoints_are_limited(rt: HostRuntime) -> Result<(), Fail> {
    let alloc = rt.alloc();
    let lone = "a: pong 1 at 1024 ps\nSimulation is complete, simulated time: 1000000 ps\n";
    let both =
        "a: pong 1 at 1024 ps\nc: pong 1 at 1025 ps\nSimulation is complete, simulated time: 1000000 ps\n";
    for line in [
        "run g1.json --checkpoint-period=1ps --stats=s.csv",
        "run g1.json --checkpoint-period=1ps --stats=s.csv --parts=2",
    ] {
        let shelf = run_on(&rt, alloc, line, LONE, lone)?;
        assert!(rt; has_save(alloc, &shelf, 1_024)?);
        assert!(rt; !has_save(alloc, &shelf, 1_025)?);
        let mut shelf = shelf_with(alloc, BESIDE, Vec::new(alloc))?;
        let case = case_of(
            line,
            BESIDE,
            Status::Limit,
            "a: pong 1 at 1024 ps\n",
            "sst: limit: checkpoints 1025\n",
        );
        let _ran = check_over(&rt, alloc, &case, &mut shelf, Vec::new(alloc))?;
        for time in 0..1_030u64 {
            let is_put = 1 <= time && time <= 1_024;
            assert_eq!(rt; has_save(alloc, &shelf, time)?, is_put, "at {time}");
        }
        assert!(rt; shelf.entry("s.csv").is_none());
        // A restart at 1 ps has one fewer to put.
        let first = shelf.entry("checkpoint_1.sstcpt").ok_or("no entry")?;
        let again = "restart from --checkpoint-period=1ps --parts=2";
        let later = restart_on(&rt, alloc, again, first, both)?;
        assert!(rt; !has_save(alloc, &later, 1)?);
        assert!(rt; has_save(alloc, &later, 2)?);
        assert!(rt; has_save(alloc, &later, 1_025)?);
    }
    Ok(())
}

/// The text of a torus of four by four routers with an endpoint each: routers, then endpoints; for each router its links up, along
/// a row and along a column, then the endpoints' links. Each endpoint sends each other one 4 packets of 40 bytes.
fn torus(alloc: Global) -> Result<String, AllocError> {
    let mut text = String::from_str(
        alloc,
        "{\"program_options\":{\"exit-period\":\"10ms\"},\"components\":[",
    )?;
    for i in 0..16u32 {
        write!(
            text,
            "{{\"name\":\"rtr{i}\",\"type\":\"merlin.hr_router\",\"params\":{{\"id\":{i},\"topology\":\"merlin.torus\",\"topology.shape\":\"4x4\",\"num_vns\":2,\"flit_size\":\"8B\",\"link_bw\":\"8GB/s\",\"xbar_bw\":\"8GB/s\",\"input_buf_size\":\"1KiB\",\"output_buf_size\":\"1KiB\"}}}},"
        )?;
    }
    for i in 0..16u32 {
        let comma = if i == 0 { "" } else { "," };
        write!(
            text,
            "{comma}{{\"name\":\"nic{i}\",\"type\":\"merlin.test_nic\",\"params\":{{\"id\":{i},\"num_peers\":16,\"num_messages\":4,\"message_size\":\"40B\",\"num_vns\":2,\"flit_size\":\"8B\",\"link_bw\":\"8GB/s\",\"input_buf_size\":\"1KiB\",\"output_buf_size\":\"1KiB\"}},\"statistics\":[{{\"name\":\"sent\"}},{{\"name\":\"received\"}},{{\"name\":\"out_of_order\"}}]}}"
        )?;
    }
    text.push_str("],\"links\":[")?;
    for row in 0..4u32 {
        for column in 0..4u32 {
            let i = 4 * row + column;
            let along = 4 * row + (column + 1) % 4;
            let up = 4 * ((row + 1) % 4) + column;
            let first = 2 * i;
            let second = first + 1;
            write!(
                text,
                "{{\"name\":\"l{first}\",\"left\":{{\"component\":\"rtr{i}\",\"port\":\"port0\",\"latency\":\"10ns\"}},\"right\":{{\"component\":\"rtr{along}\",\"port\":\"port1\",\"latency\":\"10ns\"}}}},"
            )?;
            write!(
                text,
                "{{\"name\":\"l{second}\",\"left\":{{\"component\":\"rtr{i}\",\"port\":\"port2\",\"latency\":\"10ns\"}},\"right\":{{\"component\":\"rtr{up}\",\"port\":\"port3\",\"latency\":\"10ns\"}}}},"
            )?;
        }
    }
    for i in 0..16u32 {
        let comma = if i == 0 { "" } else { "," };
        let number = 32 + i;
        write!(
            text,
            "{comma}{{\"name\":\"l{number}\",\"left\":{{\"component\":\"nic{i}\",\"port\":\"rtr\",\"latency\":\"10ns\"}},\"right\":{{\"component\":\"rtr{i}\",\"port\":\"port4\",\"latency\":\"10ns\"}}}}"
        )?;
    }
    text.push_str("]}")?;
    Ok(text)
}

const STOPPED: &str = "Simulation is complete, simulated time: 200000 ps\n";

/// The name of the checkpoint of a time in nanoseconds.
fn name_at(alloc: Global, time: u64) -> Result<String, AllocError> {
    format!(in alloc; "checkpoint_{}000.sstcpt", time)
}

#[test]
fn a_torus_is_saved_in_parts(rt: HostRuntime) -> Result<(), Fail> {
    let alloc = rt.alloc();
    let graph = torus(alloc)?;
    assert_eq!(rt; graph.len(), 14_709);
    let words = "run g1.json --checkpoint-period=1ns --stop-at=200ns --stats=s.csv";
    let alone = run_on(&rt, alloc, words, graph.as_str(), STOPPED)?;
    let words =
        "run g1.json --checkpoint-period=1ns --stop-at=200ns --stats=s.csv --parts=2 --threads=2";
    let parted = run_on(&rt, alloc, words, graph.as_str(), STOPPED)?;
    assert_eq!(rt; parted.entry("s.csv"), alone.entry("s.csv"));
    for time in 1..200u64 {
        let name = name_at(alloc, time)?;
        let found = parted.entry(name.as_str()).ok_or("no checkpoint")?;
        let wanted = alone.entry(name.as_str()).ok_or("no checkpoint")?;
        assert_eq!(rt; found, wanted, "at {time}");
    }
    assert!(rt; parted.entry("checkpoint_200000.sstcpt").is_none());
    Ok(())
}

#[test]
fn a_torus_goes_on_in_parts(rt: HostRuntime) -> Result<(), Fail> {
    let alloc = rt.alloc();
    let graph = torus(alloc)?;
    let line = "run g1.json --checkpoint-period=1ns --stop-at=200ns --stats=s.csv --parts=2";
    let whole = run_on(&rt, alloc, line, graph.as_str(), STOPPED)?;
    let rows = whole.entry("s.csv").ok_or("no statistics")?;
    let last = whole
        .entry("checkpoint_199000.sstcpt")
        .ok_or("no checkpoint")?;
    // One nanosecond in ten, and the last but one.
    for time in 1..199u64 {
        if time % 10 == 1 || time == 198 {
            let name = name_at(alloc, time)?;
            let bytes = whole.entry(name.as_str()).ok_or("no checkpoint")?;
            for parts in [2, 3] {
                let line = format!(in alloc;
                    "restart from --stop-at=200ns --checkpoint-at=199ns --stats=s.csv --parts={}",
                    parts
                )?;
                let rest = restart_on(&rt, alloc, line.as_str(), bytes, STOPPED)?;
                let found = rest.entry("s.csv").ok_or("no statistics")?;
                assert_eq!(rt; found, rows, "{parts} parts from {time}");
                let found = rest
                    .entry("checkpoint_199000.sstcpt")
                    .ok_or("no checkpoint")?;
                assert_eq!(rt; found, last, "{parts} parts from {time}");
            }
        }
    }
    Ok(())
}
