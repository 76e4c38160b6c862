//! Lines of words, and what they ask for.

use crate::{Plan, RunOptions, Usage, plan_of};
use ss_part::How;
use ss_units::Text;
use std::alloc::{AllocError, Global};
use std::test::Fail;

/// The words of a line, which spaces part.
fn words_of(alloc: Global, line: &str) -> Result<Vec<Text>, AllocError> {
    let mut words = Vec::new(alloc);
    for word in line.split_whitespace() {
        words.push(Text::new(alloc, word)?)?;
    }
    Ok(words)
}

/// What a refusal names.
fn named(usage: &Usage) -> &str {
    match usage {
        Usage::UnknownCommand => "unknown command",
        Usage::Words => "words",
        Usage::Value(whose) => whose.as_str(),
        Usage::NoMemory => "no memory",
    }
}

/// Lines of words, and what each refusal names.
const REFUSALS: [(&str, &str); 30] = [
    ("", "unknown command"),
    ("--stop-at=3ns run g", "unknown command"),
    ("run", "words"),
    ("run g h", "words"),
    ("run -x g", "words"),
    ("run g --stop-at=1ns --stop-at=2ns", "words"),
    ("run g --stop-at", "words"),
    ("run g --stop-at --", "words"),
    ("check g --stats=s", "words"),
    ("run g --stats= --stop-at=1", "--stop-at"),
    ("run --stats= g", "--stats"),
    ("run g --sync-report= --stats=", "--stats"),
    (
        "run g --exchange=pipe --threads=1 --partitioner=x",
        "--partitioner",
    ),
    ("run g --stats= --exchange=joined,queue", "--exchange"),
    ("run g --parts= --threads=-1", "--threads"),
    ("run g --parts= --threads -1", "words"),
    ("run g --threads=+1 --parts=0x", "--threads"),
    ("partition g --threads=2", "words"),
    ("partition g --parts=01", "--parts"),
    ("partition g --parts 1000000000", "--parts"),
    ("partition g --partitioner=random", "--partitioner"),
    ("restart", "words"),
    ("restart c d", "words"),
    ("restart c --sync-report=", "--sync-report"),
    ("check g --checkpoint-at=5ns", "words"),
    ("run g --checkpoint-at=0ns", "--checkpoint-at"),
    ("restart c --checkpoint-period=0ps", "--checkpoint-period"),
    (
        "run g --checkpoint-period=4611686018427387905ps",
        "--checkpoint-period",
    ),
    ("restart c --checkpoint-prefix=", "--checkpoint-prefix"),
    (
        "run --checkpoint-prefix= g --checkpoint-period=1 --checkpoint-at=x",
        "--checkpoint-at",
    ),
];

#[test]
fn refuses(rt: HostRuntime) -> Result<(), Fail> {
    for (line, want) in REFUSALS {
        let words = words_of(rt.alloc(), line)?;
        match plan_of(rt.alloc(), &words) {
            Ok(_) => assert!(rt; false, "at {line}"),
            Err(usage) => assert_eq!(rt; named(&usage), want, "at {line}"),
        }
    }
    Ok(())
}

/// Whether a run goes on from a checkpoint, its argument and its options, where a run is asked for.
fn asked(plan: Plan) -> Option<(bool, Text, RunOptions)> {
    match plan {
        Plan::Run { graph, options } => Some((false, graph, options)),
        Plan::Restart {
            checkpoint,
            options,
        } => Some((true, checkpoint, options)),
        _ => None,
    }
}

#[test]
fn plans_checkpoints(rt: HostRuntime) -> Result<(), Fail> {
    for (line, restarts, name, at, period, prefix) in [
        ("run g", false, "g", None, None, "checkpoint"),
        ("restart c", true, "c", None, None, "checkpoint"),
        (
            "run g --checkpoint-at=5ns --checkpoint-period 1ps",
            false,
            "g",
            Some(5000),
            Some(1),
            "checkpoint",
        ),
        (
            "restart --checkpoint-prefix=p c --parts=2 --checkpoint-period=4611686018427387904ps",
            true,
            "c",
            None,
            Some(4_611_686_018_427_387_904),
            "p",
        ),
    ] {
        let words = words_of(rt.alloc(), line)?;
        let plan = plan_of(rt.alloc(), &words).map_err(|_| "refused")?;
        let (restarted, argument, options) = asked(plan).ok_or("another plan")?;
        assert_eq!(rt; restarted, restarts);
        assert_eq!(rt; argument.as_str(), name);
        assert_eq!(rt; options.checkpoint_at, at);
        assert_eq!(rt; options.checkpoint_period, period);
        assert_eq!(rt; options.checkpoint_prefix.as_str(), prefix);
        assert_eq!(rt; options.spread.parts.is_some(), prefix == "p");
    }
    Ok(())
}

#[test]
fn bounds_names(rt: HostRuntime) -> Result<(), Fail> {
    for (front, bytes, want) in [
        ("restart c --checkpoint-prefix=", 200, "taken"),
        ("restart c --checkpoint-prefix=", 201, "--checkpoint-prefix"),
        ("restart ", 255, "taken"),
        ("restart ", 256, "CHECKPOINT"),
        ("run ", 256, "GRAPH"),
    ] {
        let mut line = format!(in rt.alloc(); "{front}")?;
        for _ in 0..bytes {
            line.push('p')?;
        }
        let words = words_of(rt.alloc(), &line)?;
        match plan_of(rt.alloc(), &words) {
            Ok(_) => assert_eq!(rt; "taken", want),
            Err(usage) => assert_eq!(rt; named(&usage), want),
        }
    }
    Ok(())
}

#[test]
fn plans(rt: HostRuntime) -> Result<(), Fail> {
    for (line, name, time, parts) in [
        ("run g1.json", "g1.json", None, None),
        ("run --stop-at 3ns --stats=s.csv -", "-", Some(3000), None),
        ("run --stop-at=0ps -- --stats", "--stats", Some(0), None),
        ("check g1.json", "g1.json", None, None),
        (
            "partition --partitioner self g --parts=999999999",
            "g",
            None,
            Some(999_999_999),
        ),
        (
            "run --parts 3 g --exchange=queue --threads=33 --sync-report=r",
            "g",
            None,
            Some(3),
        ),
    ] {
        let words = words_of(rt.alloc(), line)?;
        let plan = plan_of(rt.alloc(), &words).map_err(|_| "refused")?;
        let (graph, stop_at, count) = match plan {
            Plan::Run { graph, options }
            | Plan::Restart {
                checkpoint: graph,
                options,
            } => {
                assert_eq!(rt; options.spread.how, How::Linear);
                assert_eq!(rt; options.spread.queue, options.sync_report.is_some());
                let threads = if options.spread.queue { 33 } else { 1 };
                assert_eq!(rt; options.spread.threads, threads);
                (graph, options.stop_at, options.spread.parts)
            }
            Plan::Check { graph } => (graph, None, None),
            Plan::Partition { graph, parts, how } => {
                assert_eq!(rt; how, How::SelfNamed);
                (graph, None, parts)
            }
        };
        assert_eq!(rt; graph.as_str(), name);
        assert_eq!(rt; stop_at, time);
        assert_eq!(rt; count, parts);
    }
    Ok(())
}
