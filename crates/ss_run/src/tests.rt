//! What no clause says.

use crate::{Origin, RunId, RunSpec};
use ss_graph::read;
use ss_part::{How, assign};
use ss_window::Cuts;
use std::sync::Arc;
use std::test::Fail;

fn crosses<T: Send + Sync + Drop>(_value: T) {}

#[test]
fn runs_cross_threads(rt: HostRuntime) -> Result<(), Fail> {
    let text = b"{\"components\":[{\"name\":\"a\",\"type\":\"core.ticker\"}]}";
    let graph = read(rt.alloc(), text).ok().ok_or("a graph")?;
    let partition = assign(rt.alloc(), &graph, 1, How::Linear)?;
    let cuts = Cuts {
        stop: 1000,
        origin: 0,
        exit: None,
        save_at: None,
        save_every: None,
    };
    let spec = RunSpec {
        graph,
        partition,
        cuts,
        origin: Origin::Start,
    };
    let run: RunId = Arc::new(rt.alloc(), spec)?;
    assert_eq!(rt; run.partition.parts(), 1);
    crosses(Arc::try_clone(&run)?);
    crosses(run);
    Ok(())
}
