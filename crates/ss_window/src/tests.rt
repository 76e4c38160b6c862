//! Worked rows.

ghost use Rattle.ss_window.specs.Cuts.{SpanFits, CutsFit};

use crate::{Cuts, next_cut, next_save, stop_bound};

// A run from 1 us to 10 us.
fn cuts(exit: Option<u64>, save_at: Option<u64>, save_every: Option<u64>) -> Cuts
    requires exit { SpanFits exit }
    requires save_at { SpanFits save_at }
    requires save_every { SpanFits save_every }
    ensures { CutsFit result }
{
    Cuts {
        stop: 10_000_000,
        origin: 1_000_000,
        exit,
        save_at,
        save_every,
    }
}

#[test]
fn a_window_ends_at_the_first_cut(rt: HostRuntime) {
    let plain = cuts(None, None, None);
    assert_eq!(rt; next_cut(1_500_000, 100, 10_000_000, &plain), 1_500_100);
    assert_eq!(rt;
        next_cut(9_500_000, 9_000_000, 9_700_000, &plain),
        9_700_000
    );
    let cuts = cuts(Some(2_000_000), Some(5_000_000), Some(3_000_000));
    assert_eq!(rt; next_cut(1_500_000, 900_000, 10_000_000, &cuts), 2_000_000);
    assert_eq!(rt;
        next_cut(2_000_000, 9_000_000, 10_000_000, &cuts),
        3_000_000
    );
    assert_eq!(rt;
        next_cut(4_000_000, 9_000_000, 10_000_000, &cuts),
        5_000_000
    );
}

#[test]
fn the_bound_follows_the_primaries(rt: HostRuntime) {
    let cuts = cuts(Some(2_000_000), None, None);
    assert_eq!(rt; stop_bound(false, 3_000_000, &cuts), 10_000_000);
    assert_eq!(rt; stop_bound(true, 3_999_999, &cuts), 4_000_000);
    assert_eq!(rt; stop_bound(true, 4_000_000, &cuts), 6_000_000);
    assert_eq!(rt; stop_bound(true, 11_000_000, &cuts), 10_000_000);
}

#[test]
fn checkpoints_come_in_order(rt: HostRuntime) {
    let both = cuts(None, Some(5_000_000), Some(3_000_000));
    assert_eq!(rt; next_save(0, &both), Some(3_000_000));
    assert_eq!(rt; next_save(3_000_001, &both), Some(5_000_000));
    assert_eq!(rt; next_save(5_000_001, &both), Some(6_000_000));
    let early = cuts(None, Some(1_000_000), None);
    assert_eq!(rt; next_save(0, &early), None);
}
