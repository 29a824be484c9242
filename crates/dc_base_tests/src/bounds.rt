//! Worked values of each bound and floor, and values at the ends of their ranges.

ghost use Rattle.std.specs.Prelude.{◌≡◌, ℕ, ◌<◌, ◌≤◌, length, slice_index};

use dc_bound::{
    Alike, ArrivalBound, Both, Capped, Cyclic, Jittered, Paced, ServiceBound, Sporadic, SumOf,
    Visits, Wire,
};
use std::process::Abort;

/// The caps at some tick counts, through the bound.
fn assert_caps<A: ArrivalBound>(rt: &impl Abort, bound: &A, rows: &[(u32, u64)]) {
    for (ticks, cap) in rows {
        assert!(rt; *ticks <= 1_000_000);
        assert!(rt; bound.at_most(*ticks) == *cap, "at {ticks}");
    }
}

/// The cap of a bound of any kind.
fn cap_of(bound: &dyn ArrivalBound, ticks: u32) -> u64
    requires { ticks ≤ 1000000 }
{
    bound.at_most(ticks)
}

/// The jumps after some tick counts, through the bound.
fn assert_jumps<A: ArrivalBound>(rt: &impl Abort, bound: &A, rows: &[(u32, Option<u32>)]) {
    for (ticks, jump) in rows {
        assert!(rt; *ticks <= 1_000_000);
        assert!(rt; bound.next_jump(*ticks) == *jump, "after {ticks}");
        let both = (bound.at_most(*ticks), *jump);
        assert!(rt; bound.at_most_and_jump(*ticks) == both, "both at {ticks}");
    }
}

/// The floors at some tick counts, through the floor.
fn assert_floors<S: ServiceBound>(rt: &impl Abort, service: &S, rows: &[(u32, u64)]) {
    for (ticks, floor) in rows {
        assert!(rt; *ticks <= 1_000_000);
        assert!(rt; service.at_least(*ticks) == *floor, "at {ticks}");
    }
}

#[test]
fn alike_sources_bring_so_many_times_the_cap_of_one(rt: HostRuntime) {
    let sources = Alike::new(3, Jittered::new(10, 5));
    assert_caps(
        &rt,
        &sources,
        &[(0, 0), (1, 3), (5, 3), (6, 6), (1_000_000, 300_003)],
    );
    assert_jumps(
        &rt,
        &sources,
        &[
            (0, Some(1)),
            (1, Some(6)),
            (5, Some(6)),
            (6, Some(16)),
            (999_996, None),
        ],
    );
    let many = Alike::new(1024, Jittered::new(1, 1_000_000_000));
    assert_caps(&rt, &many, &[(0, 0), (1_000_000, 1_025_024_000_000)]);
    assert_caps(
        &rt,
        &Alike::new(1, Jittered::new(10, 0)),
        &[(10, 1), (11, 2)],
    );
}

#[test]
fn sporadic_rounds_up(rt: HostRuntime) {
    let source = Sporadic::new(10);
    assert_caps(
        &rt,
        &source,
        &[(0, 0), (1, 1), (10, 1), (11, 2), (1_000_000, 100_000)],
    );
    assert_jumps(
        &rt,
        &source,
        &[
            (0, Some(1)),
            (1, Some(11)),
            (999_991, None),
            (1_000_000, None),
        ],
    );
    assert_jumps(
        &rt,
        &Sporadic::new(4_294_967_295),
        &[(0, Some(1)), (1, None)],
    );
    assert_jumps(
        &rt,
        &Sporadic::new(1),
        &[(999_999, Some(1_000_000)), (1_000_000, None)],
    );
}

#[test]
fn jitter_lets_words_come_together(rt: HostRuntime) {
    let late = Jittered::new(10, 10);
    assert_caps(
        &rt,
        &late,
        &[
            (0, 0),
            (1, 2),
            (10, 2),
            (11, 3),
            (20, 3),
            (21, 4),
            (1_000_000, 100_001),
        ],
    );
    assert_jumps(
        &rt,
        &late,
        &[
            (0, Some(1)),
            (1, Some(11)),
            (11, Some(21)),
            (999_990, Some(999_991)),
            (999_991, None),
        ],
    );
    assert_jumps(
        &rt,
        &Jittered::new(10, 3),
        &[(0, Some(1)), (1, Some(8)), (8, Some(18))],
    );
    assert_caps(&rt, &Jittered::new(10, 0), &[(0, 0), (10, 1), (11, 2)]);
    assert_jumps(&rt, &Jittered::new(10, 0), &[(0, Some(1)), (1, Some(11))]);
    assert_caps(
        &rt,
        &Jittered::new(1, 1_000_000_000),
        &[(0, 0), (1, 1_000_000_001)],
    );
}

#[test]
fn a_wire_caps_a_sum_where_there_is_one(rt: HostRuntime) {
    let members = [Jittered::new(10, 10), Jittered::new(10, 10)];
    let with_wire = Capped::new(SumOf::new(0, &members), Some(Wire::new(1000, 350)));
    assert_caps(
        &rt,
        &with_wire,
        &[(0, 0), (1, 3), (2, 4), (6, 4), (10, 4), (11, 6)],
    );
    assert_jumps(
        &rt,
        &with_wire,
        &[(0, Some(1)), (1, Some(2)), (2, Some(11))],
    );
    let policed = Capped::new(SumOf::new(0, &members), None);
    assert_caps(&rt, &policed, &[(0, 0), (1, 4), (10, 4), (11, 6)]);
    assert_jumps(&rt, &policed, &[(0, Some(1)), (1, Some(11))]);
}

#[test]
fn wire_carries_one_more(rt: HostRuntime) {
    let fast = Wire::new(1000, 350);
    assert_caps(
        &rt,
        &fast,
        &[(0, 0), (1, 3), (2, 6), (3, 9), (1_000_000, 2_857_143)],
    );
    let slow = Wire::new(100, 2450);
    assert_caps(&rt, &slow, &[(0, 0), (1, 1), (24, 1), (25, 2)]);
    assert_jumps(
        &rt,
        &slow,
        &[
            (0, Some(1)),
            (1, Some(25)),
            (24, Some(25)),
            (25, Some(49)),
            (1_000_000, None),
        ],
    );
}

#[test]
fn sum_jumps_where_its_first_member_does(rt: HostRuntime) {
    let members = [Sporadic::new(10), Sporadic::new(7)];
    let sum = SumOf::new(3, &members);
    assert_caps(&rt, &sum, &[(0, 0), (1, 2), (7, 2), (8, 3), (11, 4)]);
    assert_jumps(
        &rt,
        &sum,
        &[
            (0, Some(1)),
            (1, Some(8)),
            (8, Some(11)),
            (11, Some(15)),
            (1_000_000, None),
        ],
    );
}

#[test]
fn both_jumps_with_the_lesser_cap(rt: HostRuntime) {
    // after 1 the caps are 1 and 3, after 2 they are 1 and 6: the lesser one's jump is the one that counts
    let lesser = Both::new(Sporadic::new(3), Wire::new(1000, 350));
    assert_caps(&rt, &lesser, &[(0, 0), (1, 1), (3, 1), (4, 2)]);
    assert_jumps(&rt, &lesser, &[(0, Some(1)), (1, Some(4)), (3, Some(4))]);
    // of equal caps the later jump: 4 and 6 after 1
    let equal = Both::new(Sporadic::new(3), Sporadic::new(5));
    assert_jumps(&rt, &equal, &[(1, Some(6)), (6, Some(11))]);
    let turned = Both::new(Sporadic::new(5), Sporadic::new(3));
    assert_jumps(&rt, &turned, &[(1, Some(6)), (6, Some(11))]);
}

#[test]
fn bus_bound_jumps_as_the_wire_and_then_as_its_streams(rt: HostRuntime) {
    let streams = [Sporadic::new(10); 16];
    let bus = Both::new(SumOf::new(0, &streams), Wire::new(1000, 350));
    assert_caps(
        &rt,
        &bus,
        &[(0, 0), (1, 3), (5, 15), (6, 16), (10, 16), (11, 32)],
    );
    assert_jumps(
        &rt,
        &bus,
        &[
            (5, Some(6)),
            (6, Some(11)),
            (11, Some(21)),
            (1_000_000, None),
        ],
    );
}

#[test]
fn cyclic_counts_the_fullest_window(rt: HostRuntime) {
    let frame = Cyclic::new(10, &[0, 1, 5]);
    assert_caps(
        &rt,
        &frame,
        &[
            (0, 0),
            (1, 1),
            (2, 2),
            (5, 2),
            (6, 3),
            (10, 3),
            (11, 4),
            (12, 5),
        ],
    );
    assert_jumps(
        &rt,
        &frame,
        &[
            (0, Some(1)),
            (1, Some(2)),
            (2, Some(6)),
            (6, Some(11)),
            (11, Some(12)),
            (1_000_000, None),
        ],
    );
    // a window that goes round the frame's end holds more than any from its start
    let late = Cyclic::new(10, &[0, 4, 9]);
    assert_caps(&rt, &late, &[(1, 1), (2, 2), (6, 3)]);
}

#[test]
fn bounds_of_any_kind_are_called_alike(rt: HostRuntime) {
    assert!(rt; cap_of(&Sporadic::new(10), 21) == 3);
    assert!(rt; cap_of(&Wire::new(1000, 360), 2) == 6);
    assert!(rt; cap_of(&Cyclic::new(10, &[0, 4, 9]), 2) == 2);
}

#[test]
fn paced_counts_whole_spans(rt: HostRuntime) {
    let pace = Paced::new(2, 3);
    assert_floors(
        &rt,
        &pace,
        &[(0, 0), (2, 0), (3, 2), (5, 2), (6, 4), (1_000_000, 666_666)],
    );
}

#[test]
fn visits_counts_the_poorest_part_of_the_list(rt: HostRuntime) {
    let visits = [4, 7, 4];
    let often = Visits::new(Paced::new(2, 3), &visits, 4);
    assert_floors(&rt, &often, &[(0, 0), (2, 0), (3, 1), (6, 2)]);
    let seldom = Visits::new(Paced::new(2, 3), &visits, 7);
    assert_floors(&rt, &seldom, &[(2, 0), (3, 0), (6, 1)]);
    let never = Visits::new(Paced::new(2, 3), &visits, 5);
    assert_floors(&rt, &never, &[(1_000_000, 0)]);
}

#[test]
fn widest_sum_of_the_longest_window(rt: HostRuntime) {
    let streams = [Sporadic::new(1); 1024];
    let sum = SumOf::new(0, &streams);
    assert_caps(&rt, &sum, &[(1, 1024), (1_000_000, 1_024_000_000)]);
    assert_jumps(&rt, &sum, &[(999_999, Some(1_000_000)), (1_000_000, None)]);
}

/// Offsets 0, 1, 2, .. of a frame.
fn each_tick(offsets: &mut [u32])
    requires { length offsets.old ≤ 1024 }
    ensures len { length offsets.new ≡ length offsets.old }
    ensures places { (k : ℕ) → k < length offsets.new → slice_index offsets.new k ≡ k }
{
    for (place, offset) in offsets.iter_mut().enumerate() {
        *offset = place as u32;
    }
}

#[test]
fn fullest_frame_has_an_entry_in_each_tick(rt: HostRuntime) {
    let mut offsets = [0; 1024];
    each_tick(&mut offsets);
    let frame = Cyclic::new(100_000, &offsets);
    assert_caps(
        &rt,
        &frame,
        &[
            (1, 1),
            (1024, 1024),
            (100_000, 1024),
            (100_001, 1025),
            (1_000_000, 10_240),
        ],
    );
    assert_jumps(&rt, &frame, &[(1024, Some(100_001)), (1_000_000, None)]);
}

#[test]
fn longest_list_of_visits(rt: HostRuntime) {
    let mut visits = [1; 256];
    visits[255] = 0;
    let router = Visits::new(Paced::new(1000, 1), &visits, 0);
    assert_floors(&rt, &router, &[(1, 3), (1_000_000, 3_906_250)]);
}
