use super::*;
use map_model::{Bytes, Call, Entry, Reply};
use std::alloc::{AllocError, Global};
use std::test::Fail;

// The events, slots and ranks of points in the order in which their calls are entered, and the places
// of these in the history. A call that was beaten stands at an early event, and before the call that
// has beaten it. Of calls at one point the last entered comes first.
const LISTS: &[(&[(u64, u32, u32)], &[usize])] = &[
    (&[], &[]),
    (&[(3, 0, 0)], &[0]),
    (&[(3, 0, 0), (5, 0, 0), (9, 0, 0)], &[0, 1, 2]),
    (&[(9, 0, 0), (5, 23, 4), (3, 4, 7)], &[2, 1, 0]),
    (&[(4, 0, 0), (4, 0, 0), (4, 0, 0)], &[2, 1, 0]),
    (
        &[
            (5, 2, u32::MAX),
            (5, 2, 0),
            (5, 1, u32::MAX),
            (5, 2, 1),
            (4, 9, 9),
            (u64::MAX, 0, 0),
            (5, 1, 3),
            (5, 2, 0),
            (4, 9, 9),
        ],
        &[8, 4, 6, 2, 7, 1, 3, 0, 5],
    ),
];

fn entry(alloc: Global, client: u32) -> Result<Entry, AllocError> {
    let key = Bytes::of_vec(Vec::from_slice(alloc, b"k")?);
    Ok(Entry {
        client,
        number: 1,
        call: Call::Get { key },
        reply: Reply::Absent,
        returned: false,
    })
}

// Each second call is entered where room was made for it.
fn points(alloc: Global, list: &[(u64, u32, u32)]) -> Result<Points, AllocError> {
    let mut points = Points::new(alloc);
    for (client, (event, slot, rank)) in (0..u32::MAX).zip(list) {
        let entry = entry(alloc, client)?;
        let at = Point {
            event: *event,
            slot: *slot,
            rank: *rank,
        };
        if client % 2 == 0 {
            points.enter(entry, at)?;
        } else {
            points.reserve(1)?;
            points.enter_reserved(entry, at);
        }
    }
    Ok(points)
}

#[test]
fn histories_are_in_the_order_of_points(rt: HostRuntime) -> Result<(), Fail> {
    for (list, places) in LISTS {
        let points = points(rt.alloc(), list)?;
        let order = points.order()?;
        let entries = points.list()?;
        let history = points.history(|client, number| client == 1 && number == 1)?;
        assert_eq!(rt; order.len(), places.len());
        assert_eq!(rt; entries.len(), places.len());
        assert_eq!(rt; history.len(), places.len());
        for (one, place) in order.iter().zip(places.iter()) {
            assert_eq!(rt; one.entry.client as usize, *place, "{list:?}");
        }
        for (one, place) in entries.iter().zip(places.iter()) {
            assert_eq!(rt; one.client as usize, *place, "{list:?}");
        }
        for (one, place) in history.iter().zip(places.iter()) {
            assert_eq!(rt; one.client as usize, *place, "{list:?}");
            assert_eq!(rt; one.returned, one.client == 1);
        }
    }
    Ok(())
}

#[test]
fn moments_are_copied(rt: HostRuntime) -> Result<(), Fail> {
    let alloc = rt.alloc();
    let Entry { call, reply, .. } = entry(alloc, 1)?;
    let moments = [
        Moment::Invoked {
            client: 3,
            number: 4,
            call,
        },
        Moment::Returned {
            client: 3,
            number: 4,
            reply,
        },
        Moment::Stopped { client: 3 },
    ];
    for (moment, of_the_call) in moments.iter().zip([true, true, false]) {
        let copy = moment.copy()?;
        assert_eq!(rt;
            format!(in alloc; "{copy:?}")?,
            format!(in alloc; "{moment:?}")?
        );
        assert_eq!(rt; moment.is_of(3, 4), of_the_call);
        assert!(rt; !moment.is_of(4, 4) && !moment.is_of(3, 3));
    }
    Ok(())
}
