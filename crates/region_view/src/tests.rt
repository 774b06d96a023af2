use super::*;
use std::test::Fail;

#[test]
fn positions_and_words(rt: HostRuntime) -> Result<(), Fail> {
    assert_eq!(rt; begin_at(1), 16);
    assert_eq!(rt; pause_at(2), 33);
    assert_eq!(rt; head_at(64, 7), 1033);
    let epoch = Epoch {
        view: 1,
        sealed: true,
        mask: 7,
    };
    assert_eq!(rt; epoch_word(epoch), 0x10107);
    assert_eq!(rt; epoch_of(0x10107), Some(epoch));
    assert_eq!(rt; epoch_of(0x10207), None);
    assert_eq!(rt; epoch_of(0x18007), None);
    Ok(())
}

#[test]
fn shapes_within_limits(rt: HostRuntime) -> Result<(), Fail> {
    match shape_of(8, 5, 63, 64, 256, 64, 100) {
        Ok(shape) => assert_eq!(rt; words(&shape), 16_678_928),
        Err(_) => assert!(rt; false),
    }
    for (replicas, clients, calls, field) in [
        (3, 1, 1, Field::Replicas),
        (0, 65, 1, Field::Replicas),
        (2, 65, 0, Field::Clients),
        (2, 64, 16_777_216, Field::Calls),
    ] {
        match shape_of(2, replicas, 1, 1, 1, clients, calls) {
            Ok(_) => assert!(rt; false),
            Err(bad) => assert_eq!(rt; bad.field, field),
        }
    }
    Ok(())
}

// Three nodes with three replicas and one block, of which the words that are not 0 are known.
#[test]
fn opening_words(rt: HostRuntime) -> Result<(), Fail> {
    let Ok(shape) = shape_of(3, 3, 1, 2, 1, 2, 10) else {
        return Err("no shape".into());
    };
    assert_eq!(rt; words(&shape), 1040 + 3 * (48 + 128 + 1024));
    if words(&shape) <= 2_097_152 {
        let lists = first_words(rt.alloc(), &shape)?;
        assert_eq!(rt; lists.len(), 4);
        for (index, list) in lists.iter().enumerate() {
            for (at, word) in list.iter().enumerate() {
                let expected = match (index, at) {
                    (0, 0) => 0x10007,
                    (0, _) => 0,
                    (_, 112 | 113) => u64::MAX,
                    _ => 0,
                };
                assert_eq!(rt; *word, expected);
            }
        }
    }
    Ok(())
}

#[test]
fn places_under_a_mask(rt: HostRuntime) -> Result<(), Fail> {
    let Ok(shape) = shape_of(3, 2, 2, 1, 1, 1, 10) else {
        return Err("no shape".into());
    };
    // Regions 0, 1 and 2 are placed on nodes 1 and 2, 2 and 3, 3 and 1.
    assert_eq!(rt; bare_region(&shape, 0b100), Some(0));
    assert_eq!(rt; bare_region(&shape, 0b001), Some(1));
    assert_eq!(rt; bare_region(&shape, 0b010), Some(2));
    assert!(rt; view_of(shape, 0b100).is_none());
    let Some(view) = view_of(shape, 0b101) else {
        return Err("no view".into());
    };
    if let (
        Shape {
            regions: 2..,
            groups: 1..,
            blocks: 1..,
            ..
        },
        5,
    ) = (view.shape, view.mask)
    {
        assert_eq!(rt; replicas(&view, 0).as_slice(), [1].as_slice());
        assert_eq!(rt; replicas(&view, 2).as_slice(), [3, 1].as_slice());
        assert_eq!(rt;
            slot_places(&view, 7).as_slice(),
            [(1, 7), (1, 31)].as_slice()
        );
        let at = 48 + 640 + 5;
        assert_eq!(rt;
            word_places(&view, 2, 5).as_slice(),
            [(3, at), (1, at)].as_slice()
        );
    }
    Ok(())
}
