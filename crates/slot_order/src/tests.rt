use super::*;
use std::test::Fail;

/// The hashes are those of the test vectors of isthe.com/chongo/tech/comp/fnv.
#[test]
fn hashes_and_orders(rt: HostRuntime) -> Result<(), Fail> {
    assert_eq!(rt; fnv1a(b""), 0xcbf2_9ce4_8422_2325);
    assert_eq!(rt; fnv1a(b"a"), 0xaf63_dc4c_8601_ec8c);
    assert_eq!(rt; fnv1a(b"b"), 0xaf63_df4c_8601_f1a5);
    assert_eq!(rt; fnv1a(b"foobar"), 0x8594_4171_f739_67e8);
    assert_eq!(rt; finger(b"a"), 0xaf);

    // With one group: both main buckets and the overflow bucket, and one main bucket with it.
    assert_eq!(rt;
        order(b"a", 1).as_slice(),
        [
            0, 1, 2, 3, 4, 5, 6, 7, 8, 9, 10, 11, 12, 13, 14, 15, 16, 17, 18, 19, 20, 21, 22, 23
        ]
        .as_slice()
    );
    assert_eq!(rt;
        order(b"foobar", 1).as_slice(),
        [16, 17, 18, 19, 20, 21, 22, 23, 8, 9, 10, 11, 12, 13, 14, 15].as_slice()
    );
    Ok(())
}
