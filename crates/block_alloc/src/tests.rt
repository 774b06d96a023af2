use super::*;
use std::test::Fail;

#[test]
fn blocks_and_their_words(rt: HostRuntime) -> Result<(), Fail> {
    let owned = BlockWord::Owned {
        client: 1,
        class: 0,
    };
    let released = BlockWord::Released { class: 3 };
    assert_eq!(rt; block_word(BlockWord::Unused), 0);
    assert_eq!(rt; block_word(owned), 0x0100_0000_0000_0100);
    assert_eq!(rt; block_word(released), 0x0200_0000_0000_0003);
    assert_eq!(rt; block_of(0), Some(BlockWord::Unused));
    assert_eq!(rt; block_of(0x0100_0000_0000_0100), Some(owned));
    assert_eq!(rt; block_of(0x0200_0000_0000_0003), Some(released));

    // No client, class 6, no such state, and a bit between the state and the client.
    let no_blocks = [
        0x0100_0000_0000_0000,
        0x0100_0000_0000_0106,
        0x0300_0000_0000_0000,
        0x0100_0000_0100_0100,
    ];
    for word in no_blocks {
        assert_eq!(rt; block_of(word), None);
    }
    Ok(())
}

#[test]
fn blocks_are_claimed_and_released(rt: HostRuntime) -> Result<(), Fail> {
    let owned = 0x0100_0000_0000_0203;
    let released = 0x0200_0000_0000_0003;
    assert_eq!(rt; claim(0, 2, 3), Some(owned));
    assert_eq!(rt; claim(released, 2, 3), Some(owned));
    assert_eq!(rt; claim(owned, 2, 3), Some(owned));
    assert_eq!(rt; release(owned, 2), Some(released));

    // Another client's block, and a released one of another class.
    assert_eq!(rt; claim(owned, 1, 3), None);
    assert_eq!(rt; release(owned, 1), None);
    assert_eq!(rt; claim(released, 2, 4), None);
    Ok(())
}

#[test]
fn bits_of_a_block(rt: HostRuntime) -> Result<(), Fail> {
    assert_eq!(rt; all_bits(0), 0xffff_ffff_ffff_ffff);
    assert_eq!(rt; all_bits(3), 0xff);
    assert_eq!(rt; all_bits(5), 3);
    Ok(())
}
