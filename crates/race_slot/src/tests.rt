use super::*;
use std::test::Fail;

#[test]
fn a_slot_and_its_word(rt: HostRuntime) -> Result<(), Fail> {
    let slot = Slot {
        finger: 0xab,
        units: 2,
        pointer: 0x30_0010,
    };
    assert_eq!(rt; pack(slot), 0xab02_0000_0030_0010);
    assert_eq!(rt; unpack(0xab02_0000_0030_0010), Some(slot));

    // The empty slot, no units, region 0, and a bit between the units and the pointer.
    let no_slots = [
        0,
        0xab00_0000_0030_0010,
        0xab02_0000_0000_0010,
        0xab02_0000_1030_0010,
    ];
    for word in no_slots {
        assert_eq!(rt; unpack(word), None);
    }
    Ok(())
}
