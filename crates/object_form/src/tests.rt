use super::*;
use arrayvec::ArrayVec;
use std::test::Fail;

#[test]
fn classes_by_length(rt: HostRuntime) -> Result<(), Fail> {
    assert_eq!(rt; class_for(1, 0), Ok(0));
    assert_eq!(rt; class_for(8, 24), Ok(0));
    assert_eq!(rt; class_for(8, 25), Ok(1));
    assert_eq!(rt; class_for(1, 224), Ok(3));
    assert_eq!(rt; class_for(64, 1952), Ok(5));
    assert_eq!(rt; class_for(0, 0), Err(Length::KeyLength(0)));
    assert_eq!(rt; class_for(65, 0), Err(Length::KeyLength(65)));
    assert_eq!(rt; class_for(64, 1953), Err(Length::ValueLength(1953)));
    assert_eq!(rt; class_for(65, 1953), Err(Length::KeyLength(65)));
    assert_eq!(rt; units(0), 1);
    assert_eq!(rt; units(5), 32);
    Ok(())
}

#[test]
fn pointers_and_blocks(rt: HostRuntime) -> Result<(), Fail> {
    assert_eq!(rt; pointer_of(1, 16), 0x10_0010);
    assert_eq!(rt; region_of(0x3F0_0010), 63);
    assert_eq!(rt; unit_of(0x3F0_0010), 16);
    assert_eq!(rt; block_at(0x10_0010), 0);
    assert_eq!(rt; block_at(0x10_0010 + 63), 0);
    assert_eq!(rt; block_at(0x10_0010 + 64), 1);
    assert_eq!(rt; object_at(0x10_0010, 0), 0);
    assert_eq!(rt; object_at(0x10_0010 + 9, 3), 1);
    Ok(())
}

#[test]
fn meta_words_and_link_words(rt: HostRuntime) -> Result<(), Fail> {
    let meta = Meta {
        kind: Kind::Value,
        key_len: 1,
        value_len: 1,
    };
    assert_eq!(rt; meta_word(meta), 0x0000_0001_0001_0001);
    assert_eq!(rt; meta_of(0x0000_0001_0001_0001), Some(meta));
    assert_eq!(rt; meta_of(0), None);
    assert_eq!(rt; meta_of(0x0000_0002_0001_0001), None);
    let link = Link {
        client: 1,
        call: 1,
        next: 0x10_0011,
    };
    assert_eq!(rt; link_word(link), 0x0010_0000_1010_0011);
    assert_eq!(rt; link_of(0x0010_0000_1010_0011), Some(link));
    assert_eq!(rt; link_of(0), None);
    Ok(())
}

#[test]
fn bytes_in_words(rt: HostRuntime) -> Result<(), Fail> {
    let mut words = ArrayVec::new();
    padded(b"", &mut words);
    assert_eq!(rt; words.len(), 0);
    padded(b"a", &mut words);
    padded(b"abcdefghi", &mut words);
    assert_eq!(rt;
        words.as_slice(),
        [0x61, 0x6867_6665_6463_6261, 0x69].as_slice()
    );

    assert_eq!(rt; spelled(&[0x61], 1, b"a"), true);
    assert_eq!(rt; spelled(&[0x61], 1, b"b"), false);
    assert_eq!(rt; spelled(&[0x6261], 1, b"a"), true);
    assert_eq!(rt; spelled(&[0x6261], 1, b"ab"), false);
    assert_eq!(rt;
        spelled(&[0x6867_6665_6463_6261, 0x69], 9, b"abcdefghi"),
        true
    );
    assert_eq!(rt; spelled(&[], 0, b""), true);
    Ok(())
}
