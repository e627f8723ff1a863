use crate::{Bytes, List, Name8, get16, get32, put16, put32};
use std::test::Fail;

#[test]
fn bytes_are_those_of_the_slice(rt: HostRuntime) -> Result<(), Fail> {
    let bytes = Bytes::from_slice(rt.alloc(), b"100aa")?;
    assert_eq!(rt; bytes.as_slice(), [0x31, 0x30, 0x30, 0x61, 0x61].as_slice());
    assert!(rt; bytes.copy()? == bytes);
    let mut longer = Bytes::new(rt.alloc());
    longer.append(b"100")?;
    longer.push(b'a')?;
    assert_eq!(rt; longer.as_slice(), b"100a".as_slice());
    assert_eq!(rt; longer.len(), 4);
    assert!(rt; !longer.is_empty());
    Ok(())
}

#[test]
fn a_pushed_item_is_the_list(rt: HostRuntime) -> Result<(), Fail> {
    let mut list = List::new(rt.alloc());
    assert!(rt; list.is_empty());
    list.push(7u8)?;
    assert_eq!(rt; list.as_slice(), [7].as_slice());
    assert_eq!(rt; list.len(), 1);
    Ok(())
}

#[test]
fn names_are_read_in_upper_case(rt: HostRuntime) -> Result<(), Fail> {
    for (text, name) in [("kdb", "KDB"), ("$#@1", "$#@1"), ("ABCDEFGH", "ABCDEFGH")] {
        let read = Name8::read(text.as_bytes()).ok_or("a name")?;
        assert_eq!(rt; read.as_slice(), name.as_bytes(), "{text}");
    }
    for text in ["", "1A", "ABCDEFGHI", "A B", "A-B", "A\0"] {
        assert!(rt; Name8::read(text.as_bytes()) == None, "{text}");
    }
    Ok(())
}

#[test]
fn numbers_are_big_endian(rt: HostRuntime) {
    let mut block = [9u8; 8];
    put16(&mut block, 1, 0x0102);
    put32(&mut block, 4, 0x0304_0506);
    assert_eq!(rt; block, [9, 1, 2, 9, 3, 4, 5, 6]);
    assert_eq!(rt; get16(&block, 1), 0x0102);
    assert_eq!(rt; get32(&block, 4), 0x0304_0506);
}
