use super::*;
use std::test::*;

const NONE: Chain = [0; 32];

/// The bytes of two records, chained to `NONE`, as docs/DISK.md has them.
const FIRST: [u8; 57] = [
    0x00, 0xff, 0x00, 0xff, 0x00, 0xff, 0x29, 0xd6, 0x00, 0xff, 0x00, 0xff, 0x00, 0xff, 0x01, 0xfe,
    0x83, 0xbd, 0xfd, 0x10, 0x3f, 0x6c, 0xba, 0x5c, 0xdb, 0x8f, 0x80, 0x0f, 0xe7, 0x86, 0xff, 0xf8,
    0x0b, 0xba, 0x8d, 0x63, 0x2b, 0x39, 0xa3, 0x25, 0x90, 0x88, 0xd2, 0x81, 0x1b, 0x32, 0xde, 0xfb,
    0x66, 0x69, 0x72, 0x73, 0x74, 0x00, 0x6f, 0x6e, 0x65,
];

const SECOND: [u8; 54] = [
    0x00, 0xff, 0x00, 0xff, 0x00, 0xff, 0x26, 0xd9, 0x00, 0xff, 0x00, 0xff, 0x00, 0xff, 0x00, 0xff,
    0xec, 0x75, 0xbc, 0x95, 0xb2, 0xc3, 0x01, 0xde, 0x61, 0x63, 0xde, 0x44, 0x3d, 0x45, 0x28, 0xbf,
    0xef, 0xcb, 0x45, 0xf3, 0x78, 0x09, 0x53, 0x78, 0x8b, 0xf4, 0x66, 0xee, 0x4b, 0xa3, 0x53, 0x62,
    0x73, 0x65, 0x63, 0x6f, 0x6e, 0x64,
];

fn two_records(rt: &HostRuntime) -> Result<Vec<u8>, Fail> {
    let first = write_record(rt.alloc(), NONE, b"first\x00one")?;
    let second = write_record(rt.alloc(), first.chain, b"second")?;
    let mut bytes = first.bytes;
    bytes.extend_from_slice(&second.bytes)?;
    Ok(bytes)
}

#[test]
fn records_have_the_bytes_of_the_format(rt: HostRuntime) -> Result<(), Fail> {
    let first = write_record(rt.alloc(), NONE, b"first\x00one")?;
    assert!(rt; first.bytes.as_slice() == FIRST.as_slice());
    let second = write_record(rt.alloc(), first.chain, b"second")?;
    assert!(rt; second.bytes.as_slice() == SECOND.as_slice());
    Ok(())
}

#[test]
fn each_prefix_and_each_hole(rt: HostRuntime) -> Result<(), Fail> {
    let whole = two_records(&rt)?;
    for cut in 0..=whole.len() {
        let found = read(rt.alloc(), NONE, &whole[..cut])?;
        let want = if cut == whole.len() {
            2
        } else if cut >= FIRST.len() {
            1
        } else {
            0
        };
        assert_eq!(rt; found.contents.len(), want);
        assert_eq!(rt; found.ending, Ending::Torn);
    }
    // Each byte missing alone, and each byte turned.
    for place in 0..whole.len() {
        let mut torn = whole.clone()?;
        let was = torn[place];
        torn[place] = 0;
        let found = read(rt.alloc(), NONE, &torn)?;
        assert_eq!(rt; found.ending, Ending::Torn);
        assert_eq!(rt; found.contents.len() == 2, was == 0);
        torn[place] = was ^ 255;
        let found = read(rt.alloc(), NONE, &torn)?;
        assert!(rt; found.contents.len() < 2);
    }
    Ok(())
}

#[test]
fn damage_is_told(rt: HostRuntime) -> Result<(), Fail> {
    // One byte of 41 was zero, so a body with none isn't what a crash left.
    let mut bytes = two_records(&rt)?;
    assert!(rt; bytes.len() > 53);
    bytes[53] = 7;
    let found = read(rt.alloc(), NONE, &bytes)?;
    assert_eq!(rt; found.ending, Ending::Damaged);
    // Four bytes or more were zero. Two of them aren't, and one byte alone is cut off.
    let mut bytes = write_record(rt.alloc(), NONE, b"\x00\x00\x00\x00x")?.bytes;
    assert!(rt; bytes.len() == 53);
    bytes[48] = 7;
    bytes[49] = 7;
    bytes.truncate(52);
    let found = read(rt.alloc(), NONE, &bytes)?;
    assert_eq!(rt; found.ending, Ending::Damaged);
    // A pair that no header has, and one that lacks a byte.
    let found = read(rt.alloc(), NONE, &[0, 255, 3, 3])?;
    assert_eq!(rt; found.ending, Ending::Damaged);
    let found = read(rt.alloc(), NONE, &[0, 255, 3, 0])?;
    assert_eq!(rt; found.ending, Ending::Torn);
    Ok(())
}
