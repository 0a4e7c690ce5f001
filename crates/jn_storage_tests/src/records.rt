//! Pages of records, of a root, of a head and of a map page, written out by hand.

use jn_base::{
    BlockNo, ClientNo, FileNo, HEAD_BLOCKS, LockUnit, MOST_MAPS, Page, PageWriter, RequestNo,
    ServerNo, Tid, WorkId,
};
use jn_records::{
    Head, Record, Root, StoredIntention, What, WorkHead, map_entries, map_page, used_page,
};
use std::alloc::{AllocError, Global};
use std::test::Fail;

/// Intention 7 of work 1.2.3 of transaction 0.5.6: block 119 of file 9 is put, and stands in data page 127.
const INTENTION: [u8; 29] = [
    1, 1, 0, 0, 0, 2, 0, 0, 0, 3, 0, 0, 0, 0, 5, 0, 0, 0, 6, 7, 4, 0, 0, 0, 9, 0, 119, 0, 128,
];

/// The same of block 2519, the last of a file, which stands in data page 511, and its map page in data page 256.
const FAR: [u8; 31] = [
    1, 1, 0, 0, 0, 2, 0, 0, 0, 3, 0, 0, 0, 0, 5, 0, 0, 0, 6, 7, 4, 0, 0, 0, 9, 9, 215, 2, 0, 1, 1,
];

/// The same work makes or empties file 9.
const FRESH: [u8; 25] = [
    1, 1, 0, 0, 0, 2, 0, 0, 0, 3, 0, 0, 0, 0, 5, 0, 0, 0, 6, 7, 1, 0, 0, 0, 9,
];

/// That work is ready for client 8, with 3 intentions, and has read file 9 and its block 4.
const READY: [u8; 34] = [
    2, 1, 0, 0, 0, 2, 0, 0, 0, 3, 0, 0, 0, 0, 5, 0, 0, 0, 6, 8, 3, 2, 0, 0, 0, 9, 255, 255, 0, 0,
    0, 9, 0, 4,
];

/// The work after its transaction has committed.
const GOING: [u8; 34] = [
    3, 1, 0, 0, 0, 2, 0, 0, 0, 3, 0, 0, 0, 0, 5, 0, 0, 0, 6, 8, 3, 2, 0, 0, 0, 9, 255, 255, 0, 0,
    0, 9, 0, 4,
];

/// The flag of that transaction, which ended by request 256 of client 8 and has that work alone.
const FLAG: [u8; 25] = [
    4, 0, 0, 0, 0, 5, 0, 0, 0, 6, 8, 0, 0, 1, 0, 1, 1, 0, 0, 0, 2, 0, 0, 0, 3,
];

/// The root of version 2 of server 5 in epoch 7, with 300 records, 2 heads and 513 data pages.
const ROOT: [u8; 16] = [74, 85, 78, 49, 2, 5, 1, 44, 0, 2, 2, 1, 0, 0, 0, 7];

/// The head of file 9, whose block 0 stands in data page 2.
const HEAD: [u8; 7] = [1, 0, 0, 0, 9, 0, 3];

/// Where the addresses of map pages stand in a head's page.
const MAPS_AT: usize = 245;

const WORK: WorkId = WorkId {
    server: ServerNo(1),
    epoch: 2,
    ticket: 3,
};

const TID: Tid = Tid {
    server: ServerNo(0),
    epoch: 5,
    ticket: 6,
};

fn page_of(begin: &[u8]) -> Page {
    let mut page = PageWriter::new();
    if begin.len() <= 512 {
        page.put_bytes(begin);
    }
    page.finish()
}

fn changed(page: &Page, at: usize, byte: u8) -> Page {
    let mut changed = *page;
    if at < 512 {
        changed[at] = byte;
    }
    changed
}

/// Whether the record that a page is read as has this page, and nothing where it is that of no record.
fn is_read_as_itself(alloc: Global, page: &Page) -> Result<Option<bool>, AllocError> {
    let value = Record::decode(alloc, page)?;
    Ok(match value {
        Some(value) => Some(value.encode() == *page),
        None => None,
    })
}

#[test]
fn records_are_spelled_as_they_are_read(rt: HostRuntime) -> Result<(), Fail> {
    for begin in [
        INTENTION.as_slice(),
        FAR.as_slice(),
        READY.as_slice(),
        GOING.as_slice(),
        FLAG.as_slice(),
        [0].as_slice(),
    ] {
        assert!(rt; is_read_as_itself(rt.alloc(), &page_of(begin))? == Some(true));
    }
    Ok(())
}

fn is_the_intention(value: &Record, block: u16, address: u16, map: u16) -> bool {
    match value {
        Record::Intention {
            work,
            tid,
            order,
            intention,
        } => {
            let put = StoredIntention {
                what: What::Put,
                file: FileNo(9),
                block: BlockNo(block),
                address,
                map,
            };
            *work == WORK && *tid == TID && *order == 7 && *intention == put
        }
        _ => false,
    }
}

fn is_the_ready_work(value: &Record) -> bool {
    match value {
        Record::Ready {
            head,
            intentions,
            reads,
        } => {
            let expected = WorkHead {
                work: WORK,
                tid: TID,
                client: ClientNo(8),
            };
            let units = [
                LockUnit::File(FileNo(9)),
                LockUnit::Block(FileNo(9), BlockNo(4)),
            ];
            *head == expected && *intentions == 3 && reads.as_slice() == units.as_slice()
        }
        _ => false,
    }
}

fn is_the_flag(value: &Record) -> bool {
    match value {
        Record::Flag(flag) => {
            let works = flag.works.as_slice();
            flag.tid == TID
                && flag.client == ClientNo(8)
                && flag.request == RequestNo(256)
                && works == [WORK].as_slice()
        }
        _ => false,
    }
}

fn record_of(alloc: Global, begin: &[u8]) -> Result<Record, Fail> {
    Ok(Record::decode(alloc, &page_of(begin))?.ok_or("no record")?)
}

#[test]
fn the_parts_of_records_are_read(rt: HostRuntime) -> Result<(), Fail> {
    assert!(rt; is_the_intention(&record_of(rt.alloc(), &INTENTION)?, 119, 128, 0));
    assert!(rt; is_the_intention(&record_of(rt.alloc(), &FAR)?, 2519, 512, 257));
    assert!(rt; is_the_ready_work(&record_of(rt.alloc(), &READY)?));
    assert!(rt; is_the_flag(&record_of(rt.alloc(), &FLAG)?));
    Ok(())
}

#[test]
fn a_changed_intention_is_another_or_none(rt: HostRuntime) -> Result<(), Fail> {
    let page = page_of(&INTENTION);
    for (at, byte, same) in [
        (19, 9, true),
        (20, 3, false),
        (20, 5, false),
        (28, 0, false),
        (29, 1, false),
        (30, 1, false),
        (31, 1, false),
        (0, 5, false),
    ] {
        let decoded = Record::decode(rt.alloc(), &changed(&page, at, byte))?;
        assert_eq!(rt; decoded.is_some(), same);
    }
    Ok(())
}

#[test]
fn only_a_put_past_the_blocks_of_a_head_names_a_map_page(rt: HostRuntime) -> Result<(), Fail> {
    let page = page_of(&FAR);
    for (at, byte, same) in [
        (29, 0, true),
        (30, 0, true),
        (20, 3, false),
        (25, 0, true),
        (31, 1, false),
    ] {
        let decoded = Record::decode(rt.alloc(), &changed(&page, at, byte))?;
        assert_eq!(rt; decoded.is_some(), same);
    }
    let near = changed(&page, 25, 0);
    for (block, same) in [(119, false), (120, true)] {
        let decoded = Record::decode(rt.alloc(), &changed(&near, 26, block))?;
        assert_eq!(rt; decoded.is_some(), same);
    }
    Ok(())
}

/// An intention that puts no block, of this kind and with these bytes in the address of a map page.
fn page_without_a_block(kind: u8, high: u8, low: u8) -> Page {
    let page = changed(&page_of(&FRESH), 20, kind);
    changed(&changed(&page, 29, high), 30, low)
}

#[test]
fn what_puts_no_block_names_no_map_page(rt: HostRuntime) -> Result<(), Fail> {
    for (kind, high, low, same) in [
        (1, 0, 0, true),
        (1, 0, 1, false),
        (1, 1, 0, false),
        (2, 0, 0, true),
        (2, 0, 1, false),
        (2, 1, 0, false),
        (3, 0, 0, true),
        (3, 0, 1, false),
        (3, 1, 0, false),
    ] {
        let decoded = Record::decode(rt.alloc(), &page_without_a_block(kind, high, low))?;
        assert_eq!(rt; decoded.is_some(), same);
    }
    Ok(())
}

#[test]
fn a_changed_ready_work_is_another_or_none(rt: HostRuntime) -> Result<(), Fail> {
    let page = page_of(&READY);
    for (at, byte, same) in [
        (0, 3, true),
        (0, 4, false),
        (21, 1, false),
        (21, 3, false),
        (27, 254, false),
        (33, 5, true),
        (34, 1, false),
    ] {
        let decoded = Record::decode(rt.alloc(), &changed(&page, at, byte))?;
        assert_eq!(rt; decoded.is_some(), same);
    }
    Ok(())
}

fn is_the_root(root: Root, version: u8) -> bool {
    let expected = Root {
        version,
        server: ServerNo(5),
        pool: 300,
        heads: 2,
        leaves: 513,
        epoch: 7,
    };
    root == expected
}

/// Whether a page is read as a root, and the root has this page.
fn is_read_as_root(page: &Page) -> bool {
    match Root::decode(page) {
        Some(root) => root.encode() == *page,
        None => false,
    }
}

#[test]
fn the_parts_of_a_root_are_read(rt: HostRuntime) -> Result<(), Fail> {
    let page = page_of(&ROOT);
    for version in [1, 2] {
        let root = Root::decode(&changed(&page, 4, version)).ok_or("no root")?;
        assert!(rt; is_the_root(root, version));
    }
    Ok(())
}

#[test]
fn roots_of_versions_1_and_2_alone_are_read(rt: HostRuntime) -> Result<(), Fail> {
    let page = page_of(&ROOT);
    for (version, read) in [(0, false), (1, true), (2, true), (3, false)] {
        assert_eq!(rt; is_read_as_root(&changed(&page, 4, version)), read);
    }
    Ok(())
}

/// Whether the head that a page is read as, with 3 data pages, has this page, and nothing where it is that of no head.
fn is_read_as_head(alloc: Global, page: &Page) -> Result<Option<bool>, AllocError> {
    let head = Head::decode(alloc, page, 3)?;
    Ok(match head {
        Some(head) => Some(head.encode() == *page),
        None => None,
    })
}

#[test]
fn heads_are_spelled_as_they_are_read(rt: HostRuntime) -> Result<(), Fail> {
    for begin in [HEAD.as_slice(), [0].as_slice()] {
        assert!(rt; is_read_as_head(rt.alloc(), &page_of(begin))? == Some(true));
    }
    Ok(())
}

fn is_the_head(head: &Head, last_map: u16) -> bool {
    let mut blocks: [u16; HEAD_BLOCKS] = [0; HEAD_BLOCKS];
    blocks[0] = 3;
    let mut all_maps: [u16; MOST_MAPS] = [0; MOST_MAPS];
    all_maps[MOST_MAPS - 1] = last_map;
    match head {
        Head::Used {
            file,
            addresses,
            maps,
        } => {
            *file == FileNo(9)
                && addresses.as_slice() == blocks.as_slice()
                && maps.as_slice() == all_maps.as_slice()
        }
        Head::Free => false,
    }
}

#[test]
fn the_parts_of_a_head_are_read(rt: HostRuntime) -> Result<(), Fail> {
    let page = page_of(&HEAD);
    let head = Head::decode(rt.alloc(), &page, 3)?.ok_or("no head")?;
    assert!(rt; is_the_head(&head, 0));
    let with_map = changed(&page, MAPS_AT + 2 * MOST_MAPS - 1, 2);
    let head = Head::decode(rt.alloc(), &with_map, 3)?.ok_or("no head")?;
    assert!(rt; is_the_head(&head, 2));
    assert!(rt; is_read_as_head(rt.alloc(), &with_map)? == Some(true));
    Ok(())
}

#[test]
fn a_changed_head_is_another_or_none(rt: HostRuntime) -> Result<(), Fail> {
    let page = page_of(&HEAD);
    for (at, byte, same) in [
        (6, 4, false),
        (244, 2, true),
        (245, 1, false),
        (246, 1, true),
        (246, 4, false),
        (284, 1, true),
        (284, 4, false),
        (285, 1, false),
        (0, 2, false),
    ] {
        let decoded = Head::decode(rt.alloc(), &changed(&page, at, byte), 3)?;
        assert_eq!(rt; decoded.is_some(), same);
    }
    Ok(())
}

/// The head of file 7, whose first and last block have the addresses 0x0102 and 0x0304, and whose first and last map page 1 and 0x0203.
fn far_head() -> Page {
    let mut page = page_of(&[1, 0, 0, 0, 7, 1, 2]);
    for (at, byte) in [(243, 3), (244, 4), (246, 1), (283, 2), (284, 3)] {
        page = changed(&page, at, byte);
    }
    page
}

/// The map page whose first and last block have the addresses 0x0102 and 0x0304.
fn far_map() -> Page {
    let mut page = page_of(&[1, 2]);
    for (at, byte) in [(238, 3), (239, 4)] {
        page = changed(&page, at, byte);
    }
    page
}

/// These addresses of blocks.
fn far_blocks() -> [u16; HEAD_BLOCKS] {
    let mut blocks = [0; HEAD_BLOCKS];
    blocks[0] = 0x0102;
    blocks[HEAD_BLOCKS - 1] = 0x0304;
    blocks
}

/// These addresses of map pages.
fn far_maps() -> [u16; MOST_MAPS] {
    let mut maps = [0; MOST_MAPS];
    maps[0] = 1;
    maps[MOST_MAPS - 1] = 0x0203;
    maps
}

fn is_the_far_head(head: &Head) -> bool {
    match head {
        Head::Used {
            file,
            addresses,
            maps,
        } => {
            *file == FileNo(7)
                && addresses.as_slice() == far_blocks().as_slice()
                && maps.as_slice() == far_maps().as_slice()
        }
        Head::Free => false,
    }
}

#[test]
fn addresses_of_map_pages_stand_behind_those_of_blocks(rt: HostRuntime) -> Result<(), Fail> {
    let blocks = far_blocks();
    let maps = far_maps();
    let page = far_head();
    assert!(rt; used_page(FileNo(7), &blocks, &maps) == page);
    let head = Head::decode(rt.alloc(), &page, 0x0304)?.ok_or("no head")?;
    assert!(rt; is_the_far_head(&head));
    let past = Head::decode(rt.alloc(), &page, 0x0303)?;
    assert!(rt; past.is_none());
    Ok(())
}

/// Whether a page is read as the map page with these addresses, and nothing where it is none.
fn is_read_as_the_far_map(page: &Page, leaves: u16) -> Option<bool> {
    match map_entries(page, leaves) {
        Some(entries) => Some(entries.as_slice() == far_blocks().as_slice()),
        None => None,
    }
}

#[test]
fn addresses_of_a_map_page_are_read_as_they_are_written(rt: HostRuntime) -> Result<(), Fail> {
    let blocks = far_blocks();
    let page = far_map();
    assert!(rt; map_page(&blocks) == page);
    assert!(rt; is_read_as_the_far_map(&page, 0x0304) == Some(true));
    assert!(rt; is_read_as_the_far_map(&page, 0x0303) == None);
    assert!(rt; is_read_as_the_far_map(&changed(&page, 240, 1), 0x0304) == None);
    Ok(())
}
