//! Grants that break, in their order, and the holders of a unit.

use jn_base::{FileNo, LockUnit, ServerNo, WorkId};
use jn_locks::{Broken, Conflict, LockFault, LockTable, Mode, Want};
use std::test::Fail;

fn work(ticket: u32) -> WorkId {
    WorkId {
        server: ServerNo(0),
        epoch: 1,
        ticket,
    }
}

fn want(file: u32, mode: Mode) -> Want {
    Want {
        unit: LockUnit::File(FileNo(file)),
        mode,
    }
}

#[test]
fn first_unit_and_least_holder(rt: HostRuntime) -> Result<(), Fail> {
    let mut table = LockTable::new(rt.alloc());
    table.ask(rt.alloc(), work(5), &[want(3, Mode::Read)])?;
    table.ask(
        rt.alloc(),
        work(4),
        &[want(3, Mode::Read), want(2, Mode::Read)],
    )?;
    table.ask(rt.alloc(), work(1), &[want(9, Mode::Read)])?;
    table.ask(
        rt.alloc(),
        work(6),
        &[want(9, Mode::IntentionWrite), want(3, Mode::IntentionWrite)],
    )?;
    let three = Conflict {
        unit: LockUnit::File(FileNo(3)),
        holder: work(4),
    };
    assert_eq!(rt; table.test_commit(work(6)), Err(LockFault::Conflict(three)));
    let found = table.to_commit(rt.alloc(), work(6)).err();
    assert_eq!(rt; found, Some(LockFault::Conflict(three)));
    assert_eq!(rt; table.holders(rt.alloc(), three.unit)?.len(), 3);
    table.make_vulnerable(work(4));
    table.make_vulnerable(work(5));
    table.make_vulnerable(work(1));
    let granted = table.to_commit(rt.alloc(), work(6))?;
    let broken = [
        Broken {
            work: work(1),
            unit: LockUnit::File(FileNo(9)),
        },
        Broken {
            work: work(4),
            unit: three.unit,
        },
        Broken {
            work: work(5),
            unit: three.unit,
        },
    ];
    assert_eq!(rt; granted.broken(), broken.as_slice());
    let holders = table.holders(rt.alloc(), three.unit)?;
    assert_eq!(rt; holders.as_slice(), [(work(6), Mode::Commit)].as_slice());
    assert_eq!(rt;
        table.holders(rt.alloc(), LockUnit::File(FileNo(2)))?.len(),
        0
    );
    Ok(())
}
