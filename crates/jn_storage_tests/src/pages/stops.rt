// A stable put and a cleanup, stopped at each of their device calls in each way, from each kind of
// pair; then decays and revivals of either half; then a get and a cleanup.
ghost use Rattle.std.specs.Prelude.{◌≡◌, ◌<◌, ℕ, IfOk, true};
ghost use Rattle.jn_device.specs.Events.{is_within};
ghost use Rattle.jn_storage_tests.specs.Ready.{IsReady};

use jn_base::{FaultKind, Page, Stopped};
use jn_device::Half;
use jn_memdisk::MemDisk;
use jn_stable::Pairs;
use jn_store::{Powered, StableStore};
use std::alloc::{AllocError, Global};
use std::process::Abort;
use std::test::Fail;

/// A half that is good or bad and full of one byte.
#[derive(Clone, Copy, Debug, PartialEq, Eq)]
enum Full {
    Good(u8),
    Bad(u8),
}

use Full::{Bad, Good};

/// The two halves of a stable page.
type Pair = (Full, Full);

#[derive(Clone, Copy)]
enum Call {
    /// A put of a page full of 3.
    Put,
    Cleanup,
}

/// What befalls a half after the stop.
#[derive(Clone, Copy)]
enum Event {
    None,
    Decay(u32),
    Revive(u32),
}

/// A call from a pair; for each of its device calls the pair that it leaves where it is stopped
/// before it, within it and after it.
#[derive(Clone, Copy)]
struct Case {
    name: &'static str,
    from: Pair,
    call: Call,
    left: &'static [[Pair; 3]],
}

/// The three ways to stop at a call.
fn stop(way: usize) -> FaultKind
    ensures { (count : ℕ) → is_within count result ≡ true }
{
    match way {
        0 => FaultKind::StopBefore,
        1 => FaultKind::StopTorn,
        _ => FaultKind::StopAfter,
    }
}

const EVENTS: [Event; 5] = [
    Event::None,
    Event::Decay(0),
    Event::Decay(1),
    Event::Revive(0),
    Event::Revive(1),
];

fn cases() -> [Case; 8] {
    [
        Case {
            name: "put over equal halves",
            from: (Good(1), Good(1)),
            call: Call::Put,
            left: &[
                [(Good(1), Good(1)), (Bad(3), Good(1)), (Good(3), Good(1))],
                [(Good(3), Good(1)), (Good(3), Good(1)), (Good(3), Good(1))],
                [(Good(3), Good(1)), (Good(3), Bad(3)), (Good(3), Good(3))],
                [(Good(3), Good(3)), (Good(3), Good(3)), (Good(3), Good(3))],
            ],
        },
        Case {
            name: "put over different halves",
            from: (Good(1), Good(2)),
            call: Call::Put,
            left: &[
                [(Good(1), Good(2)), (Bad(3), Good(2)), (Good(3), Good(2))],
                [(Good(3), Good(2)), (Good(3), Good(2)), (Good(3), Good(2))],
                [(Good(3), Good(2)), (Good(3), Bad(3)), (Good(3), Good(3))],
                [(Good(3), Good(3)), (Good(3), Good(3)), (Good(3), Good(3))],
            ],
        },
        Case {
            name: "put where the first half is bad",
            from: (Bad(1), Good(2)),
            call: Call::Put,
            left: &[
                [(Bad(1), Good(2)), (Bad(3), Good(2)), (Good(3), Good(2))],
                [(Good(3), Good(2)), (Good(3), Good(2)), (Good(3), Good(2))],
                [(Good(3), Good(2)), (Good(3), Bad(3)), (Good(3), Good(3))],
                [(Good(3), Good(3)), (Good(3), Good(3)), (Good(3), Good(3))],
            ],
        },
        Case {
            name: "put where the second half is bad: the first can't tear",
            from: (Good(1), Bad(2)),
            call: Call::Put,
            left: &[
                [(Good(1), Bad(2)), (Good(1), Bad(2)), (Good(3), Bad(2))],
                [(Good(3), Bad(2)), (Good(3), Bad(2)), (Good(3), Bad(2))],
                [(Good(3), Bad(2)), (Good(3), Bad(3)), (Good(3), Good(3))],
                [(Good(3), Good(3)), (Good(3), Good(3)), (Good(3), Good(3))],
            ],
        },
        Case {
            name: "cleanup of equal halves: two gets",
            from: (Good(1), Good(1)),
            call: Call::Cleanup,
            left: &[
                [(Good(1), Good(1)), (Good(1), Good(1)), (Good(1), Good(1))],
                [(Good(1), Good(1)), (Good(1), Good(1)), (Good(1), Good(1))],
            ],
        },
        Case {
            name: "cleanup of different halves: the first is put over the second",
            from: (Good(1), Good(2)),
            call: Call::Cleanup,
            left: &[
                [(Good(1), Good(2)), (Good(1), Good(2)), (Good(1), Good(2))],
                [(Good(1), Good(2)), (Good(1), Good(2)), (Good(1), Good(2))],
                [(Good(1), Good(2)), (Good(1), Bad(1)), (Good(1), Good(1))],
                [(Good(1), Good(1)), (Good(1), Good(1)), (Good(1), Good(1))],
            ],
        },
        Case {
            name: "cleanup where the first half is bad: it is looked at four times",
            from: (Bad(1), Good(2)),
            call: Call::Cleanup,
            left: &[
                [(Bad(1), Good(2)), (Bad(1), Good(2)), (Bad(1), Good(2))],
                [(Bad(1), Good(2)), (Bad(1), Good(2)), (Bad(1), Good(2))],
                [(Bad(1), Good(2)), (Bad(1), Good(2)), (Bad(1), Good(2))],
                [(Bad(1), Good(2)), (Bad(1), Good(2)), (Bad(1), Good(2))],
                [(Bad(1), Good(2)), (Bad(1), Good(2)), (Bad(1), Good(2))],
                [(Bad(1), Good(2)), (Bad(2), Good(2)), (Good(2), Good(2))],
                [(Good(2), Good(2)), (Good(2), Good(2)), (Good(2), Good(2))],
            ],
        },
        Case {
            name: "cleanup where the second half is bad: it is looked at four times",
            from: (Good(1), Bad(2)),
            call: Call::Cleanup,
            left: &[
                [(Good(1), Bad(2)), (Good(1), Bad(2)), (Good(1), Bad(2))],
                [(Good(1), Bad(2)), (Good(1), Bad(2)), (Good(1), Bad(2))],
                [(Good(1), Bad(2)), (Good(1), Bad(2)), (Good(1), Bad(2))],
                [(Good(1), Bad(2)), (Good(1), Bad(2)), (Good(1), Bad(2))],
                [(Good(1), Bad(2)), (Good(1), Bad(2)), (Good(1), Bad(2))],
                [(Good(1), Bad(2)), (Good(1), Bad(1)), (Good(1), Good(1))],
                [(Good(1), Good(1)), (Good(1), Good(1)), (Good(1), Good(1))],
            ],
        },
    ]
}

fn half_of(full: Full) -> Half {
    match full {
        Good(byte) => Half {
            good: true,
            bytes: [byte; 512],
        },
        Bad(byte) => Half {
            good: false,
            bytes: [byte; 512],
        },
    }
}

fn full_of(half: &Half) -> Full {
    if half.good {
        Good(byte_of(&half.bytes))
    } else {
        Bad(byte_of(&half.bytes))
    }
}

/// The byte that a page is full of, or 255.
fn byte_of(page: &Page) -> u8 {
    if *page == [page[0]; 512] {
        page[0]
    } else {
        255
    }
}

/// The two halves that a store of one page has kept.
fn pair_of(store: Pairs<MemDisk>) -> Option<Pair> {
    let halves = store.into_inner().into_pages();
    Some((full_of(halves.get(0)?), full_of(halves.get(1)?)))
}

/// A store of one page on these halves.
fn store_of(rt: &impl Abort, alloc: Global, from: Pair) -> Result<Pairs<MemDisk>, AllocError>
    ensures { IfOk result (λ s. IsReady (⟦<Pairs<MemDisk> as Powered>⟧.device s)) }
{
    let first = half_of(from.0);
    let second = half_of(from.1);
    assert!(rt; first.good || second.good);
    let disk = MemDisk::from_pages(alloc, Vec::from_array(alloc, [first, second])?)?;
    Ok(Pairs::new(disk))
}

/// The store after the case's call was stopped at its n-th device call, with power.
fn stopped(
    rt: &impl Abort,
    alloc: Global,
    case: &Case,
    n: u32,
    way: usize,
) -> Result<Pairs<MemDisk>, AllocError>
    requires { 0 < n }
    ensures { IfOk result (λ s. (⟦<Pairs<MemDisk> as Powered>⟧.device s).count ≡ 2) }
{
    let mut store = store_of(rt, alloc, case.from)?;
    assert!(rt; store.arm(n, stop(way)));
    let answer = match case.call {
        Call::Put => store.put(0, &[3; 512]),
        Call::Cleanup => store.cleanup(0).map(|_| ()),
    };
    assert_eq!(rt; answer, Err(Stopped), "{} at {n}", case.name);
    store.power_up();
    Ok(store)
}

fn befall(store: &mut Pairs<MemDisk>, event: Event)
    requires { (⟦<Pairs<MemDisk> as Powered>⟧.device store.old).count ≡ 2 }
    ensures { (⟦<Pairs<MemDisk> as Powered>⟧.device store.new).count ≡ 2 }
{
    match event {
        Event::Decay(p) if p < 2 => {
            store.decay(p);
        }
        Event::Revive(p) if p < 2 => store.revive(p),
        _ => {}
    }
}

/// A get answers one of the candidates, and a cleanup leaves the page whole with it.
fn is_mended(rt: &impl Abort, mut store: Pairs<MemDisk>, left: Pair, name: &str)
    requires { (⟦<Pairs<MemDisk> as Powered>⟧.device store).count ≡ 2 }
{
    let got = store.get(0).map(|page| byte_of(&page));
    assert!(rt;
        got == Ok(byte_in(left.0)) || got == Ok(byte_in(left.1)),
        "{name}"
    );
    assert!(rt; store.cleanup(0).is_ok(), "{name}");
    assert_eq!(rt; store.cleanup(0), Ok(false), "{name}");
    assert_eq!(rt; store.get(0).map(|page| byte_of(&page)), got, "{name}");
    let whole = got.ok().map(|byte| (Good(byte), Good(byte)));
    assert_eq!(rt; pair_of(store), whole, "{name}");
}

fn byte_in(full: Full) -> u8 {
    match full {
        Good(byte) | Bad(byte) => byte,
    }
}

/// Stops the case's n-th device call in this way, and tries each two events after it.
fn check(
    rt: &impl Abort,
    alloc: Global,
    case: &Case,
    n: u32,
    way: usize,
    left: Pair,
) -> Result<(), AllocError>
    requires { 0 < n }
{
    let found = pair_of(stopped(rt, alloc, case, n, way)?);
    assert_eq!(rt; found, Some(left), "{} at {n}", case.name);
    for k in 0..25usize {
        let mut store = stopped(rt, alloc, case, n, way)?;
        befall(&mut store, EVENTS[k / 5]);
        befall(&mut store, EVENTS[k % 5]);
        is_mended(rt, store, left, case.name);
    }
    Ok(())
}

fn check_case(rt: &impl Abort, alloc: Global, case: &Case) -> Result<(), AllocError> {
    let mut before = 0;
    for left in case.left {
        assert!(rt; before < 9);
        check(rt, alloc, case, before + 1, 0, left[0])?;
        check(rt, alloc, case, before + 1, 1, left[1])?;
        check(rt, alloc, case, before + 1, 2, left[2])?;
        before += 1;
    }
    Ok(())
}

#[test]
fn a_stop_leaves_candidates_that_the_store_allows(rt: HostRuntime) -> Result<(), Fail> {
    for case in &cases() {
        check_case(&rt, rt.alloc(), case)?;
    }
    Ok(())
}

#[test]
fn a_get_answers_the_first_good_half(rt: HostRuntime) -> Result<(), Fail> {
    for (from, byte, calls) in [
        ((Good(1), Good(2)), 1, 1),
        ((Good(1), Bad(2)), 1, 1),
        ((Bad(1), Good(2)), 2, 5),
    ] {
        let mut store = store_of(&rt, rt.alloc(), from)?;
        let got = store.get(0).map(|page| byte_of(&page));
        assert_eq!(rt; got, Ok(byte), "{from:?}");
        assert_eq!(rt; store.into_inner().calls(), calls, "{from:?}");
    }
    Ok(())
}
