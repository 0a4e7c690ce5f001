//! The image of one server that isn't the first, loaded, examined and saved by itself. It is one of those of version 1 that
//! `.ci/version-1` has, and what is saved is the image of version 2 that its server leaves which starts and is closed at once.

ghost use Rattle.std.specs.Prelude.{◌≡◌, ◌≤◌, ℕ, IfSome};
ghost use Rattle.jn_base.specs.declared.names.ServerNo.{ServerNo as AServer};
ghost use Rattle.jn_order.specs.Files.{Files};
ghost use Rattle.jn_page_state.specs.Images.{IsFresh, IsImage};
ghost use Rattle.jn_records.specs.StablePages.{page_count};
ghost use Rattle.jn_intent.specs.Scrubbing.{IsIdle, counts_in};
ghost use Rattle.jn_recovery.specs.Counts.{counts_by};
ghost use Rattle.jn_storage.specs.Calls.{state};
ghost use Rattle.jn_storage.specs.Storage.{IsServing};
ghost use Rattle.jn_store.specs.Store.{IsCalm};

use jn_base::ServerNo;
use jn_host::{Keeper, MemoryKeeper};
use jn_image::Unsound;
use jn_image_files::{Cause, ExamineFault, Refusal, examine_image, load_image, save_image};
use jn_intent::{Intents, PageCounts};
use jn_storage::Storage;
use jn_store::StableStore;
use std::alloc::{AllocError, Global};
use std::test::Fail;

/// The last bytes of the image of version 1: the SHA-256 of those before them.
const DIGEST_1: [u8; 32] = [
    0xe9, 0x87, 0xae, 0x7e, 0x1a, 0x99, 0x2c, 0x3c, 0x11, 0xcb, 0x31, 0xf0, 0x18, 0xf7, 0x03, 0x8c,
    0x1e, 0xa2, 0x69, 0x57, 0xf5, 0x35, 0x1a, 0x89, 0x12, 0xc1, 0xcb, 0x72, 0x2b, 0x09, 0x36, 0xe1,
];

/// Those of the image of version 2, worked out apart from this program.
const DIGEST_2: [u8; 32] = [
    0xda, 0x04, 0x83, 0xb9, 0x8c, 0xa6, 0xa4, 0x58, 0x33, 0xe6, 0x05, 0xd9, 0x90, 0xed, 0xe9, 0x9a,
    0x18, 0xdb, 0xd4, 0x89, 0x11, 0x2b, 0x81, 0xa7, 0x83, 0xac, 0x7b, 0x03, 0x59, 0x36, 0xa8, 0x59,
];

/// A page's good half, which begins with these bytes and has zeros behind them.
fn push_half(bytes: &mut Vec<u8>, front: &[u8]) -> Result<(), AllocError> {
    bytes.push(1)?;
    for place in 0..512_usize {
        bytes.push(front.get(place).copied().unwrap_or(0))?;
    }
    Ok(())
}

/// One half of each page: the root, 8 free slots of the pool, a head whose file 8 has block 5 on data page 2, a free head, and data
/// pages of which two were put.
fn push_halves(bytes: &mut Vec<u8>, version: u8, epoch: u8) -> Result<(), AllocError> {
    for page in 0..15_u8 {
        match page {
            0 => push_half(
                bytes,
                &[
                    b'J', b'U', b'N', b'1', version, 1, 0, 8, 0, 2, 0, 4, 0, 0, 0, epoch,
                ],
            )?,
            9 => push_half(bytes, &[1, 0, 0, 0, 8, 0, 0, 0, 0, 0, 0, 0, 0, 0, 0, 0, 2])?,
            11 => push_half(bytes, b"a")?,
            12 => push_half(bytes, b"b")?,
            _ => push_half(bytes, b"")?,
        }
    }
    Ok(())
}

/// The image of server 1, with 8 pages of the pool, 2 heads and 4 data pages, of this version and epoch.
fn image_of(alloc: Global, version: u8, epoch: u8, digest: &[u8]) -> Result<Vec<u8>, AllocError> {
    let mut bytes = Vec::from_slice(alloc, b"JUNIMAGE")?;
    bytes.extend_from_slice(&[version, 1, 0, 8, 0, 2, 0, 4])?;
    push_halves(&mut bytes, version, epoch)?;
    push_halves(&mut bytes, version, epoch)?;
    bytes.extend_from_slice(digest)?;
    Ok(bytes)
}

/// The store that a server leaves which starts on this one and is closed at once, each page of it clean.
fn closed<S: StableStore + Drop>(alloc: Global, store: S, counts: PageCounts) -> Option<S>
    requires fresh { (server : AServer) × (epoch : ℕ) × (files : Files) × IsFresh server (counts_by counts) epoch files (S.view store) }
    requires calm { IsCalm (S.view store) }
    ensures image { (server : AServer) (epoch : ℕ) (files : Files) → IsFresh server (counts_by counts) epoch files (S.view store) → IfSome result (λ s. IsImage server (counts_by counts) files (S.view s)) }
    ensures count { IfSome result (λ s. page_count (counts_by counts) ≡ (S.view s).count) }
{
    match Intents::load(alloc, store, counts) {
        Err(_down) => None,
        Ok((storage, _found)) => scrubbed(storage),
    }
}

/// The store of a storage each of whose pages is cleaned.
fn scrubbed<S: StableStore + Drop>(storage: Intents<S>) -> Option<S>
    requires serving { IsServing (⟦<Intents<S> as Storage>⟧.view storage) }
    requires calm { IsCalm (⟦<Intents<S> as Storage>⟧.view storage).store }
    requires idle { IsIdle (⟦<Intents<S> as Storage>⟧.view storage) }
    ensures image { let v = ⟦<Intents<S> as Storage>⟧.view storage in IfSome result (λ s. IsImage v.accounts.server (counts_in v.accounts) (state v).files (S.view s)) }
    ensures count { IfSome result (λ s. (S.view s).count ≡ (⟦<Intents<S> as Storage>⟧.view storage).store.count) }
{
    let mut storage = storage;
    match storage.scrub() {
        Ok(()) => Some(storage.into_store()),
        Err(_stopped) => None,
    }
}

/// The counts of pages of an image that was loaded, once its server has started, was closed and is saved under the name `b`.
fn saved_again<I: Keeper>(
    alloc: Global,
    keeper: &mut I,
    content: &Option<Vec<u8>>,
    server: ServerNo,
) -> Option<PageCounts>
    requires { server.0 ≤ 7 }
{
    let Ok((store, counts)) = examine_image(alloc, content, server) else {
        return None;
    };
    let left = closed(alloc, store, counts)?;
    match save_image(alloc, keeper, "b", server, counts, left) {
        Ok(()) => Some(counts),
        Err(_failed) => None,
    }
}

#[test]
fn one_image_is_loaded_examined_and_saved(rt: HostRuntime) -> Result<(), Fail> {
    let alloc = rt.alloc();
    let first = image_of(alloc, 1, 2, &DIGEST_1)?;
    let mut keeper = MemoryKeeper::new(alloc, Vec::new(alloc), Vec::new(alloc));
    assert!(rt; keeper.save("a.1", &first).is_ok());
    assert!(rt; matches!(load_image(alloc, &mut keeper, "a", ServerNo(0)), Ok(None)));
    let found = load_image(alloc, &mut keeper, "a", ServerNo(1)).unwrap_or(None);
    assert_eq!(rt; found.as_deref(), Some(first.as_slice()));
    let others = Refusal {
        server: ServerNo(3),
        cause: Cause::Unsound(Unsound::Server),
    };
    assert_eq!(rt;
        examine_image(alloc, &found, ServerNo(3)).err(),
        Some(ExamineFault::Refused(others))
    );
    let counts = PageCounts {
        pool: 8,
        heads: 2,
        leaves: 4,
    };
    assert_eq!(rt;
        saved_again(alloc, &mut keeper, &found, ServerNo(1)),
        Some(counts)
    );
    let second = image_of(alloc, 2, 3, &DIGEST_2)?;
    assert_eq!(rt; keeper.get("b.1"), Some(second.as_slice()));
    assert_eq!(rt; keeper.get("b.0"), None);
    Ok(())
}
