//! A plain list of pages.

use jn_store::{ArrayStore, StableStore};
use std::test::Fail;

#[test]
fn keeps_what_is_put(rt: HostRuntime) -> Result<(), Fail> {
    let mut store = ArrayStore::new(rt.alloc(), 3)?;
    assert_eq!(rt; store.count(), 3);
    assert_eq!(rt; store.put(1, &[7; 512]), Ok(()));
    assert_eq!(rt; store.get(1), Ok([7; 512]));
    assert_eq!(rt; store.page(1), &[7; 512]);
    assert_eq!(rt; store.get(2), Ok([0; 512]));
    assert_eq!(rt; store.cleanup(1), Ok(false));
    assert_eq!(rt; store.get(1), Ok([7; 512]));
    Ok(())
}
