//! Six entries of one bucket, bound and unbound in every order, beside a plain map.

use crate::directory::{Directory, Ended, push_entry};
use std::alloc::{AllocError, Global};
use std::test::Fail;

/// Names of bucket 10, ascending.
const NAMES: [&[u8]; 6] = [b"abcd", b"abdc", b"acbd", b"acdb", b"adbc", b"adcb"];

/// The order of this number, of 720: which of the names that are left comes next.
fn order(number: usize) -> [usize; 6] {
    let mut left = [0, 1, 2, 3, 4, 5];
    let mut names = [0; 6];
    let mut rest = number;
    for i in 0..6 {
        let many = 6 - i;
        let next = rest % many;
        rest /= many;
        names[i] = left[next];
        left[next] = left[many - 1];
    }
    names
}

/// Whether the directory has exactly the names of the map, with their files.
fn is_map(
    alloc: Global,
    directory: &mut Directory,
    map: &[Option<u32>; 6],
) -> Result<bool, AllocError> {
    let mut text = Vec::new(alloc);
    for i in 0..6 {
        let expected = match map[i] {
            Some(file) => {
                push_entry(&mut text, NAMES[i], file)?;
                Ended::Found(file)
            }
            None => Ended::Refused(55),
        };
        if directory.find(alloc, NAMES[i])? != expected {
            return Ok(false);
        }
    }
    Ok(directory.names(alloc)? == Ended::Names(text))
}

/// Binds each name in one order and unbinds it in another, and looks after each call.
fn is_as_a_map(
    alloc: Global,
    binding: &[usize; 6],
    unbinding: &[usize; 6],
) -> Result<bool, AllocError> {
    let mut directory = Directory::new(alloc)?;
    let mut map = [None; 6];
    for i in 0..6 {
        let name = binding[i] % 6;
        map[name] = Some(i as u32);
        if directory.bind(alloc, NAMES[name], i as u32)? != Ended::Did
            || !is_map(alloc, &mut directory, &map)?
        {
            return Ok(false);
        }
    }
    for i in 0..6 {
        let name = unbinding[i] % 6;
        map[name] = None;
        if directory.unbind(alloc, NAMES[name])? != Ended::Did
            || !is_map(alloc, &mut directory, &map)?
        {
            return Ok(false);
        }
    }
    Ok(directory.block(10) == [0; 448])
}

#[test]
fn every_order_is_as_a_map(rt: HostRuntime) -> Result<(), Fail> {
    for number in 0..720 {
        let names = order(number);
        assert!(rt;
            is_as_a_map(rt.alloc(), &names, &order(0))?,
            "binding {number}"
        );
        assert!(rt;
            is_as_a_map(rt.alloc(), &order(0), &names)?,
            "unbinding {number}"
        );
    }
    Ok(())
}
