//! Sets beside plain lists of truth values, and the words that a search looks at.

use dirtylog::BitSet;
use std::alloc::Global;
use std::process::Abort;
use std::test::Fail;

/// The next number of a sequence that repeats late.
fn next(seed: u64) -> u64 {
    seed.wrapping_mul(6_364_136_223_846_793_005)
        .wrapping_add(1_442_695_040_888_963_407)
}

/// Both say the same of each number, and of the next member from each number on.
fn agrees(rt: &impl Abort, set: &BitSet, plain: &[bool]) {
    let mut count = 0u64;
    let mut least = None;
    assert_eq!(rt; set.len(), plain.len() as u64);
    assert_eq!(rt; set.first_from(set.len()), None);
    for (n, member) in plain.iter().enumerate().rev() {
        let n = n as u64;
        if n < set.len() {
            assert_eq!(rt; set.contains(n), *member);
            if *member {
                count = count.wrapping_add(1);
                least = Some(n);
            }
            assert_eq!(rt; set.first_from(n), least);
        }
    }
    assert_eq!(rt; set.count(), count);
    assert_eq!(rt; set.is_empty(), count == 0);
}

/// Inserts and removes numbers that the seed gives, in a set and in a plain list.
fn change(set: &mut BitSet, plain: &mut [bool], seed: u64) -> u64 {
    let mut seed = seed;
    for _ in 0..40 {
        seed = next(seed);
        let n = if set.len() == 0 {
            0
        } else {
            (seed >> 20) % set.len()
        };
        let member = seed >> 60 & 1 == 1;
        if n < set.len() {
            if member {
                set.insert(n);
            } else {
                set.remove(n);
            }
        }
        if let Some(place) = plain.get_mut(n as usize) {
            *place = member;
        }
    }
    seed
}

/// Goes through changes, a fill, a hand over and a clear of a set of this length.
fn follows(rt: &impl Abort, alloc: Global, len: u64, seed: u64) -> Result<(), Fail> {
    let mut set = BitSet::new(alloc, len)?;
    let mut plain = vec![in alloc; false; len as usize]?;
    agrees(rt, &set, &plain);
    let seed = change(&mut set, &mut plain, seed);
    agrees(rt, &set, &plain);
    set.fill();
    plain.fill(true);
    agrees(rt, &set, &plain);
    let _seed = change(&mut set, &mut plain, seed);
    agrees(rt, &set, &plain);
    set.clear();
    plain.fill(false);
    agrees(rt, &set, &plain);
    Ok(())
}

#[test]
fn sets_agree_with_plain_lists(rt: HostRuntime) -> Result<(), Fail> {
    for (seed, len) in [0u64, 1, 63, 64, 65, 511, 512, 513, 4095, 4096, 4097]
        .into_iter()
        .enumerate()
    {
        follows(&rt, rt.alloc(), len, seed as u64)?;
    }
    Ok(())
}

/// As many items as a machine can have: 16,384 pages, and 16 disks of 2,097,152 sectors.
const ITEMS: u64 = 33_570_816;

/// The last of many numbers is found among them by looking at this many words; where there is none, no word is looked at.
fn looks_at_few(rt: &impl Abort, alloc: Global, len: u64, count: u64) -> Result<(), Fail> {
    let mut set = BitSet::new(alloc, len)?;
    assert_eq!(rt; set.first_counted(0), (None, 0));
    let last = len.saturating_sub(1);
    if last < set.len() {
        set.insert(last);
    }
    let (found, looked) = set.first_counted(0);
    assert_eq!(rt; found, Some(last));
    assert_eq!(rt; looked, count);
    Ok(())
}

#[test]
fn few_words_are_looked_at(rt: HostRuntime) -> Result<(), Fail> {
    looks_at_few(&rt, rt.alloc(), ITEMS, 8_199)
}

/// Two members of many go from one set to another.
fn hands_over(rt: &impl Abort, alloc: Global, len: u64) -> Result<(), Fail> {
    let mut from = BitSet::new(alloc, len)?;
    let mut to = BitSet::new(alloc, len)?;
    for n in [64, 4999] {
        if n < from.len() {
            from.insert(n);
        }
    }
    if to.is_empty() && to.len() == from.len() {
        from.swap_out(&mut to);
    }
    assert!(rt; from.is_empty());
    assert_eq!(rt; from.first_from(0), None);
    assert_eq!(rt; to.first_from(0), Some(64));
    assert_eq!(rt; to.count(), 2);
    Ok(())
}

#[test]
fn members_are_handed_over(rt: HostRuntime) -> Result<(), Fail> {
    hands_over(&rt, rt.alloc(), 5000)
}
