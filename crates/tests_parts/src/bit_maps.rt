// The ends of a map, and what two maps have together.
use sm_bits::BitMap;
use std::test::Fail;

#[test]
fn first_and_last_place(rt: HostRuntime) -> Result<(), Fail> {
    let mut map = BitMap::new(rt.alloc(), 70)?;
    map.set(0);
    map.set(69);
    assert_eq!(rt; map.len(), 70);
    assert!(rt; !map.is_empty());
    assert_eq!(rt; map.count(), 2);
    for (from, next) in [(0, Some(0)), (1, Some(69)), (70, None)] {
        assert_eq!(rt; map.next_set(from), next, "from {from}");
    }
    assert!(rt; map.test(69));
    map.clear(69);
    assert!(rt; !map.test(69));
    assert_eq!(rt; map.next_set(1), None);
    Ok(())
}

// The loops below do not say how long a map stays.
fn put(map: &mut BitMap, at: u32) {
    if at < map.len() {
        map.set(at);
    }
}

#[test]
fn union_and_difference(rt: HostRuntime) -> Result<(), Fail> {
    let mut evens = BitMap::new(rt.alloc(), 1000)?;
    let mut threes = BitMap::new(rt.alloc(), 1000)?;
    for at in 0..500 {
        put(&mut evens, 2 * at);
    }
    for at in 0..334 {
        put(&mut threes, 3 * at);
    }
    assert_eq!(rt; (evens.len(), threes.len()), (1000, 1000));
    let mut both = evens.copy(rt.alloc())?;
    both.union(&threes);
    evens.minus(&threes);
    // Of 1,000 numbers 500 are even, 334 are multiples of three and 167 of six.
    assert_eq!(rt; (both.count(), evens.count()), (667, 333));
    for (from, either, even) in [
        (0, Some(0), Some(2)),
        (5, Some(6), Some(8)),
        (999, Some(999), None),
    ] {
        assert_eq!(rt; both.next_set(from), either, "from {from}");
        assert_eq!(rt; evens.next_set(from), even, "from {from}");
    }
    Ok(())
}
