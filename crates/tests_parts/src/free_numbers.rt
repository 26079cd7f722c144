// Which number is taken next.
use sm_bits::BitMap;
use sm_space::Space;
use std::test::Fail;

#[test]
fn takes_the_least_number(rt: HostRuntime) -> Result<(), Fail> {
    let mut used = BitMap::new(rt.alloc(), 3)?;
    used.set(1);
    let mut space = Space::new(rt.alloc(), 2, &used)?;
    assert_eq!(rt; (space.used(), space.free()), (1, 1));
    assert_eq!(rt; space.take(), Some(2));
    assert_eq!(rt; space.take(), None);
    assert_eq!(rt; (space.used(), space.free()), (2, 0));
    Ok(())
}

#[test]
fn a_number_that_was_given_back_is_taken_again(rt: HostRuntime) -> Result<(), Fail> {
    let used = BitMap::new(rt.alloc(), 101)?;
    let mut space = Space::new(rt.alloc(), 100, &used)?;
    assert_eq!(rt; space.take(), Some(1));
    assert_eq!(rt; space.take(), Some(2));
    assert_eq!(rt; space.take(), Some(3));
    space.give(2);
    let mut copy = space.copy(rt.alloc())?;
    for (from, next) in [(0, Some(2)), (3, Some(4)), (100, Some(100)), (101, None)] {
        assert_eq!(rt; space.next_free(from), next, "from {from}");
    }
    assert_eq!(rt; (copy.take(), copy.take()), (Some(2), Some(4)));
    assert_eq!(rt; space.used() + space.free(), 100);
    space.reset(&used);
    assert_eq!(rt; (space.take(), space.used()), (Some(1), 1));
    Ok(())
}
