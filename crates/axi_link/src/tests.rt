use super::*;
use std::test::Fail;

fn item(word: u32) -> Item {
    Item {
        word,
        control: word % 2 == 1,
    }
}

#[test]
fn depths_from_1_to_4096_are_made(rt: HostRuntime) -> Result<(), Fail> {
    for depth in [1, 2, 4096] {
        let link = Link::new(rt.alloc(), depth)?;
        assert_eq!(rt; link.depth(), depth);
        assert_eq!(rt; link.len(), 0);
        assert_eq!(rt; link.peek(), None);
    }
    for depth in [0, 4097, usize::MAX] {
        assert_eq!(rt;
            Link::new(rt.alloc(), depth).err(),
            Some(LinkFault::BadDepth),
            "at {depth}"
        );
    }
    Ok(())
}

#[test]
fn items_come_out_in_the_order_that_they_went_in(rt: HostRuntime) -> Result<(), Fail> {
    let mut link = Link::new(rt.alloc(), 2)?;
    assert_eq!(rt; link.put(item(1)), Ok(()));
    assert_eq!(rt; link.put(item(2)), Ok(()));
    assert_eq!(rt; link.put(item(3)), Err(item(3)));
    assert_eq!(rt; link.len(), 2);
    assert_eq!(rt; link.peek(), Some(item(1)));
    assert_eq!(rt; link.take(), Some(item(1)));
    assert_eq!(rt; link.put(item(4)), Ok(()));
    assert_eq!(rt; link.take(), Some(item(2)));
    assert_eq!(rt; link.take(), Some(item(4)));
    assert_eq!(rt; link.take(), None);
    Ok(())
}
