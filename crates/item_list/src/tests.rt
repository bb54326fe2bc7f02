//! A list keeps its items through the calls that change it.
use super::*;
use std::test::Fail;

#[test]
fn a_list_keeps_its_items(rt: HostRuntime) -> Result<(), Fail> {
    let mut list = ItemList::from_array(rt.alloc(), [1u8, 2, 3])?;
    list.push(4)?;
    list.append(ItemList::from_vec([5u8, 6].to_vec(rt.alloc())?))?;
    assert_eq!(rt; list.as_slice(), [1, 2, 3, 4, 5, 6].as_slice());
    assert_eq!(rt; list.pop(), Some(6));
    assert_eq!(rt; list.len(), 5);
    assert_eq!(rt; list.get(4).copied(), Some(5));
    assert_eq!(rt; list.get(5).copied(), None);
    assert!(rt; 1 < list.len());
    *list.get_mut(1) = 9;
    list.retain(|item| *item > 3);
    assert_eq!(rt; list.into_vec().as_slice(), [9, 4, 5].as_slice());
    assert!(rt; ItemList::<u8>::new(rt.alloc()).is_empty());
    Ok(())
}
