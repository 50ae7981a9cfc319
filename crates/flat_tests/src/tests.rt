use flat::flat_map::FlatMap;
use std::test::Fail;
use tree::tree::Tree;

#[test]
fn the_root_alone_has_no_range(rt: HostRuntime) -> Result<(), Fail> {
    let tree = Tree::new(1 << 40)?;
    let map = FlatMap::of(&tree)?;
    assert_eq!(rt; map.len(), 0);
    assert!(rt; map.find(0).is_none());
    assert!(rt; map.range_at((1 << 40) - 1).is_none());
    assert!(rt; map.find(u64::MAX).is_none());
    Ok(())
}

#[test]
fn empty_maps_overlay_to_an_empty_map(rt: HostRuntime) -> Result<(), Fail> {
    let map = FlatMap::empty().overlay(&FlatMap::empty())?;
    assert_eq!(rt; map.ranges().len(), 0);
    assert!(rt; map.ordered().find(0).is_none());
    Ok(())
}
