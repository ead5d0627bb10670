//! A world of pairs.
use crate::PairBodies;
use std::test::Fail;
use world_core::World;

#[test]
fn a_world_draws_the_block_behind_its_partitions_first(rt: HostRuntime) -> Result<(), Fail> {
    let world = World::begin(rt.alloc(), 2, 10, 1, PairBodies)?;
    assert_eq!(rt; world.next_block(), 3);
    Ok(())
}
