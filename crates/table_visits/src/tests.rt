//! Seats that share a few partitions.
mod crowd;
mod whole;

use session_table::Claim;
use std::test::Fail;

#[test]
fn one_seat_works_while_another_finds_the_partition_held(rt: HostRuntime) -> Result<(), Fail> {
    let shared = whole::share(rt.alloc())?;
    assert_eq!(rt; shared.rival, Some(Claim::HeldBy(1)));
    assert_eq!(rt; shared.visits, [Claim::Won, Claim::Won]);
    assert!(rt; shared.held && !shared.left);
    assert_eq!(rt; shared.sheets.len(), 2);
    let first = &shared.sheets[0];
    assert_eq!(rt; first.number, 1);
    assert_eq!(rt; first.blocks.as_slice(), [1, 3].as_slice());
    assert!(rt; whole::is_whole(first.journal.as_slice()));
    assert_eq!(rt; first.journal.len(), 5);
    assert_eq!(rt; shared.sheets[1].blocks.as_slice(), [2].as_slice());
    assert_eq!(rt; shared.sheets[1].journal.len(), 0);
    Ok(())
}

#[test]
fn eight_threads_share_four_partitions(rt: HostRuntime) -> Result<(), Fail> {
    let found = crowd::share(&rt, rt.alloc())?;
    assert!(rt; found.whole && found.entries > 0);
    assert_eq!(rt; found.drawn, 40);
    assert!(rt; found.once);
    Ok(())
}
