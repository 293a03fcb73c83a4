ghost use Rattle.std.specs.Prelude.{ℕ, ◌≡◌, ◌<◌, ◌+◌};
ghost use Rattle.std.specs.List.{Contains};
ghost use Rattle.bk_core.specs.Rule.{keys_of};
ghost use Rattle.bk_share.specs.Passes.{IsPassOf, view, announced_in};

use crate::{Pass, Share};
use bk_piece::Handle;
use std::test::Fail;
use std::thread;
use std::thread::Threads;

#[test]
fn two_passes_find_one_cell(rt: HostRuntime) -> Result<(), Fail> {
    let keys = vec![in rt.alloc(); 9u64, 9]?;
    let announced = [Vec::new(rt.alloc()), Vec::new(rt.alloc()), keys];
    let (share, mut pass) = Share::new(rt.alloc(), 2, announced, 2)?;
    let mut other = share.split(&mut pass);
    assert!(rt; share.claim(&mut pass) == Some(0));
    assert!(rt; share.claim(&mut other) == Some(1));
    assert!(rt; share.claim(&mut pass).is_none());
    let first = share.intern(&mut pass, 2, 9);
    let second = share.intern(&mut other, 2, 9);
    assert_eq!(rt; first, Handle { area: 2, cell: 0 });
    assert_eq!(rt; second, first);
    share.join(&mut pass, other);
    let words = share.close(pass);
    assert!(rt; words[0].as_slice() == [0].as_slice() && words[1].as_slice() == [0].as_slice());
    assert!(rt; words[2].as_slice() == [9, 0, 0].as_slice());
    Ok(())
}

#[test]
fn a_full_cell_is_passed_by(rt: HostRuntime) -> Result<(), Fail> {
    let keys = vec![in rt.alloc(); 3u64, 3, 6]?;
    let announced = [Vec::new(rt.alloc()), keys, Vec::new(rt.alloc())];
    let (share, mut pass) = Share::new(rt.alloc(), 0, announced, 1)?;
    assert!(rt; share.intern(&mut pass, 1, 3).cell == 3);
    assert!(rt; share.intern(&mut pass, 1, 6).cell == 2);
    assert!(rt; share.intern(&mut pass, 1, 3).cell == 3);
    assert!(rt; share.claim(&mut pass).is_none());
    let words = share.close(pass);
    assert!(rt; words[1].as_slice() == [0, 0, 6, 3].as_slice());
    Ok(())
}

#[test]
fn a_walk_goes_round_the_end(rt: HostRuntime) -> Result<(), Fail> {
    let keys = vec![in rt.alloc(); 7u64, 3, 11]?;
    let announced = [keys, Vec::new(rt.alloc()), Vec::new(rt.alloc())];
    let (share, mut pass) = Share::new(rt.alloc(), 0, announced, 1)?;
    assert!(rt; share.intern(&mut pass, 0, 7).cell == 3);
    assert!(rt; share.intern(&mut pass, 0, 3).cell == 0);
    assert!(rt; share.intern(&mut pass, 0, 11).cell == 1);
    let words = share.close(pass);
    assert!(rt; words[0].as_slice() == [3, 11, 0, 7].as_slice());
    Ok(())
}

// A pass, and the cell of a key that it knows.
#[derive(Drop)]
struct Placed {
    pass: Pass,
    handle: Handle,
}

fn place(share: &Share, mut pass: Pass, area: u8, key: u64) -> Placed
    requires pass { IsPassOf share.now pass }
    requires key { Contains (keys_of (announced_in share.now) area) key }
    ensures pass { IsPassOf share.now result.pass }
    ensures known { Contains (view result.pass).known (area, result.handle.cell, key) }
{
    let handle = share.intern(&mut pass, area, key);
    Placed { pass, handle }
}

// Two threads ask for the cell of one key. That they get one cell is proved, since the pass that
// knows what both know asks once more.
fn cells_in_two_threads<R: Threads + Sync>(
    rt: &R,
    share: &Share,
    pass: &mut Pass,
    area: u8,
    key: u64,
) -> (Handle, Handle)
    requires pass { IsPassOf share.now pass.old }
    requires parts { 2 < (view pass.old).parts }
    requires key { Contains (keys_of (announced_in share.now) area) key }
    ensures same { result.0.cell ≡ result.1.cell }
{
    let a = share.split(pass);
    let b = share.split(pass);
    let (a, b) = thread::join(
        rt,
        move || -> Placed
            requires { IsPassOf share.now a × Contains (keys_of (announced_in share.now) area) key }
            ensures { IsPassOf share.entry.now result.pass × Contains (view result.pass).known (area, result.handle.cell, key) }
        { place(share, a, area, key) },
        move || -> Placed
            requires { IsPassOf share.now b × Contains (keys_of (announced_in share.now) area) key }
            ensures { IsPassOf share.entry.now result.pass × Contains (view result.pass).known (area, result.handle.cell, key) }
        { place(share, b, area, key) },
    );
    let Placed {
        pass: one,
        handle: first,
    } = a;
    share.join(pass, one);
    let Placed {
        pass: one,
        handle: second,
    } = b;
    share.join(pass, one);
    share.intern(pass, area, key);
    (first, second)
}

#[test]
fn two_threads_get_one_handle(rt: HostRuntime) -> Result<(), Fail> {
    let keys = vec![in rt.alloc(); 9u64, 5]?;
    let announced = [keys, Vec::new(rt.alloc()), Vec::new(rt.alloc())];
    let (share, mut pass) = Share::new(rt.alloc(), 1, announced, 3)?;
    let (first, second) = cells_in_two_threads(&rt, &share, &mut pass, 0, 5);
    assert_eq!(rt; first, second);
    assert_eq!(rt; first, Handle { area: 0, cell: 2 });
    Ok(())
}
