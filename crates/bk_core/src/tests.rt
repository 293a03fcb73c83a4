ghost use Rattle.std.specs.Prelude.{◌≡◌, [], ◌∷◌, IfOk};
ghost use Rattle.bk_core.specs.Events.{start};

use super::*;
use std::alloc::Global;
use std::test::Fail;

// A core at its start, with two parts, and one key that is announced twice in the last area.
fn opened(alloc: Global) -> Result<Core, Fail>
    ensures { IfOk result (λ core. core ≡ start ([] ∷ [] ∷ (9 ∷ 9 ∷ []) ∷ []) 2) }
{
    let first = View {
        parts: 2,
        numbers: Vec::new(alloc),
        known: Vec::new(alloc),
    };
    let areas = vec![in alloc;
        vec![in alloc; 0]?,
        vec![in alloc; 0]?,
        vec![in alloc; 0, 0, 0]?,
    ]?;
    Ok(Core {
        claims: 0,
        areas,
        workers: vec![in alloc; first]?,
    })
}

#[test]
fn workers_share_numbers(rt: HostRuntime) -> Result<(), Fail> {
    let mut core = opened(rt.alloc())?;
    step(rt.alloc(), &mut core, Event::Split { worker: 0 })?;
    step(rt.alloc(), &mut core, Event::Claim { worker: 0 })?;
    step(rt.alloc(), &mut core, Event::Claim { worker: 1 })?;
    step(rt.alloc(), &mut core, Event::Claim { worker: 0 })?;
    step(rt.alloc(), &mut core, Event::Join { from: 1, to: 0 })?;
    assert!(rt; core.claims == 3 && core.workers.len() == 2);
    assert!(rt; core.workers[0].parts == 2 && core.workers[1].parts == 0);
    assert!(rt; core.workers[0].numbers.as_slice() == [0, 2, 1].as_slice());
    assert!(rt; core.workers[1].numbers.is_empty());
    Ok(())
}

#[test]
fn workers_share_a_cell(rt: HostRuntime) -> Result<(), Fail> {
    let mut core = opened(rt.alloc())?;
    let take = Event::Take {
        worker: 0,
        area: 2,
        cell: 0,
        key: 9,
    };
    step(rt.alloc(), &mut core, Event::Split { worker: 0 })?;
    step(rt.alloc(), &mut core, take)?;
    let look = Event::Look {
        worker: 1,
        area: 2,
        cell: 0,
    };
    step(rt.alloc(), &mut core, look)?;
    assert!(rt; core.areas[2].as_slice() == [9, 0, 0].as_slice());
    assert!(rt; core.workers[0].known.as_slice() == [(2, 0, 9)].as_slice());
    assert!(rt; core.workers[1].known.as_slice() == [(2, 0, 9)].as_slice());
    Ok(())
}
