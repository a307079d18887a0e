use ec_search_queues::{Bound, Tickets};
use std::alloc::AllocError;

#[test]
fn two_readers(rt: HostRuntime) -> Result<(), AllocError> {
    let (bound, readers) = Bound::new(rt.alloc(), 2)?;
    let count = readers.len();
    let mut readers = readers.into_iter();
    let mut zero = readers.next().expect(&rt, "the first reader");
    let mut one = readers.next().expect(&rt, "the second reader");
    let before = bound.read(&mut one);
    bound.lower(&mut zero, 464);
    let lowered = bound.read(&mut one);
    bound.lower(&mut one, 500);
    let kept = bound.read(&mut zero);
    assert_eq!(rt;
        (count, before, lowered, kept),
        (2, None, Some(464), Some(464))
    );
    Ok(())
}

#[test]
fn two_workers(rt: HostRuntime) -> Result<(), AllocError> {
    let mut all = Tickets::new(rt.alloc(), 2)?;
    let count = all.len();
    let (front, back) = all.as_mut_slice().split_at_mut(1);
    let counts = (count, front.len(), back.len());
    let first = &mut front[0];
    let second = &mut back[0];
    let pushed = (first.push(5), first.push(6));
    let taken = [
        second.next_ticket(),
        first.next_ticket(),
        first.next_ticket(),
        second.next_ticket(),
    ];
    assert_eq!(rt;
        (counts, pushed, taken),
        ((2, 1, 1), (true, true), [Some(5), Some(6), None, None])
    );
    Ok(())
}

#[test]
fn three_workers(rt: HostRuntime) -> Result<(), AllocError> {
    let mut all = Tickets::new(rt.alloc(), 3)?;
    let all = all.as_mut_slice();
    let pushed = (all[0].push(10), all[1].push(11), all[2].push(12));
    let own = all[1].next_ticket();
    let others = [all[1].next_ticket(), all[1].next_ticket()];
    let has_both = others.contains(&Some(10)) && others.contains(&Some(12));
    assert_eq!(rt;
        (pushed, own, has_both, all[1].next_ticket()),
        ((true, true, true), Some(11), true, None)
    );
    Ok(())
}
