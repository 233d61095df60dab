ghost use Rattle.queue.specs.Order.{by_key};
ghost use Rattle.std.specs.Prelude.{[], ◌∷◌};
ghost use Rattle.std.proofs.Common.{rules};

use crate::heap;
use crate::order::{Ordered, Reversed};
use std::test::Fail;

#[derive(Clone, Copy, PartialEq, Eq, PartialOrd, Ord, Debug)]
struct Depth(u32);

impl Ordered for Depth {
    ghost before = { by_key (λ d. d.0 ∷ []) };

    ghost total = { Prim.search rules };

    fn precedes(&self, other: &Depth) -> bool {
        self < other
    }
}

#[test]
fn shallow_first(rt: HostRuntime) -> Result<(), Fail> {
    let mut places = [Depth(0); 4];
    assert!(rt; heap::push(&mut places, 0, Depth(20)));
    assert!(rt; heap::push(&mut places, 1, Depth(30)));
    assert!(rt; heap::push(&mut places, 2, Depth(10)));
    assert!(rt; heap::push(&mut places, 3, Depth(20)));
    assert!(rt;
        !heap::push(&mut places, 4, Depth(5)),
        "every place is in use"
    );
    assert_eq!(rt; heap::first(&places, 4).ok_or("empty")?.0, 10);
    assert_eq!(rt;
        heap::replace_first(&mut places, 4, Depth(25))
            .ok_or("empty")?
            .0,
        10
    );
    assert_eq!(rt; heap::pop(&mut places, 4).ok_or("empty")?.0, 20);
    assert_eq!(rt; heap::pop(&mut places, 3).ok_or("empty")?.0, 20);
    assert_eq!(rt; heap::pop(&mut places, 2).ok_or("empty")?.0, 25);
    assert_eq!(rt; heap::pop(&mut places, 1).ok_or("empty")?.0, 30);
    assert!(rt; heap::pop(&mut places, 0).is_none());
    Ok(())
}

#[test]
fn deep_first(rt: HostRuntime) -> Result<(), Fail> {
    let mut places = [Reversed(Depth(0)); 3];
    assert!(rt; heap::push(&mut places, 0, Reversed(Depth(20))));
    assert!(rt; heap::push(&mut places, 1, Reversed(Depth(10))));
    assert!(rt; heap::push(&mut places, 2, Reversed(Depth(30))));
    assert_eq!(rt; heap::pop(&mut places, 3).ok_or("empty")?.0.0, 30);
    assert_eq!(rt; heap::pop(&mut places, 2).ok_or("empty")?.0.0, 20);
    assert_eq!(rt; heap::pop(&mut places, 1).ok_or("empty")?.0.0, 10);
    Ok(())
}
