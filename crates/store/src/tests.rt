// Both makes of a store, over keys that are equal by one of their parts alone.
ghost use Rattle.std.specs.Prelude.{◌≡◌, ◌<◌, length, ◌==◌};
ghost use Rattle.std.specs.Ordering.{nat_cmp};
ghost use Rattle.std.proofs.Common.{rules};

use super::*;
use std::alloc::AllocError;
use std::cmp::Ordering;
use std::process::Abort;

// Two of these are equal where their numbers are, whatever the notes.
#[derive(Clone, Copy)]
struct Noted {
    number: u64,
    note: u8,
}

impl Key for Noted {
    ghost equals = { λ x y. (x.number == y.number) };

    ghost reflexive = { Prim.search rules };

    ghost symmetric = { Prim.search rules };

    ghost transitive = { Prim.search rules };

    fn same(&self, other: &Noted) -> bool {
        self.number == other.number
    }
}

impl SpreadKey for Noted {
    ghost spreads = { λ x. x.number };

    fn spread(&self) -> u64 {
        self.number
    }
}

impl OrderedKey for Noted {
    ghost orders = { λ x y. nat_cmp x.number y.number };

    fn compare(&self, other: &Noted) -> Ordering {
        self.number.cmp(&other.number)
    }
}

fn add<S: Store<Noted>>(store: &mut S, number: u64, note: u8) -> u8 {
    match store.add(Noted { number, note }) {
        Ok(()) => 0,
        Err(why) => why.number(),
    }
}

// Goes through a store with three nodes.
fn go_through<S: Store<Noted>>(rt: &impl Abort, store: &mut S) {
    assert_eq!(rt; store.capacity(), 3);
    assert_eq!(rt; add(store, 5, 1), 0);
    assert_eq!(rt; add(store, 2, 1), 0);
    assert_eq!(rt; add(store, 5, 2), 0);
    assert_eq!(rt; store.count(&Noted { number: 5, note: 3 }), 2);
    assert_eq!(rt; add(store, 8, 1), 0);
    assert_eq!(rt; add(store, 11, 1), 24);
    assert_eq!(rt;
        store.count(&Noted {
            number: 11,
            note: 1,
        }),
        0
    );
    for note in 0..253 {
        assert_eq!(rt; add(store, 5, note), 0);
    }
    assert_eq!(rt; add(store, 5, 0), 25);
    assert_eq!(rt; store.count(&Noted { number: 5, note: 0 }), 255);
    store.clear();
    assert_eq!(rt; store.count(&Noted { number: 5, note: 0 }), 0);
    assert_eq!(rt; add(store, 11, 1), 0);
    assert_eq!(rt;
        store.count(&Noted {
            number: 11,
            note: 0,
        }),
        1
    );
}

// A key that is added to an empty table with a node is counted once, whatever its note.
fn once(nodes: &mut [Slot<Noted>], number: u64) -> u8
    ensures { 0 < length nodes.old → result ≡ 1 }
{
    let mut store = Table::new(nodes);
    let _ = store.add(Noted { number, note: 1 });
    store.count(&Noted { number, note: 2 })
}

#[test]
fn table(rt: HostRuntime) {
    let old = Held {
        entry: Entry {
            key: Noted {
                number: 11,
                note: 0,
            },
            count: 7,
        },
        generation: 0,
    };
    let mut nodes: [Slot<Noted>; 3] = [None, Some(old), None];
    go_through(&rt, &mut Table::new(&mut nodes));
}

// A free node with links that were left in it.
fn stale() -> Node<Noted> {
    Node {
        entry: None,
        left: Some(0),
        right: Some(0),
    }
}

#[test]
fn tree(rt: HostRuntime) {
    let old = Node {
        entry: Some(Entry {
            key: Noted {
                number: 11,
                note: 0,
            },
            count: 7,
        }),
        left: Some(0),
        right: Some(1),
    };
    let mut nodes: [Node<Noted>; 3] = [stale(), old, stale()];
    go_through(&rt, &mut Tree::new(&mut nodes));
}

#[test]
fn no_nodes(rt: HostRuntime) {
    let mut slots: [Slot<Noted>; 0] = [];
    assert_eq!(rt; add(&mut Table::new(&mut slots), 5, 1), 24);
    let mut nodes: [Node<Noted>; 0] = [];
    assert_eq!(rt; add(&mut Tree::new(&mut nodes), 5, 1), 24);
}

#[test]
fn lent(rt: HostRuntime) -> Result<(), AllocError> {
    let mut slots = nodes::<Slot<Noted>>(rt.alloc(), 3)?;
    assert_eq!(rt; slots.len(), 3);
    go_through(&rt, &mut Table::new(&mut slots));
    let mut nodes = nodes::<Node<Noted>>(rt.alloc(), 3)?;
    assert_eq!(rt; nodes.len(), 3);
    go_through(&rt, &mut Tree::new(&mut nodes));
    Ok(())
}

#[test]
fn names(rt: HostRuntime) -> Result<(), AllocError> {
    let text = format!(in rt.alloc(); "{} {}", Refused::Full, Refused::Saturated)?;
    assert_eq!(rt; text.as_str(), "full saturated");
    Ok(())
}
