//! Small graphs, whose cycles were found by hand, and large ones.
use crate::on_cycles;
use oxml_base::{Items, NoMemory};
use std::alloc::Global;
use std::test::Fail;

/// The graph of these edges among so many nodes.
fn graph(alloc: Global, count: u32, edges: &[(u32, u32)]) -> Result<Items<Items<u32>>, NoMemory> {
    let mut list = Items::new(alloc);
    for node in 0..count {
        let mut successors = Items::new(alloc);
        for (from, to) in edges {
            if *from == node {
                successors.push(*to)?;
            }
        }
        list.push(successors)?;
    }
    Ok(list)
}

/// The digit 1 for each node that lies on a cycle, and 0 for the others.
fn digits(alloc: Global, count: u32, edges: &[(u32, u32)]) -> Result<Vec<u8>, NoMemory> {
    let list = graph(alloc, count, edges)?;
    let mut digits = Vec::new(alloc);
    for marked in on_cycles(alloc, list.as_slice())?.as_slice() {
        digits.push(if *marked { b'1' } else { b'0' })?;
    }
    Ok(digits)
}

#[test]
fn small(rt: HostRuntime) -> Result<(), Fail> {
    let alloc = rt.alloc();
    // A ring of two, from which a third node is reached.
    assert_eq!(rt;
        digits(alloc, 3, &[(0, 1), (1, 0), (1, 2)])?.as_slice(),
        b"110".as_slice()
    );
    // An edge to itself; an edge to no node.
    assert_eq!(rt;
        digits(alloc, 3, &[(0, 1), (1, 1), (2, 9)])?.as_slice(),
        b"010".as_slice()
    );
    // A node between two rings is on none.
    let between = [(0, 1), (1, 0), (1, 2), (2, 3), (3, 4), (4, 3)];
    assert_eq!(rt; digits(alloc, 5, &between)?.as_slice(), b"11011".as_slice());
    // Two rings that share a node, met from outside, and a second way that leads to a complete group.
    let shared = [
        (0, 2),
        (2, 1),
        (1, 2),
        (2, 3),
        (3, 4),
        (4, 2),
        (5, 3),
        (0, 5),
    ];
    assert_eq!(rt; digits(alloc, 6, &shared)?.as_slice(), b"011110".as_slice());
    assert_eq!(rt; digits(alloc, 0, &[])?.as_slice(), b"".as_slice());
    Ok(())
}

/// A chain of nodes, the last of which leads to this node.
fn chain(alloc: Global, count: u32, last: u32) -> Result<Items<Items<u32>>, NoMemory> {
    let mut list = Items::new(alloc);
    for node in 0..count {
        let next = if node + 1 < count { node + 1 } else { last };
        list.push(Items::from_slice(alloc, &[next])?)?;
    }
    Ok(list)
}

#[test]
fn long_chain(rt: HostRuntime) -> Result<(), Fail> {
    let alloc = rt.alloc();
    let list = chain(alloc, 50_000, 40_000)?;
    let marked = on_cycles(alloc, list.as_slice())?;
    assert_eq!(rt; marked.get(39_999).copied(), Some(false));
    assert_eq!(rt; marked.get(40_000).copied(), Some(true));
    assert_eq!(rt; marked.get(49_999).copied(), Some(true));
    Ok(())
}
