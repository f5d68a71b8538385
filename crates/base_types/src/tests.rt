use crate::{Boxed, List, Octets, Utf8, u32_from_be_bytes, zeros};
use std::test::Fail;

/// A type that holds itself through a list and a box.
#[derive(Debug, Drop, PartialEq)]
enum Tree {
    Leaf(Octets),
    Named(Utf8, Boxed<Tree>),
    Node(List<Tree>),
}

#[test]
fn octets_grow_and_compare(rt: HostRuntime) -> Result<(), Fail> {
    let alloc = rt.alloc();
    let mut bytes = Octets::new(alloc);
    assert!(rt; bytes.is_empty());
    bytes.push(7)?;
    bytes.extend(&[8, 9])?;
    assert_eq!(rt; bytes.as_slice(), [7, 8, 9].as_slice());
    assert_eq!(rt; bytes.len(), 3);
    let copy = bytes.try_clone(alloc)?;
    assert!(rt; copy == bytes);
    assert!(rt; bytes.clone()? == bytes);
    let front = Octets::from_slice(alloc, &[7, 8])?;
    assert!(rt; front < bytes);
    let longer = front.try_clone(alloc)?;
    assert!(rt; longer != bytes);
    Ok(())
}

#[test]
fn texts_come_back(rt: HostRuntime) -> Result<(), Fail> {
    let alloc = rt.alloc();
    let text = Utf8::from_str(alloc, "grüße")?;
    assert_eq!(rt; text.len(), 7);
    assert!(rt; !text.is_empty());
    assert!(rt; text.try_clone(alloc)? == text);
    assert!(rt; text.clone()? == text);
    let text = Utf8::from_string(text.into_string());
    assert_eq!(rt; text.as_str(), "grüße");
    Ok(())
}

#[test]
fn lists_hold_trees(rt: HostRuntime) -> Result<(), Fail> {
    let alloc = rt.alloc();
    let mut members = List::new(alloc);
    members.push(Tree::Leaf(Octets::from_slice(alloc, &[1])?))?;
    let name = Utf8::from_str(alloc, "a")?;
    let inner = Boxed::new(alloc, Tree::Node(List::new(alloc)))?;
    assert!(rt; *inner.get() == Tree::Node(List::new(alloc)));
    members.push(Tree::Named(name, inner))?;
    assert_eq!(rt; members.len(), 2);
    assert!(rt; !members.is_empty());
    assert!(rt; members.get(2).is_none());
    let tree = Tree::Node(members);
    assert!(rt; tree != Tree::Node(List::new(alloc)));
    Ok(())
}

#[test]
fn lists_are_taken_apart(rt: HostRuntime) -> Result<(), Fail> {
    let alloc = rt.alloc();
    let mut numbers = List::from_vec([5u64, 6, 7].to_vec(alloc)?);
    assert_eq!(rt; numbers.iter().filter(|x| **x > 5).count(), 2);
    assert!(rt; numbers.clone()? == numbers);
    assert_eq!(rt; numbers.pop(), Some(7));
    assert_eq!(rt; numbers.as_slice(), [5, 6].as_slice());
    assert_eq!(rt; numbers.into_vec().len(), 2);
    let boxed = Boxed::new(alloc, 3u64)?;
    assert!(rt; boxed.clone()? == boxed);
    assert_eq!(rt; boxed.into_inner(), 3);
    Ok(())
}

#[test]
fn faults_say_what_they_are(rt: HostRuntime) -> Result<(), Fail> {
    let alloc = rt.alloc();
    let no_memory = crate::NoMemory;
    let failed = crate::Failed;
    assert_eq!(rt;
        format!(in alloc; "{no_memory}")?.as_str(),
        "no memory is left"
    );
    assert_eq!(rt;
        format!(in alloc; "{failed}")?.as_str(),
        "the outside failed"
    );
    Ok(())
}

#[test]
fn four_bytes_are_a_number(rt: HostRuntime) -> Result<(), Fail> {
    assert_eq!(rt; u32_from_be_bytes(0, 0, 0, 0), 0);
    assert_eq!(rt; u32_from_be_bytes(0x12, 0x34, 0x56, 0x78), 0x1234_5678);
    assert_eq!(rt; u32_from_be_bytes(255, 255, 255, 255), u32::MAX);
    Ok(())
}

#[test]
fn a_buffer_of_zeros(rt: HostRuntime) -> Result<(), Fail> {
    let buffer = zeros(rt.alloc(), 3)?;
    assert_eq!(rt; buffer.as_slice(), [0, 0, 0].as_slice());
    Ok(())
}
