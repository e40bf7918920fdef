use chunked_list::ChunkedList;
use std::alloc::{AllocError, Global};
use std::test::Fail;

/// An edit at an index or at two.
#[derive(Clone, Copy)]
enum Edit {
    Insert(usize),
    Remove(usize),
    Set(usize),
    Move(usize, usize),
}

/// Edits at the ends of a list and at the ends of its chunks.
const EDITS: &[Edit] = &[
    Edit::Insert(0),
    Edit::Insert(1023),
    Edit::Insert(1024),
    Edit::Insert(2048),
    Edit::Remove(1024),
    Edit::Remove(0),
    Edit::Set(1024),
    Edit::Move(0, 1024),
    Edit::Move(1024, 0),
    Edit::Move(5, 2048),
    Edit::Move(2048, 1023),
    Edit::Move(3, 900),
    Edit::Remove(2047),
    Edit::Insert(1),
];

/// Makes an edit of a list and of a plain vector, if both have the indexes.
fn edit_both(
    list: &mut ChunkedList<u32>,
    plain: &mut Vec<u32>,
    edit: Edit,
    x: u32,
) -> Result<(), AllocError> {
    let len = list.len().min(plain.len());
    match edit {
        Edit::Insert(at) if at <= len => {
            list.insert(at, x)?;
            plain.insert(at, x)?;
        }
        Edit::Remove(at) if at < len => {
            list.remove(at);
            plain.remove(at);
        }
        Edit::Set(at) if at < len => {
            list.set(at, x);
            plain[at] = x;
        }
        Edit::Move(from, to) if from < len && to < len => {
            list.move_to(from, to);
            let moved = plain.remove(from);
            plain.insert(to, moved)?;
        }
        _ => {}
    }
    Ok(())
}

/// Whether a list has the elements of a plain vector.
fn same(list: &ChunkedList<u32>, plain: &Vec<u32>) -> bool {
    list.len() == plain.len() && plain.iter().enumerate().all(|(i, x)| list.get(i) == x)
}

/// Lists that end before, at and after the end of a chunk.
const LENGTHS: [u32; 8] = [0, 1, 1023, 1024, 1025, 2047, 2048, 2049];

/// Whether each edit of a list of this length, and then a cut to one chunk, leaves the elements that
/// a plain vector has.
fn edits_as_plain(alloc: Global, len: u32) -> Result<bool, AllocError> {
    let mut list = ChunkedList::new(alloc);
    let mut plain = Vec::new(alloc);
    for x in 0..len {
        list.push(x)?;
        plain.push(x)?;
    }
    for (i, edit) in EDITS.iter().enumerate() {
        edit_both(&mut list, &mut plain, *edit, 9000 + i as u32)?;
        if !same(&list, &plain) {
            return Ok(false);
        }
    }
    list.truncate(1024);
    plain.truncate(1024);
    Ok(same(&list, &plain))
}

#[test]
fn edits_as_of_a_plain_vector(rt: HostRuntime) -> Result<(), Fail> {
    for len in LENGTHS {
        assert!(rt; edits_as_plain(rt.alloc(), len)?, "{len}");
    }
    Ok(())
}
