use crate::{Rising, Stirred};
use kn_io::NoMemory;
use std::alloc::Global;
use std::test::Fail;

#[derive(Drop)]
struct Word {
    letter: u8,
}

/// The letter of a number, or 0.
fn letter(words: &Rising<Word>, number: u64) -> u8 {
    match words.get(number) {
        Some(word) => word.letter,
        None => 0,
    }
}

/// Inserts, changes and removes.
fn words(alloc: Global) -> Result<Rising<Word>, NoMemory> {
    let mut words = Rising::new(alloc);
    words.insert(5, Word { letter: b'e' })?;
    words.insert(9, Word { letter: b'x' })?;
    words.insert(2, Word { letter: b'b' })?;
    words.insert(7, Word { letter: b'g' })?;
    words.insert(9, Word { letter: b'i' })?;
    words.remove(5);
    words.remove(6);
    if let Some(word) = words.get_mut(2) {
        word.letter = b'B';
    }
    Ok(words)
}

#[test]
fn members_by_number(rt: HostRuntime) -> Result<(), Fail> {
    let words = words(rt.alloc())?;
    assert_eq!(rt; words.numbers(), [2, 7, 9].as_slice());
    assert_eq!(rt; words.len(), 3);
    assert_eq!(rt; words.items().len(), 3);
    let found = [
        letter(&words, 1),
        letter(&words, 2),
        letter(&words, 5),
        letter(&words, 7),
        letter(&words, 9),
    ];
    assert_eq!(rt; found, [0, b'B', 0, b'g', b'i']);
    words.holds();
    Ok(())
}

#[test]
fn the_newest_comes_first(rt: HostRuntime) -> Result<(), Fail> {
    let mut stirred = Stirred::new(rt.alloc());
    stirred.add(3)?;
    stirred.add(8)?;
    stirred.add(3)?;
    let taken = [stirred.pop(), stirred.pop(), stirred.pop(), stirred.pop()];
    assert_eq!(rt; taken, [Some(3), Some(8), Some(3), None]);
    Ok(())
}
