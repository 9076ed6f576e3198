use crate::Answer;
use history::{Entry, Id};
use orders::Parent;
use std::test::Fail;

fn id(n: u32) -> Id {
    Id::from_words([0, 0, 0, 0, n])
}

fn entry_id(entry: Entry) -> Id {
    entry.id
}

fn is_told(answer: Answer) -> bool {
    matches!(answer, Answer::Commit(Some(_)))
}

fn is_named(parent: Parent) -> bool {
    matches!(parent, Parent::Named(_))
}

fn first(pair: (Id, usize)) -> Id {
    pair.0
}

// What holds an id is copied where it is passed by value, so it can be passed again.
#[test]
fn answers_are_copied_in_passing(rt: HostRuntime) -> Result<(), Fail> {
    let entry = Entry {
        id: id(18),
        generation: None,
        date: 100,
        parents: 2,
    };
    let answer = Answer::Commit(Some(entry));
    let parent = Parent::Named(id(24));
    let pair = (id(25), 1);
    assert_eq!(rt; (entry_id(entry), entry_id(entry)), (id(18), id(18)));
    assert_eq!(rt; (is_told(answer), is_told(answer)), (true, true));
    assert_eq!(rt; (is_named(parent), is_named(parent)), (true, true));
    assert_eq!(rt; (first(pair), first(pair)), (id(25), id(25)));
    Ok(())
}
