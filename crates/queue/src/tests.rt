use crate::{Dated, Keyed};
use ancestry::Id;
use std::test::Fail;

fn id(n: u32) -> Id {
    Id::from_words([0, 0, 0, 0, n])
}

fn key_place(entry: Keyed) -> usize {
    entry.place
}

fn date_place(entry: Dated) -> usize {
    entry.place
}

// An entry that is passed by value is copied, so it can be passed again.
#[test]
fn entries_are_copied_in_passing(rt: HostRuntime) -> Result<(), Fail> {
    let keyed = Keyed {
        generation: 7,
        date: 100,
        id: id(18),
        place: 3,
    };
    let dated = Dated {
        date: 100,
        id: id(24),
        place: 4,
    };
    assert_eq!(rt; (key_place(keyed), key_place(keyed)), (3, 3));
    assert_eq!(rt; (date_place(dated), date_place(dated)), (4, 4));
    assert_eq!(rt; keyed.id, id(18));
    assert_eq!(rt; dated.id, id(24));
    Ok(())
}
