use crate::{Addressed, Call, Event, Why, run, run_all};
use ancestry::{Id, Refusal};
use history::{NewCommit, Rows};
use revision::OwnedWorkspace;
use std::test::Fail;

fn id(n: u32) -> Id {
    Id::from_words([0, 0, 0, 0, n])
}

fn commit(n: u32, date: i64, parents: &[usize]) -> Call<'_> {
    Call::Intake(NewCommit {
        id: id(n),
        generation: None,
        date,
        parents,
    })
}

// Two stations each take over what the other has; a commit comes twice, and both questions are asked.
#[test]
fn two_stations_take_over_each_others_corrections(rt: HostRuntime) -> Result<(), Fail> {
    let mut rows = Rows::open();
    let mut space = OwnedWorkspace::for_history(rt.alloc(), &mut rows)?;
    let others = [id(2)];
    let both = [id(2), id(3)];
    let calls = [
        commit(18, 100, &[]),
        commit(24, 200, &[0]),
        commit(25, 210, &[0]),
        commit(25, 999, &[]),
        commit(1, 300, &[1, 2]),
        commit(2, 310, &[2, 1]),
        commit(3, 320, &[1]),
        Call::Count,
        Call::Find(id(25)),
        Call::Parent(4, 1),
        Call::MergeBase(id(1), &others),
        Call::Octopus(id(1), &both),
    ];
    let events = run(rt.alloc(), &mut rows, &calls, &mut space)
        .ok()
        .ok_or("memory was wanting")?;
    assert_eq!(rt; events.len(), 12);
    for event in events.iter() {
        match event {
            Event::Intake(commit, Err(refusal)) => {
                assert_eq!(rt; commit.date, 999);
                assert_eq!(rt; *refusal, Refusal::IdHeld);
            }
            Event::Intake(commit, Ok(_)) => assert_ne!(rt; commit.date, 999),
            Event::Count(n) => assert_eq!(rt; *n, 6),
            Event::Find(_, place) => assert_eq!(rt; *place, Some(2)),
            Event::Parent(_, _, place) => assert_eq!(rt; *place, Some(1)),
            Event::MergeBase(_, _, Ok(bases)) => {
                assert_eq!(rt; bases.as_slice(), [id(25), id(24)].as_slice());
            }
            Event::Octopus(_, _, Ok(base)) => assert_eq!(rt; *base, Some(id(24))),
            _ => assert!(rt; false, "an answer of another kind"),
        }
    }
    Ok(())
}

// Calls on two histories come in turn; the last is addressed to none, and ends the run.
#[test]
fn calls_on_one_history_leave_the_other(rt: HostRuntime) -> Result<(), Fail> {
    let mut histories = [Rows::open(), Rows::open()];
    let mut space = OwnedWorkspace::for_count(rt.alloc(), 512)?;
    let calls = [
        Addressed {
            to: 0,
            call: commit(18, 100, &[]),
        },
        Addressed {
            to: 1,
            call: Call::Count,
        },
        Addressed {
            to: 1,
            call: commit(18, 200, &[]),
        },
        Addressed {
            to: 2,
            call: Call::Count,
        },
    ];
    let halted = run_all(rt.alloc(), &mut histories, &calls, &mut space)
        .err()
        .ok_or("a call to no history was made")?;
    assert_eq!(rt; halted.why, Why::NoSuchHistory);
    assert_eq!(rt; halted.events.len(), 3);
    for noted in halted.events.iter() {
        match &noted.event {
            Event::Intake(_, answer) => assert_eq!(rt; *answer, Ok(0)),
            Event::Count(n) => assert_eq!(rt; *n, 0),
            _ => assert!(rt; false, "an answer of another kind"),
        }
    }
    Ok(())
}
