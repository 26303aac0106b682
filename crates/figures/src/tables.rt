// Tables: their refusals, their steps, walks over them, and what is told of them.
use model::{Model, ModelFault, WalkFault, walk};
use std::alloc::{AllocError, Global};
use std::test::Fail;
use table::listing::listing;
use table::{Record, Table, TableFault};

// A record as state, setting, next state and mark: the words of a file, which is made of them without the library.
type Words = [u16; 4];

const POND: [Words; 4] = [
    [0, 0, 0, 200],
    [0, 1, 1, 0],
    [1, 0, 1, 1000],
    [1, 1, 0, 300],
];

// The bytes of a file with these records.
pub(crate) fn file_of(heap: Global, records: &[Words]) -> Result<Vec<u8>, AllocError> {
    let mut bytes = Vec::new(heap);
    for words in records {
        for word in words {
            bytes.extend_from_slice(&word.to_le_bytes())?;
        }
    }
    Ok(bytes)
}

fn pond(heap: Global) -> Result<Table, Fail> {
    Ok(Table::read(file_of(heap, &POND)?)?)
}

// The number and the value of the refusal of a file with these records, if it is refused.
fn refusal(heap: Global, records: &[Words]) -> Result<Option<(u8, usize)>, AllocError> {
    let read = Table::read(file_of(heap, records)?);
    Ok(read.err().map(|fault| (fault.number(), fault.value())))
}

// The same for a table of one state and this many settings, all in order.
fn one_state_refusal(heap: Global, settings: u16) -> Result<Option<(u8, usize)>, AllocError> {
    let records: Vec<Words> = (0..settings)
        .map(|setting| [0, setting, 0, 0])
        .collect(heap)?;
    refusal(heap, records.as_slice())
}

// What is told of a file of n zero bytes.
fn told_zeros(heap: Global, n: usize) -> Result<String, AllocError> {
    listing(heap, vec![in heap; 0u8; n]?)
}

#[test]
fn the_pond_steps_as_it_says(rt: HostRuntime) -> Result<(), Fail> {
    let pond = pond(rt.alloc())?;
    assert_eq!(rt; pond.states(), 2);
    assert_eq!(rt; pond.settings(), 2);
    assert_eq!(rt; pond.record_count(), 4);
    assert_eq!(rt; pond.step(0, 0), Ok((200, 0)));
    assert_eq!(rt; pond.step(0, 1), Ok((0, 1)));
    assert_eq!(rt; pond.step(1, 0), Ok((1000, 1)));
    assert_eq!(rt; pond.step(1, 1), Ok((300, 0)));
    assert_eq!(rt;
        pond.step(2, 2),
        Err(ModelFault::UnknownState { layers: 0 })
    );
    assert_eq!(rt;
        pond.step(1, 2),
        Err(ModelFault::UnknownSetting { layers: 0 })
    );
    Ok(())
}

#[test]
fn the_pond_knows_two_states(rt: HostRuntime) -> Result<(), Fail> {
    let pond = pond(rt.alloc())?;
    assert!(rt; pond.knows(1));
    assert!(rt; !pond.knows(2));
    assert!(rt; pond.same(1, 1));
    assert!(rt; !pond.same(0, 1));
    assert_eq!(rt;
        pond.record(3),
        Some(Record {
            state: 1,
            setting: 1,
            next: 0,
            mark: 300,
        })
    );
    assert_eq!(rt; pond.record(4), None);
    Ok(())
}

#[test]
fn a_walk_ends_or_tells_its_place(rt: HostRuntime) -> Result<(), Fail> {
    let pond = pond(rt.alloc())?;
    assert_eq!(rt; walk(&pond, 0, &[]), Ok(0));
    assert_eq!(rt; walk(&pond, 0, &[1, 0, 0]), Ok(1));
    let fault = ModelFault::UnknownSetting { layers: 0 };
    assert_eq!(rt;
        walk(&pond, 0, &[1, 0, 2, 3]),
        Err(WalkFault { fault, place: 2 })
    );
    let fault = ModelFault::UnknownState { layers: 0 };
    assert_eq!(rt; walk(&pond, 7, &[1, 0]), Err(WalkFault { fault, place: 0 }));
    Ok(())
}

#[test]
fn files_are_refused_by_3_and_4(rt: HostRuntime) -> Result<(), Fail> {
    assert_eq!(rt; refusal(rt.alloc(), &[])?, Some((3, 0)));
    // one state with 16 settings is accepted; with 17 the count is N × K and only the last setting is wrong
    assert_eq!(rt; one_state_refusal(rt.alloc(), 16)?, None);
    assert_eq!(rt; one_state_refusal(rt.alloc(), 17)?, Some((4, 16)));
    // 2 states and 2 settings, but 3 records
    assert_eq!(rt;
        refusal(rt.alloc(), &[[0, 0, 0, 0], [0, 1, 0, 0], [1, 1, 0, 0]])?,
        Some((4, 2))
    );
    Ok(())
}

#[test]
fn records_are_refused_by_5_6_and_7(rt: HostRuntime) -> Result<(), Fail> {
    assert_eq!(rt;
        refusal(
            rt.alloc(),
            &[[0, 0, 0, 0], [0, 0, 0, 0], [1, 0, 0, 0], [1, 1, 0, 0]],
        )?,
        Some((5, 1))
    );
    assert_eq!(rt;
        refusal(rt.alloc(), &[[0, 0, 1, 1000], [0, 1, 2, 1001]])?,
        Some((6, 0))
    );
    assert_eq!(rt;
        refusal(rt.alloc(), &[[0, 0, 0, 1000], [0, 1, 1, 1001]])?,
        Some((6, 1))
    );
    assert_eq!(rt;
        refusal(rt.alloc(), &[[0, 0, 0, 1001], [0, 1, 1, 0]])?,
        Some((7, 0))
    );
    assert_eq!(rt;
        refusal(rt.alloc(), &[[0, 0, 0, 1000], [0, 1, 0, 1001]])?,
        Some((7, 1))
    );
    assert_eq!(rt;
        refusal(rt.alloc(), &[[0, 0, 0, 1000], [0, 1, 0, 1000]])?,
        None
    );
    Ok(())
}

#[test]
fn refusals_of_files_have_their_numbers(rt: HostRuntime) {
    assert_eq!(rt; TableFault::BadLength { length: 7 }.number(), 3);
    assert_eq!(rt; TableFault::BadCount { record: 1 }.number(), 4);
    assert_eq!(rt; TableFault::OutOfOrder { record: 1 }.number(), 5);
    assert_eq!(rt; TableFault::UnknownNext { record: 1 }.number(), 6);
    assert_eq!(rt; TableFault::HighMark { record: 9 }.number(), 7);
    assert_eq!(rt; TableFault::HighMark { record: 9 }.value(), 9);
}

#[test]
fn the_pond_is_told_record_by_record(rt: HostRuntime) -> Result<(), Fail> {
    let text = listing(rt.alloc(), file_of(rt.alloc(), &POND)?)?;
    assert_eq!(rt;
        text.as_str(),
        "states 2 settings 2\nstate 0 setting 0 next 0 mark 200\nstate 0 setting 1 next 1 mark 0\nstate 1 setting 0 next 1 mark 1000\nstate 1 setting 1 next 0 mark 300\n"
    );
    Ok(())
}

#[test]
fn bad_files_are_told_by_their_refusal(rt: HostRuntime) -> Result<(), Fail> {
    assert_eq!(rt; told_zeros(rt.alloc(), 0)?.as_str(), "refused 3 at 0\n");
    assert_eq!(rt; told_zeros(rt.alloc(), 7)?.as_str(), "refused 3 at 7\n");
    // 8,192 records of state 0 and setting 0: N and K are 1
    assert_eq!(rt;
        told_zeros(rt.alloc(), 65_536)?.as_str(),
        "refused 4 at 8191\n"
    );
    assert_eq!(rt;
        told_zeros(rt.alloc(), 65_537)?.as_str(),
        "refused 3 at 65537\n"
    );
    assert_eq!(rt;
        told_zeros(rt.alloc(), 65_544)?.as_str(),
        "refused 3 at 65537\n"
    );
    let unordered = file_of(
        rt.alloc(),
        &[[0, 0, 0, 0], [0, 0, 0, 0], [1, 0, 0, 0], [1, 1, 0, 0]],
    )?;
    assert_eq!(rt;
        listing(rt.alloc(), unordered)?.as_str(),
        "refused 5 at 1\n"
    );
    Ok(())
}
