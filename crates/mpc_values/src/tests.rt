//! The list types, the names of faults, and the numbers and names of calls.

use crate::calls::Call;
use crate::failures::Memory;
use crate::faults::Fault;
use crate::lists::{Cores, Text, Words};
use crate::values::{Obj, Word};
use std::alloc::AllocError;
use std::test::*;

#[test]
fn lists_hold_their_items(rt: HostRuntime) -> Result<(), Fail> {
    let alloc = rt.alloc();
    let words = Words::of(vec![in alloc; Word::Int(-1), Word::Undef]?);
    assert_eq!(rt; words.as_slice(), [Word::Int(-1), Word::Undef].as_slice());
    assert_eq!(rt; words.into_vec().len(), 2);
    let text = Text::of(Vec::from_slice(alloc, b"text")?);
    assert_eq!(rt; text.as_slice(), b"text".as_slice());
    assert_eq!(rt; text.into_vec().len(), 4);
    let cores = Cores::of(vec![in alloc; 4, 0, 2]?);
    assert_eq!(rt; cores.as_slice(), [4, 0, 2].as_slice());
    assert_eq!(rt; cores.into_vec().len(), 3);
    Ok(())
}

#[test]
fn faults_have_their_names(rt: HostRuntime) {
    let named = [
        (Fault::Overflow, "Overflow"),
        (Fault::Divide, "Divide"),
        (Fault::Shift, "Shift"),
        (Fault::Uninit, "Uninit"),
        (Fault::NullAccess, "NullAccess"),
        (Fault::Bounds, "Bounds"),
        (Fault::Dangling, "Dangling"),
        (Fault::PendingTouch, "PendingTouch"),
        (Fault::PendingDrop, "PendingDrop"),
        (Fault::LeakedRequest, "LeakedRequest"),
        (Fault::CollMismatch, "CollMismatch"),
        (Fault::Depth, "Depth"),
        (Fault::Turns, "Turns"),
        (Fault::Calls, "Calls"),
        (Fault::OutputFull, "OutputFull"),
        (Fault::StackFull, "StackFull"),
    ];
    for (fault, name) in &named {
        assert_eq!(rt; fault.name(), *name);
    }
    assert_eq!(rt; Memory::from(AllocError), Memory);
}

#[test]
fn calls_have_their_numbers_and_names(rt: HostRuntime) {
    let null = Word::Null;
    let rows = [
        (Call::Load { at: null }, 1, "load"),
        (Call::New { len: 3 }, 3, "new"),
        (Call::Drop { obj: Obj::Dyn(1) }, 4, "drop"),
        (Call::Malloc { n: -1 }, 5, "malloc"),
        (Call::Free { at: null }, 6, "free"),
        (
            Call::Broke {
                fault: Fault::Turns,
            },
            8,
            "broke",
        ),
        (Call::Finish { code: 0 }, 9, "finish"),
        (Call::Init, 10, "init"),
        (
            Call::Rank {
                comm: Word::Comm(1),
            },
            13,
            "rank",
        ),
        (Call::Complete { req: Word::Req(1) }, 17, "complete"),
        (
            Call::Leave {
                comm: Word::Comm(1),
            },
            23,
            "leave",
        ),
        (Call::HlsEnter { construct: 0 }, 24, "enter"),
        (Call::HlsWait { construct: 0 }, 25, "await"),
        (Call::HlsExit { construct: 0 }, 26, "exit"),
        (Call::HlsBar { construct: 0 }, 27, "bar"),
        (Call::HlsBarWait { construct: 0 }, 28, "barwait"),
    ];
    for (call, number, name) in &rows {
        assert_eq!(rt; call.number(), *number);
        assert_eq!(rt; call.name(), *name);
    }
}
