//! The laws, called once, and requests from their start to their end.

use crate::{
    Requests, Started, completed_requests_are_active_no_more, kept_requests_stand_for_requests,
    messages_are_whole_or_refused, requests_are_ready_by_their_postings,
};
use block_table::Span;
use mpc_values::{Fault, Memory, Status, Word};
use std::process::Abort;
use std::test::*;

#[test]
fn laws_are_called(_rt: HostRuntime) -> Result<(), Fail> {
    messages_are_whole_or_refused();
    requests_are_ready_by_their_postings();
    completed_requests_are_active_no_more();
    kept_requests_stand_for_requests();
    Ok(())
}

const EMPTY: Status = Status {
    source: -1,
    tag: -1,
    count: 0,
};

/// The status of a receive from MPI_PROC_NULL.
const NOBODY: Status = Status {
    source: -2,
    tag: -1,
    count: 0,
};

/// Three words of rank 4 with tag 9.
const THREE: Status = Status {
    source: 4,
    tag: 9,
    count: 3,
};

const SPAN: Span = Span {
    key: 6,
    at: 2,
    len: 3,
};

const OTHER: Span = Span {
    key: 5,
    at: 0,
    len: 8,
};

fn send(post: u32, eager: bool) -> Started {
    Started::Send {
        post,
        span: Some(SPAN),
        eager,
    }
}

fn recv(post: u32) -> Started {
    Started::Recv {
        post,
        span: Some(OTHER),
    }
}

/// Starts a request, which gets this number.
fn starts<R: AllocGlobal + Abort>(
    rt: &R,
    requests: &mut Requests,
    task: u32,
    what: Started,
    number: u32,
) {
    assert!(rt; (task as usize) < requests.tasks());
    assert!(rt; requests.next_number(task) < 1000);
    assert_eq!(rt; requests.start(task, what), Ok(number));
}

/// What the task is told of its requests 0, 1, 2, .. .
fn are_ready<R: AllocGlobal + Abort>(
    rt: &R,
    requests: &Requests,
    task: u32,
    expected: &[Option<bool>],
) {
    assert!(rt; (task as usize) < requests.tasks());
    let mut number = 0u32;
    for ready in expected {
        assert_eq!(rt; requests.ready(task, number), *ready, "request {number}");
        number = number.saturating_add(1);
    }
}

fn finishes<R: AllocGlobal + Abort>(
    rt: &R,
    requests: &mut Requests,
    task: u32,
    number: u32,
    told: Result<Status, Fault>,
    span: Option<Span>,
) {
    assert!(rt; (task as usize) < requests.tasks());
    assert_eq!(rt; requests.ready(task, number), Some(true));
    assert_eq!(rt; requests.finish(task, number), (told, span));
    assert!(rt; (task as usize) < requests.tasks());
    assert_eq!(rt; requests.ready(task, number), None);
}

fn has_active<R: AllocGlobal + Abort>(rt: &R, requests: &Requests, task: u32, count: u32) {
    assert!(rt; (task as usize) < requests.tasks());
    assert_eq!(rt; requests.active_of(task), count);
}

fn first_ready<R: AllocGlobal + Abort>(
    rt: &R,
    requests: &Requests,
    words: &[Word],
    index: Option<usize>,
) {
    assert!(rt; 0 < requests.tasks());
    assert_eq!(rt; requests.any_ready(0, words), index);
}

#[test]
fn requests_end_once_they_are_ready(rt: HostRuntime) -> Result<(), Memory> {
    let mut requests = Requests::new(rt.alloc(), 2)?;
    starts(&rt, &mut requests, 0, send(1, false), 1);
    starts(&rt, &mut requests, 0, recv(2), 2);
    starts(&rt, &mut requests, 1, send(3, true), 1);
    starts(&rt, &mut requests, 0, Started::AtOnce(NOBODY), 3);
    let before = [None, Some(false), Some(false), Some(true), None];
    are_ready(&rt, &requests, 0, &before);
    are_ready(&rt, &requests, 1, &[None, Some(true), None]);
    let words = [
        Word::Undef,
        Word::Req(0),
        Word::Req(1),
        Word::Req(3),
        Word::Req(2),
    ];
    first_ready(&rt, &requests, &words[..3], None);
    first_ready(&rt, &requests, &words, Some(3));
    requests.matched(2, Ok(THREE));
    requests.matched(1, Ok(EMPTY));
    requests.matched(9, Ok(THREE));
    first_ready(&rt, &requests, &words, Some(2));
    finishes(&rt, &mut requests, 0, 2, Ok(THREE), Some(OTHER));
    has_active(&rt, &requests, 0, 2);
    finishes(&rt, &mut requests, 0, 1, Ok(EMPTY), Some(SPAN));
    finishes(&rt, &mut requests, 0, 3, Ok(NOBODY), None);
    finishes(&rt, &mut requests, 1, 1, Ok(EMPTY), Some(SPAN));
    has_active(&rt, &requests, 0, 0);
    first_ready(&rt, &requests, &words, None);
    starts(&rt, &mut requests, 0, send(4, false), 4);
    Ok(())
}

#[test]
fn a_receive_ends_with_the_fault_of_its_message(rt: HostRuntime) -> Result<(), Memory> {
    let mut requests = Requests::new(rt.alloc(), 1)?;
    starts(&rt, &mut requests, 0, recv(1), 1);
    starts(&rt, &mut requests, 0, recv(2), 2);
    requests.matched(2, Err(Fault::Truncate));
    requests.matched(1, Err(Fault::Mistyped));
    finishes(&rt, &mut requests, 0, 2, Err(Fault::Truncate), Some(OTHER));
    finishes(&rt, &mut requests, 0, 1, Err(Fault::Mistyped), Some(OTHER));
    Ok(())
}

#[test]
fn a_start_that_is_taken_back_leaves_nothing(rt: HostRuntime) -> Result<(), Memory> {
    let mut requests = Requests::new(rt.alloc(), 1)?;
    starts(&rt, &mut requests, 0, recv(1), 1);
    starts(&rt, &mut requests, 0, recv(2), 2);
    assert!(rt; 0 < requests.tasks());
    assert_eq!(rt; requests.next_number(0), 3);
    requests.take_back(0, 2);
    are_ready(&rt, &requests, 0, &[None, Some(false), None]);
    has_active(&rt, &requests, 0, 1);
    requests.matched(2, Ok(THREE));
    starts(&rt, &mut requests, 0, send(2, false), 2);
    requests.matched(2, Ok(EMPTY));
    finishes(&rt, &mut requests, 0, 2, Ok(EMPTY), Some(SPAN));
    Ok(())
}
