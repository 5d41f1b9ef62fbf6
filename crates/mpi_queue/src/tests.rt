use crate::{Posting, Queue, matching_laws};
use std::process::Abort;

const ANY: i32 = -1;

fn send(comm: u32, rank: u32, to: i32, tag: i32) -> Posting {
    Posting {
        task: rank,
        comm,
        send: true,
        rank,
        peer: to,
        tag,
    }
}

fn recv(comm: u32, rank: u32, from: i32, tag: i32) -> Posting {
    Posting {
        task: rank,
        comm,
        send: false,
        rank,
        peer: from,
        tag,
    }
}

/// Makes the postings one after another on a new queue, and compares each with its number and its partner.
fn posts<R: AllocGlobal + Abort>(rt: &R, steps: &[(Posting, Option<u32>)]) {
    let mut queue = Queue::new(rt.alloc());
    let mut number = 0u32;
    for (posting, partner) in steps {
        number = number.saturating_add(1);
        assert_eq!(rt; queue.next_number(), number);
        assert_eq!(rt; queue.peek(posting), *partner, "peek of posting {number}");
        assert!(rt; queue.next_number() < 1000);
        assert_eq!(rt;
            queue.post(*posting),
            Ok((number, *partner)),
            "posting {number}"
        );
    }
    matching_laws();
}

#[test]
fn postings_meet_in_the_order_of_their_making(rt: HostRuntime) {
    posts(
        &rt,
        &[
            (recv(1, 2, ANY, 0), None),
            (recv(1, 2, 0, 0), None),
            (send(1, 0, 2, 0), Some(1)),
            (send(1, 1, 2, 0), None),
            (recv(1, 2, 1, ANY), Some(4)),
            (send(1, 0, 2, 0), Some(2)),
        ],
    );
}

#[test]
fn wildcards_take_any_source_or_tag(rt: HostRuntime) {
    // A wildcard in the source, in the tag, and in both.
    posts(
        &rt,
        &[
            (send(1, 3, 2, 5), None),
            (recv(1, 2, ANY, 4), None),
            (recv(1, 2, ANY, 5), Some(1)),
            (send(1, 0, 2, 9), None),
            (recv(1, 2, 1, ANY), None),
            (recv(1, 2, 0, ANY), Some(4)),
            (send(1, 0, 2, 8), None),
            (send(1, 3, 2, 7), None),
            (recv(1, 2, ANY, ANY), Some(7)),
            (recv(1, 2, ANY, ANY), Some(8)),
            (recv(1, 2, ANY, ANY), None),
            (send(1, 5, 2, 6), Some(11)),
        ],
    );
}

#[test]
fn two_that_fit_are_taken_in_order(rt: HostRuntime) {
    // A receive that fits two sends, and a send that fits two receives.
    posts(
        &rt,
        &[
            (send(1, 0, 2, 0), None),
            (send(1, 0, 2, 0), None),
            (recv(1, 2, 0, 0), Some(1)),
            (recv(1, 2, 0, 0), Some(2)),
            (recv(1, 2, 0, 0), None),
            (recv(1, 2, ANY, ANY), None),
            (send(1, 0, 2, 0), Some(5)),
            (send(1, 0, 2, 0), Some(6)),
            (send(1, 0, 2, 0), None),
        ],
    );
}

#[test]
fn what_does_not_fit_waits(rt: HostRuntime) {
    // Two communicators, another receiver, another sender, and two of one kind.
    posts(
        &rt,
        &[
            (send(2, 0, 2, 0), None),
            (recv(1, 2, 0, 0), None),
            (send(1, 0, 2, 0), Some(2)),
            (recv(2, 2, 0, 0), Some(1)),
            (send(1, 0, 1, 0), None),
            (recv(1, 2, 0, 0), None),
            (send(1, 1, 2, 0), None),
            (recv(1, 1, 0, 0), Some(5)),
            (send(1, 0, 2, 0), Some(6)),
            (send(1, 2, 2, 0), None),
            (send(1, 2, 2, 0), None),
            (recv(1, 2, 2, 0), Some(10)),
        ],
    );
}
