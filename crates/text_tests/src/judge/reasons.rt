//! What the judge tells of an event that may not happen.

use super::{collected, config, done, may_be, misread, push};
use crate::actions::{get, new};
use heap_steps::{CollectorStep, Event, Record, Refusal, Reply};
use object_graph::{Finding, Given, explain};
use std::alloc::{AllocError, Global};
use std::process::Abort;
use std::test::Fail;

/// The only event of a record may not happen, and the graph gives this in its place.
fn check_reason(
    rt: &impl Abort,
    alloc: Global,
    event: Event,
    given: Given,
) -> Result<(), AllocError> {
    let mut record = Record::new(alloc, config(5));
    push(rt, &mut record, event)?;
    let refused = Finding::Refused {
        number: 1,
        event,
        given,
    };
    assert_eq!(rt; explain(alloc, &record)?, refused);
    Ok(())
}

#[test]
fn tells_what_the_graph_gives(rt: HostRuntime) -> Result<(), Fail> {
    let remark = CollectorStep::Remark;
    for (event, given) in [
        (done(new(0, 0, 0), Reply::Done), Given::Object(5)),
        (
            done(new(0, 63, 0), Reply::Refused(Refusal::Full)),
            Given::Reply(Reply::Refused(Refusal::TooBig)),
        ),
        (
            done(get(1, 0, 0), Reply::Named(None)),
            Given::Reply(Reply::Refused(Refusal::Nil)),
        ),
        (collected(remark, Reply::Done), Given::Form(remark)),
    ] {
        check_reason(&rt, rt.alloc(), event, given)?;
    }
    Ok(())
}

#[test]
fn tells_of_the_first_event(rt: HostRuntime) -> Result<(), Fail> {
    let alloc = rt.alloc();
    assert_eq!(rt; explain(alloc, &may_be(&rt, alloc)?)?, Finding::Allowed(3));
    let refused = Finding::Refused {
        number: 3,
        event: done(get(1, 0, 0), Reply::Named(Some(7))),
        given: Given::Reply(Reply::Named(None)),
    };
    assert_eq!(rt; explain(alloc, &misread(&rt, alloc)?)?, refused);
    Ok(())
}
