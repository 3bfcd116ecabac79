//! A watcher that tells others.

use crate::notation::assert_line;
use std::alloc::{AllocError, Global};
use std::cell::Cell;
use std::fmt::Write;
use std::process::Abort;
use std::rc::Rc;
use swreq_complete::watch::{Event, Fan, Watch};
use swreq_samples::{counts, tally_at};

/// Takes the watcher as the last one.
fn add_watcher(fan: &mut Fan, watcher: Box<dyn Watch>) -> Result<(), AllocError> {
    if fan.len() == u32::MAX {
        return Err(AllocError);
    }
    fan.push(watcher).map_err(|_| AllocError)
}

/// Three watchers that count into these cells, of which the second has memory for two events.
fn fan_of(alloc: Global, counts: &[Rc<Cell<u32>>; 3]) -> Result<Fan, AllocError> {
    let mut fan = Fan::new(alloc);
    for place in 0..3 {
        add_watcher(&mut fan, Box::new(alloc, tally_at(counts, place)?)?)?;
    }
    Ok(fan)
}

/// Whether the fan tells two events, and no third.
fn tells_two(fan: &mut Fan) -> bool {
    let event = Event::Start { base: 0 };
    let told = fan.tell(&event).is_ok() && fan.tell(&event).is_ok();
    told && fan.tell(&event).is_err()
}

/// How many events each of them counted, and how many owners each of the cells has.
fn put_counts(out: &mut String, counts: &[Rc<Cell<u32>>; 3]) -> Result<(), AllocError> {
    for count in counts {
        write!(out, " {} of {}", count.get(), Rc::strong_count(count))?;
    }
    out.push(';')
}

/// The counts of the fan, and those after its last member and then all are dropped.
fn put_dropped(
    rt: &impl Abort,
    mut fan: Fan,
    counts: &[Rc<Cell<u32>>; 3],
    out: &mut String,
) -> Result<(), AllocError> {
    put_counts(out, counts)?;
    assert!(rt; fan.drop_last());
    put_counts(out, counts)?;
    drop(fan);
    put_counts(out, counts)
}

/// The counts of a fan that is told two events, and of which the members are dropped.
fn put_fan(
    rt: &impl Abort,
    alloc: Global,
    counts: &[Rc<Cell<u32>>; 3],
    out: &mut String,
) -> Result<(), AllocError> {
    let mut fan = fan_of(alloc, counts)?;
    assert!(rt; tells_two(&mut fan));
    put_dropped(rt, fan, counts, out)
}

const COUNTED: &str = " 3 of 2 2 of 2 2 of 2; 3 of 2 2 of 2 2 of 1; 3 of 1 2 of 1 2 of 1;";

#[test]
fn a_fan_tells_its_members_in_order_and_drops_them_from_the_last_on(
    rt: HostRuntime,
) -> Result<(), AllocError> {
    let counts = counts(rt.alloc())?;
    let mut out = String::new(rt.alloc());
    put_fan(&rt, rt.alloc(), &counts, &mut out)?;
    assert_line(&rt, &out, COUNTED);
    Ok(())
}
