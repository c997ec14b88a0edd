//! Calls of requests that are made by hand, with the answers that the rules ask for.

ghost use Rattle.std.specs.Prelude.{◌+◌, ◌<◌, ◌^◌, ◌∷◌, []};
ghost use Rattle.disk_calls.specs.Calls.{AreWithin};

use blk::{DiskCall, Kind, Request, Verdict, What};
use chains::Segs;
use disk_calls::{Asks, Calls, Handed, asker};
use std::alloc::Global;
use std::test::Fail;

/// A machine of two devices with these requests.
#[derive(Drop)]
struct Two {
    first: Vec<Request>,
    second: Vec<Request>,
    ghost within: { AreWithin first.items },
    ghost within_too: { AreWithin second.items },
}

impl Asks for Two {
    ghost asked = { λ m. m.first.items ∷ m.second.items ∷ [] };

    fn devices(&self) -> usize {
        2
    }

    fn requests(&self, dev: usize) -> &[Request] {
        if dev == 0 {
            self.first.as_slice()
        } else {
            self.second.as_slice()
        }
    }
}

fn request(alloc: Global, kind: Kind, first: u32, units: u32) -> Request
    ensures { result.first + result.units < 2 ^ 64 }
{
    Request {
        id: 0,
        slots: 1,
        kind,
        verdict: Verdict::Good,
        first: first as u64,
        units,
        done: 0,
        readable: Segs::new(alloc),
        writable: Segs::new(alloc),
    }
}

fn call(what: What, first: u64, count: u32) -> DiskCall {
    DiskCall { what, first, count }
}

#[test]
fn calls_are_handed_out_by_the_rule(rt: HostRuntime) -> Result<(), Fail> {
    let first = vec![in rt.alloc();
        request(rt.alloc(), Kind::Out, 0, 8),
        request(rt.alloc(), Kind::In, 4, 8),
        request(rt.alloc(), Kind::Flush, 0, 1),
        request(rt.alloc(), Kind::In, 16, 4),
        request(rt.alloc(), Kind::Flush, 0, 1),
    ]?;
    let second = vec![in rt.alloc(); request(rt.alloc(), Kind::Zero, 5, 100)]?;
    let machine = Two { first, second };
    let mut calls = Calls::new(rt.alloc(), 2, 1)?;
    let mut seen = Vec::new(rt.alloc());
    for _turn in 0..5 {
        if let Some(handed) = calls.next(&machine, 6) {
            seen.push(handed)?;
        }
    }
    assert_eq!(&rt; seen.len(), 4);
    assert_eq!(&rt;
        seen[0],
        Handed {
            number: 0,
            dev: 0,
            k: 0,
            call: call(What::Write, 0, 6)
        }
    );
    assert_eq!(&rt;
        seen[1],
        Handed {
            number: 1,
            dev: 1,
            k: 0,
            call: call(What::Clear, 5, 6)
        }
    );
    assert_eq!(&rt;
        seen[2],
        Handed {
            number: 2,
            dev: 0,
            k: 2,
            call: call(What::Flush, 0, 1)
        }
    );
    assert_eq!(&rt;
        seen[3],
        Handed {
            number: 3,
            dev: 0,
            k: 3,
            call: call(What::Read, 16, 4)
        }
    );
    assert!(&rt; calls.is_any_out());
    assert!(&rt; calls.is_out_of(0));
    let Some(place) = calls.find(2) else {
        panic!(&rt; "it is out");
    };
    assert_eq!(&rt; place.dev, 0);
    assert_eq!(&rt; place.i, 1);
    assert_eq!(&rt; calls.asker(&machine, place), Some(2));
    calls.remove(place);
    assert_eq!(&rt; calls.find(2), None);
    let Some(place) = calls.find(3) else {
        panic!(&rt; "it is out");
    };
    assert_eq!(&rt; place.i, 1);
    Ok(())
}

#[test]
fn blocks_of_the_host_count(rt: HostRuntime) -> Result<(), Fail> {
    let first = vec![in rt.alloc();
        request(rt.alloc(), Kind::Out, 0, 4),
        request(rt.alloc(), Kind::Out, 4, 4),
        request(rt.alloc(), Kind::Out, 8, 1),
    ]?;
    let machine = Two {
        first,
        second: Vec::new(rt.alloc()),
    };
    let mut calls = Calls::new(rt.alloc(), 2, 8)?;
    let one = calls.next(&machine, 1).expect(&rt, "a call");
    assert_eq!(&rt; one.call, call(What::Write, 0, 1));
    let two = calls.next(&machine, 1).expect(&rt, "a call");
    assert_eq!(&rt; two.call, call(What::Write, 8, 1));
    assert_eq!(&rt; calls.next(&machine, 1), None);
    assert_eq!(&rt; asker(machine.requests(0), &call(What::Read, 0, 1)), None);
    Ok(())
}
