//! A joint at which more items can stand than are looked for.
use crate::live_tests::cases::{Case, is_fed, is_heard};
use crate::live_tests::checks::is;
use crate::live_tests::talking::{Cut, Talk};
use crate::live_tests::texts::append_made;
use reo_live::LiveFault;
use reo_values::{Bytes, NoMemory};
use std::alloc::Global;
use std::test::Fail;

/// Channels from 257 ports to one.
fn circuit(alloc: Global) -> Result<Bytes, NoMemory> {
    let mut text = Bytes::from_slice(alloc, b"connector main(")?;
    for number in 0..257u32 {
        append_made(&mut text, format!(in alloc; "in p{number}: int 0..999, "))?;
    }
    text.append(b"out o: int 0..999) {")?;
    for number in 0..257u32 {
        append_made(&mut text, format!(in alloc; " sync p{number} o;"))?;
    }
    text.append(b" }")?;
    Ok(text)
}

/// Another item at each of the ports, and a take.
fn events(alloc: Global) -> Result<Bytes, NoMemory> {
    let mut text = Bytes::new(alloc);
    for number in 0..257u32 {
        append_made(&mut text, format!(in alloc; "write p{number} {number}\n"))?;
    }
    text.append(b"take o\nround\nend\n")?;
    Ok(text)
}

fn is_wide(alloc: Global) -> Result<bool, NoMemory> {
    let circuit = circuit(alloc)?;
    let events = events(alloc)?;
    let case = Case {
        talk: Talk {
            circuit: circuit.as_slice(),
            budget: 1_000_000_000,
        },
        events: events.as_slice(),
        answers: b"wide in round 1: knot 0\n",
        stop: Some(LiveFault::Wide { knot: 0 }),
    };
    let cut = Cut {
        first: 700,
        others: 99,
    };
    Ok(is_fed(alloc, case, cut)? && is_heard(alloc, case, 4_096)?)
}

#[test]
fn a_round_of_257_items_cannot_be_planned(rt: HostRuntime) -> Result<(), Fail> {
    is(&rt, is_wide(rt.alloc())?, "wide");
    Ok(())
}
