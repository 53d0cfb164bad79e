//! Circuits put together from primitives and joints.
use reo_kinds::Kind;
use reo_net_base::{End, Joint};
use reo_net_circuit::{Circuit, are_parts};
use reo_values::List;
use std::alloc::Global;
use std::process::Abort;
use std::test::Fail;

/// A joint, by its giver's primitive and end and then its taker's.
pub fn joint(ends: [usize; 4]) -> Joint {
    let [giver, source, taker, sink] = ends;
    Joint {
        giver: End {
            primitive: giver,
            end: source,
        },
        taker: End {
            primitive: taker,
            end: sink,
        },
    }
}

/// The circuit of these primitives, of which the first `ports` are its ports, and joints.
pub fn put_together(
    rt: &impl Abort,
    alloc: Global,
    primitives: List<Kind>,
    ports: usize,
    joints: List<Joint>,
) -> Result<Circuit<Kind>, Fail> {
    assert!(rt; are_parts(primitives.as_slice(), ports, joints.as_slice()));
    assert!(rt; primitives.len() < 1000 && joints.len() < 1000);
    Ok(Circuit::new(alloc, primitives, ports, joints)?)
}
