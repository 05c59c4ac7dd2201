// A flow as a key: its 13 bytes.
ghost use Rattle.std.specs.Prelude.{◌≡◌, Some, Decides};
ghost use Rattle.flows.specs.Flows.{flow_bytes};
ghost use Rattle.std.proofs.Common.{rules};

use crate::flow::Flow;
use keys::Kind;

const LENGTH: usize = 13;

impl From<Flow> for [u8; LENGTH] {
    ghost from_gives = { λ flow bytes. bytes ≡ flow_bytes flow };

    fn from(flow: Flow) -> [u8; LENGTH] {
        let [s0, s1, s2, s3] = flow.source.to_be_bytes();
        let [d0, d1, d2, d3] = flow.destination.to_be_bytes();
        let [p0, p1] = flow.source_port.to_be_bytes();
        let [q0, q1] = flow.destination_port.to_be_bytes();
        [
            s0,
            s1,
            s2,
            s3,
            d0,
            d1,
            d2,
            d3,
            p0,
            p1,
            q0,
            q1,
            flow.protocol,
        ]
    }
}

// Flows are the same exactly when their bytes are. By value, for then the proof has that each part fits its type.
fn equal(flow: Flow, other: Flow) -> bool
    ensures { Decides result (flow_bytes flow ≡ flow_bytes other) }
{
    flow == other
}

// `same`, `record` and `restore` by hand: they are of the trait that a customer's kind of key has too.
impl Kind for Flow {
    // a flow holds plain data, and every such data is a flow
    type Record = Flow;

    ghost bytes = { flow_bytes };

    ghost means = { λ f. Some (flow_bytes f) };

    ghost sized = { Prim.search rules };

    fn len(&self) -> usize {
        LENGTH
    }

    fn byte(&self, i: usize) -> u8 {
        let bytes = <[u8; LENGTH]>::from(*self);
        bytes.get(i).copied().unwrap_or(0)
    }

    fn same(&self, other: &Flow) -> bool {
        equal(*self, *other)
    }

    fn record(self) -> Flow {
        self
    }

    fn restore(record: Flow) -> Option<Flow> {
        Some(record)
    }
}
