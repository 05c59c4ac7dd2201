// A flow written as text.
ghost use Rattle.std.specs.Prelude.{Some};
ghost use Rattle.flows.specs.Flows.{flow_bytes};
ghost use Rattle.flows.specs.FlowText.{flow_as_text};

use crate::flow::Flow;
use std::fmt;
use std::net::SocketAddrV4;

impl fmt::Display for Flow {
    ghost output = { λ f. Some (flow_as_text (flow_bytes f)) };

    fn fmt<W: fmt::Write>(&self, f: &mut fmt::Formatter<W>) -> fmt::Result {
        let source = SocketAddrV4::new(self.source.into(), self.source_port);
        let destination = SocketAddrV4::new(self.destination.into(), self.destination_port);
        let protocol = self.protocol;
        write!(f, "{source}>{destination}/{protocol}")
    }
}
