// The text of a flow.
ghost use Rattle.std.specs.Option.{ok_or};
ghost use Rattle.keys.specs.declared.refusal.Refusal.TheVariants.{BadLine};
ghost use Rattle.flow_text.specs.FlowText.{flow_from};
ghost use Rattle.flows.specs.FlowText.{flow_as_text};
ghost use Rattle.std.proofs.Common.{ap};
ghost use Rattle.std.specs.Prelude.{Option};
ghost use Rattle.seating.specs.Layouts.{Key};
ghost use Rattle.flows.specs.Flows.{flow_bytes};
ghost use Rattle.text.specs.FlowTexts.{flow_key, flows_read_back_lem, flows_exact_lem};
ghost use Rattle.text.specs.FlowSpelledLemmas.{some_from_ok};

use crate::spelled::Spelled;
use flow_text::read_flow;
use flows::Flow;
use keys::Refusal;
use std::alloc::AllocError;

impl Spelled for Flow {
    ghost text = { flow_as_text };

    ghost reads = { λ s. ok_or (flow_from s) BadLine };

    ghost read_back = { λ k. ap (λ (o : Option Key). ok_or o BadLine) (flows_read_back_lem (flow_bytes k) (flow_key k)) };

    ghost exact = { λ s k e. (flows_exact_lem s k (some_from_ok (flow_from s) k e)).1 };

    fn read(s: &[u8]) -> Result<Flow, Refusal> {
        read_flow(s).ok_or(Refusal::BadLine)
    }

    fn write(&self, out: &mut Vec<u8>) -> Result<(), AllocError> {
        // by a text of its own: of a vector after a failed `write!` nothing is promised
        let text = format!(in *out.allocator(); "{self}")?;
        out.extend_from_slice(text.as_bytes())
    }
}
