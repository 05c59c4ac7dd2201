// What is proved of the texts of flows: each theorem is the contract of a function.
ghost use Rattle.text.specs.Laws.{FlowsReadBack, FlowsExact};

// A flow that is written and read is that flow.
pub fn flows_read_back()
    ensures { FlowsReadBack }
{}

// Each flow has one text: a text that is read is what is written of the flow.
pub fn flows_exact()
    ensures { FlowsExact }
{}
