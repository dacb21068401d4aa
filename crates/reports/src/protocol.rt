// Document 01, "Decoder steps": a decoder of any protocol. A protocol's memory has its machine (specs/Machine.antt) and its own step; `event`, `event_total` and the decoder with its spans inside are here once.
ghost use Rattle.std.specs.Prelude.{◌≡◌, ℕ, not};
ghost use Rattle.spans.specs.Spans.{spans_of};
ghost use Rattle.reports.specs.Edges.{edge};
ghost use Rattle.reports.specs.Machine.{Machine, stepped, event, ruled, total, made_of, event_of, total_of, reset_of};

use crate::{Report, Status};
use refusals::Refusal;
use spans::Spans;

// What a protocol remembers between edges. Any state and any numbers may be handed in.
pub trait Protocol: Copy {
    ghost machine: { Machine Self };

    // What a new decoder remembers.
    fn fresh() -> Self
        ensures { result ≡ machine.fresh };

    // Whether it is refused: its bit counter is past its end.
    fn is_past_end(&self) -> bool
        ensures { result ≡ machine.past_end self.now };

    // And by which refusal: 4, of each of our protocols.
    fn refusal(&self) -> Refusal
        ensures { result ≡ machine.refusal self.now };

    // One edge: its level, and the duration since the edge before, in ticks of the spans' rate. Whether it is taken: a memory past its end takes none, and is left as it was.
    fn step(&mut self, spans: &Spans, rising: bool, duration: u32) -> bool
        ensures taken { result ≡ not (machine.past_end self.old) }
        ensures after { self.new ≡ stepped machine spans.now self.old (edge rising duration) };

    // Where the decoder stands then.
    fn status(&self) -> Status
        ensures { result ≡ machine.status self.now };

    // The command that is gathered, or nothing, as document 01 says of each protocol. Every state is taken.
    fn command(&self) -> Report
        ensures { result ≡ machine.command self.now };

    // Back to the state before a frame; what is kept, document 01 says of each protocol. Every state is taken.
    fn reset(&mut self)
        ensures { self.new ≡ machine.reset self.old };
}

// A memory whose spans are those of one protocol, by document 01's number.
pub trait Numbered: Protocol {
    ghost NUMBER: { ℕ };

    const NUMBER: u32;
}

// The step of one edge, and where the decoder stands then. The duration is in ticks of the spans' rate. Refusal 4 is tested at each edge, and leaves the memory as it was.
#[inline(always)]
#[tactic(auto, unfolding(crate::specs::Machine::event))]
pub fn event<M: Protocol>(memory: &mut M, spans: &Spans, rising: bool, duration: u32) -> Status
    ensures status { result ≡ (event M.machine spans.now memory.old (edge rising duration)).status }
    ensures after { memory.new ≡ (event M.machine spans.now memory.old (edge rising duration)).memory }
{
    if memory.step(spans, rising, duration) {
        memory.status()
    } else {
        Status::Refused(memory.refusal())
    }
}

// The rule of event_total over the status that event answers: at Done the command and at an error the error, with a reset; else nothing. Refusal 4 leaves the memory as it was.
#[inline(always)]
pub fn settle<M: Protocol>(memory: &mut M, status: Status) -> Report
    ensures report { result ≡ (ruled M.machine status memory.old).report }
    ensures after { memory.new ≡ (ruled M.machine status memory.old).memory }
{
    match status {
        Status::Idle | Status::Receiving => Report::Nothing,
        Status::Done => {
            let report = memory.command();
            memory.reset();
            report
        }
        Status::Error(fault) => {
            memory.reset();
            Report::Error(fault)
        }
        Status::Refused(refusal) => Report::Refused(refusal),
    }
}

// One edge, and the rule over what event answers. Refusal 4 leaves the memory as it was.
#[inline(always)]
#[tactic(auto, unfolding(crate::specs::Machine::total))]
pub fn event_total<M: Protocol>(
    memory: &mut M,
    spans: &Spans,
    rising: bool,
    duration: u32,
) -> Report
    ensures report { result ≡ (total M.machine spans.now memory.old (edge rising duration)).report }
    ensures after { memory.new ≡ (total M.machine spans.now memory.old (edge rising duration)).memory }
{
    let status = event(memory, spans, rising, duration);
    settle(memory, status)
}

// A decoder carries its eight spans inside its own state.
#[derive(Clone, Copy)]
pub struct Decoder<M> {
    pub spans: Spans,
    pub memory: M,
}

// What the calls by value answer, each beside the decoder after it.
#[derive(Clone, Copy)]
pub struct EventAnswer<M> {
    pub status: Status,
    pub decoder: Decoder<M>,
}

#[derive(Clone, Copy)]
pub struct TotalAnswer<M> {
    pub report: Report,
    pub decoder: Decoder<M>,
}

// The decoder that the caller keeps and lends to each call, as the crate has it.
impl<M: Protocol> Decoder<M> {
    // With the spans of the memory's protocol at a rate. Refusal 1; before it 2, where no protocol has that number.
    pub fn new(rate: u32) -> Result<Decoder<M>, Refusal>
    where
        M: Numbered,
        ensures { result ≡ made_of M.machine.fresh (spans_of M.NUMBER rate) }
    {
        Ok(Decoder {
            spans: Spans::new(M::NUMBER, rate)?,
            memory: M::fresh(),
        })
    }

    // One edge, as `event`. Refusal 4; the decoder is left as it was.
    pub fn event(&mut self, rising: bool, duration: u32) -> Status
        ensures status { result ≡ (event M.machine self.old.spans self.old.memory (edge rising duration)).status }
        ensures after { self.new ≡ record self.old { memory = (event M.machine self.old.spans self.old.memory (edge rising duration)).memory } }
    {
        event(&mut self.memory, &self.spans, rising, duration)
    }

    // As the protocol's `command`.
    pub fn command(&self) -> Report
        ensures { result ≡ M.machine.command self.now.memory }
    {
        self.memory.command()
    }

    // As the protocol's `reset`.
    pub fn reset(&mut self)
        ensures { self.new ≡ record self.old { memory = M.machine.reset self.old.memory } }
    {
        self.memory.reset();
    }

    // One edge, as `event_total`. Refusal 4; the decoder is left as it was.
    pub fn event_total(&mut self, rising: bool, duration: u32) -> Report
        ensures report { result ≡ (total M.machine self.old.spans self.old.memory (edge rising duration)).report }
        ensures after { self.new ≡ record self.old { memory = (total M.machine self.old.spans self.old.memory (edge rising duration)).memory } }
    {
        event_total(&mut self.memory, &self.spans, rising, duration)
    }
}

// The same calls by value: the decoder goes in, and comes back beside the answer.
impl<M: Protocol> Decoder<M> {
    // Refusal 4.
    pub fn event_by_value(self, rising: bool, duration: u32) -> EventAnswer<M>
        ensures { result ≡ event_of self.spans (event M.machine self.spans self.memory (edge rising duration)) }
    {
        let mut kept = self;
        let status = kept.event(rising, duration);
        EventAnswer {
            status,
            decoder: kept,
        }
    }

    // As the protocol's `reset`.
    pub fn reset_by_value(self) -> Decoder<M>
        ensures { result ≡ reset_of M.machine self }
    {
        let mut kept = self;
        kept.reset();
        kept
    }

    // Refusal 4.
    pub fn event_total_by_value(self, rising: bool, duration: u32) -> TotalAnswer<M>
        ensures { result ≡ total_of self.spans (total M.machine self.spans self.memory (edge rising duration)) }
    {
        let mut kept = self;
        let report = kept.event_total(rising, duration);
        TotalAnswer {
            report,
            decoder: kept,
        }
    }
}
