//! Cases `sure-sink` and `sink`: the calls of sinks in memory, by steps.

use case_files::{Part, number_of, push_parts};
use case_texts::{Scene, line};
use cm_base::{List, MemSink, NoMemory, Sink, SinkFault, SureSink, Text};
use std::alloc::Global;

/// A sink that doesn't fail.
#[derive(Drop)]
pub struct SureSinkScene {
    pub sink: SureSink,
}

/// A sink with a plan of failing calls.
#[derive(Drop)]
pub struct MemSinkScene {
    pub sink: MemSink,
}

/// What a call answers.
fn put<S: Sink>(alloc: Global, sink: &mut S, bytes: &[u8]) -> Result<Vec<u8>, NoMemory> {
    match sink.put(alloc, bytes) {
        Ok(()) => line(alloc, b"ok"),
        Err(SinkFault::Failed) => line(alloc, b"output fault"),
        Err(SinkFault::NoMemory) => Err(NoMemory),
    }
}

impl Scene for SureSinkScene {
    fn answer(
        &mut self,
        alloc: Global,
        step: &[u8],
        words: &[Text],
    ) -> Result<Option<Vec<u8>>, NoMemory> {
        match (step, words) {
            (b"put", [bytes]) => Ok(Some(put(alloc, &mut self.sink, bytes.as_bytes())?)),
            (b"bytes", []) => Ok(Some(line(alloc, self.sink.bytes())?)),
            _ => Ok(None),
        }
    }
}

/// The numbers that words write. None where one writes none.
fn numbers_of(alloc: Global, words: &[Text]) -> Result<Option<List<u32>>, NoMemory> {
    let mut numbers = List::new(alloc);
    for word in words {
        match number_of(word.as_bytes()) {
            Some(number) => numbers.add(number)?,
            None => return Ok(None),
        }
    }
    Ok(Some(numbers))
}

/// How often the sink was called, and how many calls failed.
fn counts(alloc: Global, sink: &MemSink) -> Result<Vec<u8>, NoMemory> {
    let mut out = Vec::new(alloc);
    let parts = [
        Part::Number(sink.puts),
        Part::Text(b" puts "),
        Part::Number(sink.faults),
        Part::Text(b" faults\n"),
    ];
    push_parts(alloc, &mut out, &parts)?;
    Ok(out)
}

impl MemSinkScene {
    /// Makes a plan of failing calls.
    fn plan(&mut self, alloc: Global, words: &[Text]) -> Result<Option<Vec<u8>>, NoMemory> {
        match numbers_of(alloc, words)? {
            Some(plan) => {
                self.sink.fail(plan);
                Ok(Some(line(alloc, b"ok")?))
            }
            None => Ok(None),
        }
    }
}

impl Scene for MemSinkScene {
    fn answer(
        &mut self,
        alloc: Global,
        step: &[u8],
        words: &[Text],
    ) -> Result<Option<Vec<u8>>, NoMemory> {
        match (step, words) {
            (b"plan", plan) => self.plan(alloc, plan),
            (b"put", [bytes]) => Ok(Some(put(alloc, &mut self.sink, bytes.as_bytes())?)),
            (b"bytes", []) => Ok(Some(line(alloc, self.sink.bytes())?)),
            (b"counts", []) => Ok(Some(counts(alloc, &self.sink)?)),
            _ => Ok(None),
        }
    }
}
