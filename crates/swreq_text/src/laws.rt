//! Which streams tell their bytes, which count no fault, and how an input is divided, over the definitions alone.

ghost use Rattle.std.specs.Prelude.{◌≡◌, ℕ, List, None, Some, Contains};
ghost use Rattle.swreq_text.specs.{Divided.{Divides, divider}, Lines.{lines}, Memory.{SinkState, SourceState}};

use crate::{CountSink, MemSink, MemSource, Sink, Source, StdSink, StdSource, SureSource};
use std::io::{Read, Write};

/// The streams in memory tell their bytes: what a source has left, and what a sink has taken. What they count is their count of
/// faults.
pub fn streams_in_memory_tell()
    ensures source { (s : SourceState) → ⟦<MemSource as Source>⟧.left s ≡ Some s.left }
    ensures source_faults { (s : SourceState) → ⟦<MemSource as Source>⟧.faults s ≡ s.faults }
    ensures sure_source { (left : List ℕ) → ⟦<SureSource as Source>⟧.left left ≡ Some left }
    ensures sink { (s : SinkState) → ⟦<MemSink as Sink>⟧.taken s ≡ Some s.taken }
    ensures sink_faults { (s : SinkState) → ⟦<MemSink as Sink>⟧.faults s ≡ s.faults }
{}

/// The counts of faults of these streams are the constant 0, so no run over them ends for a fault.
pub fn some_streams_never_fail()
    ensures source { (left : List ℕ) → ⟦<SureSource as Source>⟧.faults left ≡ 0 }
    ensures sink { (count : ℕ) → ⟦<CountSink as Sink>⟧.faults count ≡ 0 }
{}

/// A source over a reader tells what the reader tells, and a sink over a writer tells nothing. What they count is their field.
pub fn streams_of_the_system_tell<R: Read, W: Write>(_source: &StdSource<R>, _sink: &StdSink<W>)
    ensures source { ⟦<StdSource<R> as Source>⟧.left _source.now ≡ R.remaining _source.now.inner }
    ensures source_faults { ⟦<StdSource<R> as Source>⟧.faults _source.now ≡ _source.now.faults }
    ensures sink { ⟦<StdSink<W> as Sink>⟧.taken _sink.now ≡ None }
    ensures sink_faults { ⟦<StdSink<W> as Sink>⟧.faults _sink.now ≡ _sink.now.faults }
{}

/// An input is divided in one way at most, and only where it has a line `%%`.
pub fn parts_of_an_input()
    ensures one { (input first second before after : List ℕ) → Divides input first second
        → Divides input before after
        → (first ≡ before) × (second ≡ after) }
    ensures found { (input first second : List ℕ) → Divides input first second
        → Contains (lines input) divider }
{}
