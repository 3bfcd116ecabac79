//! A run in memory, and what it has to give.
use std::alloc::{AllocError, Global};
use std::process::Abort;
use std::test::Fail;
use swreq_text::{MemSink, MemSource, Sink, Source, SureSource};
use swreq_top::run;
use swreq_watch::{Quiet, Watch};

/// The name of a run, and how it meets the world: the words, with single spaces between them; the text, in pieces of 10, with the read
/// that fails; and the sink, in pieces of 3, with its room and the write that fails.
#[derive(Clone, Copy)]
pub(crate) struct Setting<'a> {
    pub(crate) name: &'a str,
    pub(crate) words: &'a str,
    pub(crate) text: &'a [u8],
    pub(crate) failing_read: u32,
    pub(crate) room: u32,
    pub(crate) failing_write: u32,
}

/// No read or write fails.
pub(crate) fn undisturbed<'a>(name: &'a str, words: &'a str, text: &'a [u8]) -> Setting<'a> {
    Setting {
        name,
        words,
        text,
        failing_read: 0,
        room: 1000,
        failing_write: 0,
    }
}

/// Appends a word.
fn put_word(alloc: Global, word: &str, words: &mut Vec<String>) -> Result<(), AllocError> {
    let word = String::from_str(alloc, word)?;
    words.push(word)?;
    Ok(())
}

/// The words between single spaces.
fn words_of(alloc: Global, line: &str) -> Result<Vec<String>, AllocError> {
    let mut words = Vec::new(alloc);
    for word in line.split(' ') {
        put_word(alloc, word, &mut words)?;
    }
    Ok(words)
}

/// The status that a run gives with the words between single spaces.
pub(crate) fn status_of<S: Source, K: Sink, W: Watch>(
    alloc: Global,
    line: &str,
    src: &mut S,
    out: &mut K,
    watch: &mut W,
) -> Result<u8, AllocError> {
    let words = words_of(alloc, line)?;
    Ok(run(alloc, &words, src, out, watch))
}

/// The status of a run over a source that never fails.
pub(crate) fn status_over<K: Sink, W: Watch>(
    alloc: Global,
    line: &str,
    text: &[u8],
    out: &mut K,
    watch: &mut W,
) -> Result<u8, AllocError> {
    let mut src = SureSource::new(text.to_vec(alloc)?);
    status_of(alloc, line, &mut src, out, watch)
}

/// The text of a setting as a source.
fn source_of(alloc: Global, setting: &Setting<'_>) -> Result<MemSource, AllocError> {
    let failing = vec![in alloc; setting.failing_read]?;
    let text = setting.text.to_vec(alloc)?;
    Ok(MemSource::new(text, 10, failing))
}

/// The sink of a setting.
fn sink_of(alloc: Global, setting: &Setting<'_>) -> Result<MemSink, AllocError> {
    let failing = vec![in alloc; setting.failing_write]?;
    MemSink::new(alloc, setting.room, 3, failing)
}

/// The status of a run in a setting, over its source.
fn status_in(alloc: Global, setting: &Setting<'_>, out: &mut MemSink) -> Result<u8, AllocError> {
    let mut src = source_of(alloc, setting)?;
    status_of(alloc, setting.words, &mut src, out, &mut Quiet)
}

/// A run gives this status and prints this.
pub(crate) fn runs(
    rt: &impl Abort,
    alloc: Global,
    setting: Setting<'_>,
    status: u8,
    taken: &[u8],
) -> Result<(), Fail> {
    let mut out = sink_of(alloc, &setting)?;
    let came = status_in(alloc, &setting, &mut out)?;
    assert_eq!(rt; out.bytes(), taken, "{}", setting.name);
    assert_eq!(rt; came, status, "{}", setting.name);
    Ok(())
}
