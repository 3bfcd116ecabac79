// From the words and the source to the sink and the status.
ghost use Rattle.std.specs.Prelude.{◌≡◌, ◌≤◌, ◌⊎◌, ℕ, Err, map, string_bytes};
ghost use Rattle.swreq_text.specs.{Faults.{HasRisen}, Given.{GivesCount}, declared.whole.ReadErr.TheVariants.{Fault}};
ghost use Rattle.swreq_reply.specs.{Verdict.{answered_text}, Requests.{HasCount}};
ghost use Rattle.swreq_top.specs.{Contract.{IsRun}, Run.{AreWrong, IsEnd, ReadsNothing, ReadNothing}, Steps.{Answers, AnswersText, IsFinished}};

use std::alloc::Global;
use swreq_print::{OUT_OF_MEMORY, READ_FAULT, TOO_LARGE, USAGE};
use swreq_reply::{Outcome, reply};
use swreq_text::{ReadErr, Sink, Source, read_all, write_all};
use swreq_watch::Watch;
use swreq_words::laws::count_is_in_range;
use swreq_words::{CommandLine, Input, UsageErr};

/// The most bytes that a text may have.
const TEXT_LIMIT: u32 = swreq_world::lex::TEXT_LIMIT as u32;

/// Does what the words say: answers the source's text, or that of `gen`, and gives the status. The watcher is told the events of the
/// rounds.
///
/// | status | meaning | printed |
/// |---|---|---|
/// | 0 | answered | the answers |
/// | 1 | the text is refused | one line |
/// | 2 | the words are refused | the usage line |
/// | 3 | a completion passes a limit | one line, and with `--trace` the lines of the trace |
/// | 4 | a read failed | one line |
/// | 5 | a write failed | a part of what was to be printed |
/// | 6 | there was no memory | one line |
pub fn run<S: Source, K: Sink, W: Watch>(
    alloc: Global,
    words: &[String],
    src: &mut S,
    out: &mut K,
    watch: &mut W,
) -> u8
    // The headline and all causes, a sentence each: `IsRun` in specs/Contract.antt.
    ensures run { IsRun (record {
      words = map string_bytes words.now;
      before = record {
        left = S.left src.old;
        read_faults = S.faults src.old;
        taken = K.taken out.old;
        write_faults = K.faults out.old;
        told = W.told watch.old;
      };
      after = record {
        left = S.left src.new;
        read_faults = S.faults src.new;
        taken = K.taken out.new;
        write_faults = K.faults out.new;
        told = W.told watch.new;
      };
      status = result;
    }) }
    // At most 1,048,577 bytes are read, one more than a text may have, and none where the words are wrong or say `gen`.
    ensures source { ((n : ℕ) × (n ≤ 1048577) × GivesCount (S.left src.old) (S.left src.new) n)
        × (AreWrong (map string_bytes words.now) ⊎ ReadNothing (map string_bytes words.now)
        → src.new ≡ src.old) }
{
    carry_out(alloc, words, src, out, watch)
}

/// Does what the words say, and gives the status.
fn carry_out<S: Source, K: Sink, W: Watch>(
    alloc: Global,
    words: &[String],
    src: &mut S,
    out: &mut K,
    watch: &mut W,
) -> u8
    ensures end { IsEnd (record {
      words = map string_bytes words.now;
      before = record {
        left = S.left src.old;
        read_faults = S.faults src.old;
        taken = K.taken out.old;
        write_faults = K.faults out.old;
        told = W.told watch.old;
      };
      after = record {
        left = S.left src.new;
        read_faults = S.faults src.new;
        taken = K.taken out.new;
        write_faults = K.faults out.new;
        told = W.told watch.new;
      };
      status = result;
    }) }
    ensures reads { (n : ℕ) × (n ≤ 1048577) × GivesCount (S.left src.old) (S.left src.new) n }
    ensures unread { AreWrong (map string_bytes words.now)
        ⊎ ReadNothing (map string_bytes words.now) → src.new ≡ src.old }
{
    count_is_in_range();
    match swreq_words::read(alloc, words) {
        Ok(line) => match answer(alloc, &line, src, watch) {
            Ok(outcome) => finish(out, outcome.status, outcome.output.items()),
            Err(ReadErr::TooLarge) => finish(out, 1, TOO_LARGE),
            Err(ReadErr::Fault) => finish(out, 4, READ_FAULT),
            Err(ReadErr::Memory) => finish(out, 6, OUT_OF_MEMORY),
        },
        Err(UsageErr::Usage) => finish(out, 2, USAGE),
        Err(UsageErr::Memory) => finish(out, 6, OUT_OF_MEMORY),
    }
}

/// What is answered of the source's text, or of the one that is generated.
fn answer<S: Source, W: Watch>(
    alloc: Global,
    line: &CommandLine,
    src: &mut S,
    watch: &mut W,
) -> Result<Outcome, ReadErr>
    requires count { HasCount line.now }
    ensures answer { Answers line.now (S.left src.old) (S.left src.new) (W.told watch.old)
        (W.told watch.new) result }
    ensures unread { ReadsNothing line.now.command → src.new ≡ src.old }
    ensures reads { (n : ℕ) × (n ≤ 1048577) × GivesCount (S.left src.old) (S.left src.new) n }
    ensures fault { result ≡ Err Fault → HasRisen (S.faults src.old) (S.faults src.new) }
    ensures no_fault { (result ≡ Err Fault) ⊎ (S.faults src.new ≡ S.faults src.old) }
{
    match line.command.input() {
        Input::Nothing => replied(alloc, line, &[], watch),
        _ => {
            let text = read_all(alloc, src, TEXT_LIMIT)?;
            replied(alloc, line, &text, watch)
        }
    }
}

/// What the command answers of the text.
fn replied<W: Watch>(
    alloc: Global,
    line: &CommandLine,
    text: &[u8],
    watch: &mut W,
) -> Result<Outcome, ReadErr>
    requires count { HasCount line.now }
    ensures { AnswersText line.now (answered_text line.now text.now) (W.told watch.old)
        (W.told watch.new) result }
{
    let outcome = reply(alloc, line, text, watch)?;
    Ok(outcome)
}

/// Writes the bytes, and gives the status, which is 5 where a write failed.
fn finish<K: Sink>(out: &mut K, status: u8, bytes: &[u8]) -> u8
    ensures { IsFinished (K.taken out.old) (K.taken out.new) (K.faults out.old)
        (K.faults out.new) bytes.now status result }
{
    match write_all(out, bytes) {
        Ok(()) => status,
        Err(_) => 5,
    }
}
