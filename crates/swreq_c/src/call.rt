//! The call.

ghost use Rattle.std.specs.Prelude.{◌≡◌, length};
ghost use Rattle.swreq_c.specs.Calls.{IsAnswer, put_into};

use crate::buffer::put;
use crate::running::run_over;
use std::alloc::Global;
use swreq_print::OUT_OF_MEMORY;

// The status where there was no memory.
const NO_MEMORY: u8 = 6;

/// What a call answers.
#[repr(C)]
#[derive(Clone, Copy)]
pub struct Answer {
    /// The status of the program: 0 to 3, or 6.
    pub status: u8,
    /// How many bytes are printed, also where the buffer has no room for them.
    pub count: usize,
}

/// Does what the words say, over the text, as the program does: puts what is printed into the buffer, as far as there is room, and answers
/// the status and how many bytes are printed. Zero bytes stand between the words. Where the buffer is too small the call can be made again
/// with a larger one.
#[unsafe(no_mangle)]
pub extern "C" fn genreq_run(alloc: Global, words: &[u8], text: &[u8], out: &mut [u8]) -> Answer
    ensures { IsAnswer words.now text.now out.old out.new result.status result.count }
{
    match run_over(alloc, words, text) {
        Ok(ran) => hand_out(ran.status, &ran.bytes, out),
        Err(_) => hand_out(NO_MEMORY, OUT_OF_MEMORY, out),
    }
}

fn hand_out(status: u8, bytes: &[u8], out: &mut [u8]) -> Answer
    ensures status { result.status ≡ status }
    ensures count { result.count ≡ length bytes.now }
    ensures out { out.new ≡ put_into out.old bytes.now }
{
    put(bytes, out);
    Answer {
        status,
        count: bytes.len(),
    }
}
