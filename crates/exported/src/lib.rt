// The vault's scripts, for programs in other languages.
#![tactic(auto)]

ghost use Rattle.std.specs.Prelude.{◌≡◌, ◌-◌, ◌^◌, ◌<◌, ◌≤◌, IfNone, IfSome, drop, length, take};
ghost use Rattle.exported.specs.Written.{IsWritten};

use std::alloc::Global;
use transcripts::rounds;

// Copies bytes to the front of a buffer, and answers how many. None where they
// do not fit.
fn copy_to_front(bytes: &[u8], out: &mut [u8]) -> Option<usize>
    ensures front { IfSome result (λ n. take n out.new ≡ bytes.now) }
    ensures fits { IfSome result (λ n. n ≤ length out.old) }
    ensures rest { IfSome result (λ n. drop n out.new ≡ drop n out.old) }
    ensures none { IfNone result (out.new ≡ out.old) }
{
    if bytes.len() > out.len() {
        return None;
    }
    out[..bytes.len()].copy_from_slice(bytes);
    Some(bytes.len())
}

// Writes a transcript at the front of a buffer, and answers its length. None
// where it does not fit, or memory runs out.
fn write_rounds(
    alloc: Global,
    text: &[u8],
    from: usize,
    times: usize,
    out: &mut [u8],
) -> Option<usize>
    ensures some { IfSome result (λ n. IsWritten text.now from times out.old out.new n) }
    ensures none { IfNone result (out.new ≡ out.old) }
{
    let Ok(transcript) = rounds(alloc, text, from, times) else {
        return None;
    };
    copy_to_front(transcript.as_bytes(), out)
}

// Writes the transcript of a text, whose calls from one on are made so many
// times more, at the front of a buffer, and answers its length. usize::MAX
// where it does not fit, or memory runs out.
#[unsafe(no_mangle)]
pub extern "C" fn weqtabir_rounds(
    alloc: Global,
    text: &[u8],
    from: usize,
    times: usize,
    out: &mut [u8],
) -> usize
    ensures written { result < 2 ^ 64 - 1 → IsWritten text.now from times out.old out.new result }
    ensures none { result ≡ 2 ^ 64 - 1 → out.new ≡ out.old }
{
    write_rounds(alloc, text, from, times, out).unwrap_or(usize::MAX)
}
