// The forms in memory. Each follows a script, one entry a call, and after its end does all that it can.
ghost use Rattle.std.specs.Prelude.{◌≡◌, ◌≤◌, IfSome};

mod files;
mod sink;
mod source;
mod stream;

pub use files::{MemFile, MemFiles};
pub use sink::MemSink;
pub use source::MemSource;
pub use stream::MemStream;

/// What a call on a form in memory does.
#[derive(Clone, Copy, Debug, PartialEq, Eq)]
pub enum ScriptedCall {
    /// Moves at most so many bytes, and at least one.
    AtMost(usize),
    /// Fails, and raises the count.
    Fails,
}

/// How many of so many bytes the call of that number moves, or None where it fails.
fn bytes_moved(script: &[ScriptedCall], call: usize, all: usize) -> Option<usize>
    ensures within { IfSome result (λ n. n ≤ all) }
    ensures some { IfSome result (λ n. n ≡ 0 → all ≡ 0) }
{
    match script.get(call) {
        Some(ScriptedCall::Fails) => None,
        Some(ScriptedCall::AtMost(n)) => Some((*n).max(1).min(all)),
        None => Some(all),
    }
}
