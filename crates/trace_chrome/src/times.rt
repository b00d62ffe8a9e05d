//! Times as viewers read them.

ghost use Rattle.std.specs.Prelude.{◌≡◌, IfOk, string_bytes};
ghost use Rattle.trace_chrome.specs.Times.{micros_text, time_text};

use std::alloc::{AllocError, Global};

/// So many nanoseconds in microseconds, with three digits after the point. `AllocError` where a growth was refused.
pub(crate) fn micros_text(alloc: Global, n: u64) -> Result<String, AllocError>
    ensures { IfOk result (λ text. string_bytes text ≡ micros_text n) }
{
    let (whole, tenth, hundredth, last) = (n / 1_000, n / 100 % 10, n / 10 % 10, n % 10);
    format!(in alloc; "{whole}.{tenth}{hundredth}{last}")
}

/// A time after another one, with a minus where it lies before that. `AllocError` where a growth was refused.
pub(crate) fn time_text(alloc: Global, from: u64, at: u64) -> Result<String, AllocError>
    ensures { IfOk result (λ text. string_bytes text ≡ time_text from at) }
{
    if at < from {
        let text = micros_text(alloc, from - at)?;
        return format!(in alloc; "-{text}");
    }
    micros_text(alloc, at - from)
}
