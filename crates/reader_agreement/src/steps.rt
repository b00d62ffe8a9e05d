//! One answer of a reader beside the frame that is wanted.

ghost use Rattle.std.specs.Prelude.{◌≡◌, is_some};
ghost use Rattle.std.specs.Option.{option_map};
ghost use Rattle.dial9_trace_format.specs.DecodedFrames.{item_of, ref_item_of};
ghost use Rattle.reader_agreement.specs.Steps.{is_wanted, tested, gives_one, as_answer, run_after};

use crate::runs::Run;
use dial9_trace_format::decoder::{DecodeError, DecodedFrame, DecodedFrameRef};

/// Whether the frame is the one that is wanted.
pub fn is_wanted(wanted: Option<&DecodedFrame>, frame: &DecodedFrame) -> bool
    ensures { result
        ≡ is_wanted (option_map (λ w. item_of w.now) wanted.entry) (item_of frame.now) }
{
    match wanted {
        Some(wanted) => *wanted == *frame,
        None => false,
    }
}

/// The same of frames that stay in the bytes.
pub fn is_wanted_ref<'v, 'b>(
    wanted: Option<&'v DecodedFrameRef<'b>>,
    frame: &'v DecodedFrameRef<'b>,
) -> bool
    ensures { result
        ≡ is_wanted (option_map (λ w. ref_item_of w.now) wanted.entry) (ref_item_of frame.now) }
{
    match wanted {
        Some(other) => *other == *frame,
        None => false,
    }
}

/// Counts what a reader answered, which is to be the frame that is wanted. Whether it gave a frame.
pub fn take_owned(
    run: &mut Run,
    wanted: Option<&DecodedFrame>,
    answer: Result<Option<DecodedFrame>, DecodeError>,
) -> bool
    ensures taken { run.new ≡ run_after run.old (tested
        (λ f. is_wanted (option_map (λ w. item_of w.now) wanted.entry) (item_of f)) answer) }
    ensures more { result ≡ gives_one answer }
{
    match answer {
        Ok(Some(frame)) => {
            run.give(is_wanted(wanted, &frame));
            true
        }
        Ok(None) => false,
        Err(error) => {
            run.fail(error);
            false
        }
    }
}

/// The same of frames that stay in the bytes.
pub fn take_borrowed<'v, 'b>(
    run: &mut Run,
    wanted: Option<&'v DecodedFrameRef<'b>>,
    answer: Result<Option<DecodedFrameRef<'b>>, DecodeError>,
) -> bool
    ensures taken { run.new ≡ run_after run.old (tested
        (λ f. is_wanted (option_map (λ w. ref_item_of w.now) wanted.entry) (ref_item_of f))
        answer.entry) }
    ensures more { result ≡ gives_one answer.entry }
{
    match answer {
        Ok(Some(frame)) => {
            run.give(is_wanted_ref(wanted, &frame));
            true
        }
        Ok(None) => false,
        Err(error) => {
            run.fail(error);
            false
        }
    }
}

/// The same of what an iterator gave, which goes on after an error, and then is to end. Whether it gave anything.
pub fn take_item<'v, 'b>(
    run: &mut Run,
    wanted: Option<&'v DecodedFrameRef<'b>>,
    item: Option<Result<DecodedFrameRef<'b>, DecodeError>>,
) -> bool
    ensures taken { run.new ≡ run_after run.old (tested
        (λ f. is_wanted (option_map (λ w. ref_item_of w.now) wanted.entry) (ref_item_of f))
        (as_answer item.entry)) }
    ensures more { result ≡ is_some item.entry }
{
    match item {
        Some(Ok(frame)) => take_borrowed(run, wanted, Ok(Some(frame))),
        Some(Err(error)) => {
            run.fail(error);
            true
        }
        None => false,
    }
}
