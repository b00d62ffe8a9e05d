//! Frames of stacks.

ghost use Rattle.std.specs.Prelude.{◌≡◌, [], IfOk, OnOk, decimal, length};
ghost use Rattle.std.specs.List.{flat_map};
ghost use Rattle.trace_json.specs.Lines.{json_text};
ghost use Rattle.trace_json.specs.parts.Put.{PutsTokens, Puts, member_tokens};
ghost use Rattle.trace_chrome.specs.Frames.{number_of, with_frame, number_of_stack, with_stack, frames_json};
ghost use Rattle.trace_chrome.specs.Frames.{parent_members, frame_members, frame_json};
ghost use Rattle.trace_chrome.specs.Trees.{IsSmall};

use indexmap::IndexSet;
use json::Writer;
use std::alloc::{AllocError, Global};
use trace_values::tri;

/// The frames of stacks, each once: the number of the frame that it was called from, and its address. The numbers go
/// from 1 on in the order in which the frames came, and 0 stands for no frame.
#[derive(Drop)]
pub(crate) struct Frames {
    pub(crate) all: IndexSet<(usize, u64)>,
}

impl Frames {
    /// No frames. Takes no memory.
    pub(crate) fn new(alloc: Global) -> Frames
        ensures { result.all.keys ≡ [] }
    {
        Frames {
            all: IndexSet::new(alloc),
        }
    }

    /// The number of the frame of the innermost address of a stack, 0 where it has none. Frames that are new are put in
    /// last. `AllocError` where a growth was refused: then some of them may be there.
    pub(crate) fn put_stack(&mut self, stack: &[u64]) -> Result<usize, AllocError>
        ensures number { IfOk result (λ n. n ≡ number_of_stack stack.now self.old.all.keys) }
        ensures frames { OnOk result (self.new.all.keys ≡ with_stack stack.now self.old.all.keys) }
    {
        let mut number = 0;
        'addresses: for index in (0..stack.len()).rev() {
            number = self.put(number, stack[index])?;
        }
        Ok(number)
    }

    // The number of a frame, which is put in last where it is new. `AllocError` where a growth was refused: then
    // nothing changes.
    fn put(&mut self, parent: usize, address: u64) -> Result<usize, AllocError>
        ensures number { IfOk result (λ n. n ≡ number_of (parent, address) self.old.all.keys) }
        ensures frames { OnOk result (self.new.all.keys
            ≡ with_frame (parent, address) self.old.all.keys) }
    {
        // (a set has fewer values than there are numbers)
        let count = self.all.len();
        prove!(count < usize::MAX);
        match self.all.insert_full((parent, address)) {
            Ok((index, _)) => Ok(index + 1),
            Err(_) => Err(AllocError),
        }
    }

    /// What a viewer is told of them: an object in which each stands under its number. `AllocError` where a growth was
    /// refused.
    pub(crate) fn text(&self, alloc: Global) -> Result<Vec<u8>, AllocError>
        ensures text { IfOk result (λ text. text.items
            ≡ json_text (frames_json self.now.all.keys)) }
        ensures few { OnOk result (IsSmall (length self.now.all.keys)) }
    {
        let mut out = Writer::new(Vec::new(alloc));
        put_frames(alloc, &mut out, self.all.as_slice())?;
        Ok(out.into_inner())
    }
}

// Writes frames as an object, in which each stands under its number.
fn put_frames(alloc: Global, out: &mut Writer, frames: &[(usize, u64)]) -> Result<(), AllocError>
    ensures tokens { Puts (frames_json frames.now) out.old out.new result }
    ensures few { OnOk result (IsSmall (length frames.now)) }
    ensures before { out.new.before ≡ out.old.before }
{
    out.begin_object()?;
    put_members(alloc, out, frames)?;
    out.end_object()
}

// Writes frames as members, each under its number.
fn put_members(alloc: Global, out: &mut Writer, frames: &[(usize, u64)]) -> Result<(), AllocError>
    ensures tokens { PutsTokens (flat_map member_tokens (frame_members 1 frames.now)) out.old
        out.new result }
    ensures few { OnOk result (IsSmall (length frames.now)) }
    ensures before { out.new.before ≡ out.old.before }
{
    'frames: for index in 0..frames.len() {
        put_member(alloc, out, index + 1, frames[index])?;
    }
    Ok(())
}

// Writes a frame as a member under a number.
fn put_member(
    alloc: Global,
    out: &mut Writer,
    number: usize,
    frame: (usize, u64),
) -> Result<(), AllocError>
    ensures tokens { PutsTokens (member_tokens (decimal number, frame_json frame)) out.old out.new
        result }
    ensures before { out.new.before ≡ out.old.before }
{
    let (parent, address) = frame;
    let number = tri!(format!(in alloc; "{number}"));
    let name = tri!(format!(in alloc; "0x{address:x}"));
    tri!(out.key(number.as_str()));
    tri!(out.begin_object());
    tri!(out.key("name"));
    tri!(out.string(name.as_str()));
    tri!(put_parent(out, parent));
    out.end_object()
}

// Writes the number of the frame that one was called from, where there is one.
fn put_parent(out: &mut Writer, parent: usize) -> Result<(), AllocError>
    ensures tokens { PutsTokens (flat_map member_tokens (parent_members parent)) out.old out.new
        result }
    ensures before { out.new.before ≡ out.old.before }
{
    if parent == 0 {
        return Ok(());
    }
    out.key("parent")?;
    out.u64(parent as u64)
}
