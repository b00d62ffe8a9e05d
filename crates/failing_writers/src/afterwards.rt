//! What comes after a failure: a writer that takes the place of the old one, raw bytes, and a flush that fails.

use crate::breaking::{Breaking, Fault, Manner};
use crate::wanted::kind_of;
use crate::written::SOUND;
use dial9_trace_format::encoder::Encoder;
use dial9_trace_format::leb128::{EncodeError, Plain};
use std::alloc::Global;
use std::io::ErrorKind;

/// A manner that takes so many bytes and then fails so.
fn stopping(place: usize, fault: Fault) -> Manner {
    Manner {
        place,
        fault,
        ..SOUND
    }
}

/// A failed encoder is given a writer that takes three bytes: that is a fault of the writer, the old writer stays, and
/// the next call is told that the encoder has failed.
pub fn keeps_old_writer(alloc: Global, fault: Fault) -> Result<bool, EncodeError> {
    let mut writer = Breaking::new(alloc, stopping(8, fault));
    let mut next = Breaking::new(alloc, stopping(3, fault));
    keeps_first(alloc, Plain(&mut writer), Plain(&mut next), fault)
}

/// The same of these two writers.
fn keeps_first<'w>(
    alloc: Global,
    writer: Plain<&'w mut Breaking>,
    next: Plain<&'w mut Breaking>,
    fault: Fault,
) -> Result<bool, EncodeError> {
    let mut encoder = Encoder::new_to(alloc, writer)?;
    let refused = encoder.intern_string("hello") == Err(EncodeError::Writer(kind_of(fault)));
    let reset = match encoder.reset_to(next) {
        Ok(_) => false,
        Err(error) => error == EncodeError::Writer(kind_of(fault)),
    };
    let old = encoder.as_inner().0.bytes.len() == 8 && encoder.bytes_written() == 8;
    let failed = encoder.intern_string("hello") == Err(EncodeError::Failed);
    Ok(refused && reset && old && failed)
}

/// A failed encoder is given a writer that takes all: it begins again there.
pub fn begins_again(alloc: Global, fault: Fault) -> Result<bool, EncodeError> {
    let mut writer = Breaking::new(alloc, stopping(8, fault));
    let mut next = Breaking::new(alloc, SOUND);
    begins_in(alloc, Plain(&mut writer), Plain(&mut next), fault)
}

/// The same of these two writers.
fn begins_in<'w>(
    alloc: Global,
    writer: Plain<&'w mut Breaking>,
    next: Plain<&'w mut Breaking>,
    fault: Fault,
) -> Result<bool, EncodeError> {
    let mut encoder = Encoder::new_to(alloc, writer)?;
    let refused = encoder.intern_string("hello") == Err(EncodeError::Writer(kind_of(fault)));
    let reset = match encoder.reset_to(next) {
        Ok(_) => encoder.bytes_written() == 5,
        Err(_) => false,
    };
    let accepted = encoder.intern_string("hello").is_ok() && encoder.flush().is_ok();
    let written = encoder.as_inner().0.bytes.len() == 23 && encoder.bytes_written() == 23;
    Ok(refused && reset && accepted && written)
}

/// Of a failed encoder that is made one of raw bytes, those are told that it has failed.
pub fn stays_failed_raw(alloc: Global, fault: Fault) -> Result<bool, EncodeError> {
    let mut writer = Breaking::new(alloc, stopping(8, fault));
    let mut encoder = Encoder::new_to(alloc, Plain(&mut writer))?;
    let refused = encoder.intern_string("hello") == Err(EncodeError::Writer(kind_of(fault)));
    let mut raw = encoder.into_raw_encoder();
    let failed = raw.write_raw(&[1, 2]) == Err(EncodeError::Failed);
    let counted = raw.bytes_written() == 8;
    Ok(refused && failed && counted && raw.into_inner().0.bytes.len() == 8)
}

/// Ten raw bytes after a header, of which the writer takes four: nine are counted, and then it has failed.
pub fn counts_raw_bytes(alloc: Global, fault: Fault) -> Result<bool, EncodeError> {
    let mut writer = Breaking::new(alloc, stopping(9, fault));
    let mut raw = Encoder::new_to(alloc, Plain(&mut writer))?.into_raw_encoder();
    let refused = raw.write_raw(&[7; 10]) == Err(EncodeError::Writer(kind_of(fault)));
    let counted = raw.bytes_written() == 9;
    let failed = raw.write_raw(&[7]) == Err(EncodeError::Failed);
    let flushed = raw.flush() == Err(EncodeError::Failed);
    let out = raw.into_inner().0.bytes.len() == 9;
    Ok(refused && counted && failed && flushed && out)
}

/// A flush that fails is a fault of the writer: nothing is counted or sent, and then the encoder has failed.
pub fn fails_by_flush(alloc: Global, kind: ErrorKind) -> Result<bool, EncodeError> {
    let manner = Manner {
        flushing: Some(kind),
        ..SOUND
    };
    let mut writer = Breaking::new(alloc, manner);
    let mut encoder = Encoder::new_to(alloc, Plain(&mut writer))?;
    encoder.intern_string("hello")?;
    let refused = encoder.flush() == Err(EncodeError::Writer(kind));
    let counted = encoder.bytes_written() == 23;
    let failed = encoder.intern_string("world") == Err(EncodeError::Failed);
    let flushed = encoder.flush() == Err(EncodeError::Failed);
    Ok(refused && counted && failed && flushed && encoder.into_inner().0.bytes.len() == 23)
}
