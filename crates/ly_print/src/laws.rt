ghost use Rattle.std.specs.Prelude.{◌≡◌, ◌<◌, All, Some};
ghost use Rattle.ly_print.specs.Counted.{device_of};
ghost use Rattle.ly_print.specs.MemSink.{written};
ghost use Rattle.ly_print.specs.MemSource.{unread};
ghost use Rattle.ly_print.specs.declared.counted.Counted.{Counted};
ghost use Rattle.ly_print.specs.declared.memory.MemSink.{MemSink};
ghost use Rattle.ly_print.specs.declared.memory.MemSource.{MemSource};

use crate::counted::Counted;
use crate::device::{Sink, Source};
use crate::memory::{MemSink, MemSource};
use std::io::{Read, Write};

/// If the bytes of a reader or a writer are known, they are known after it is wrapped to count its failures.
pub fn counting_keeps_what_is_known<R: Read, W: Write>()
    ensures remaining { (c : Counted R) → ⟦<Counted<R> as Source>⟧.remaining c ≡ R.remaining (device_of c) }
    ensures contents { (c : Counted W) → ⟦<Counted<W> as Sink>⟧.contents c ≡ W.contents (device_of c) }
{}

/// For memory all bytes are known: those that are left to read, and those that were written.
pub fn memory_is_known()
    ensures remaining { (s : MemSource) → ⟦<MemSource<'static> as Source>⟧.remaining s ≡ Some (unread s) }
    ensures contents { (s : MemSink) → ⟦<MemSink as Sink>⟧.contents s ≡ Some (written s) }
{}

/// Bytes are numbers below 256, by their type.
pub fn are_bytes(bytes: &[u8])
    ensures { All (λ byte. byte < 256) bytes.now }
{}
