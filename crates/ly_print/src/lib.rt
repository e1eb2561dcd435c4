//! Printing: from values to printed bytes, and from bytes to devices and back.
//!
//! `write_whole` and `read_whole` write and read all bytes of a device that counts its failures. On success all bytes
//! were transferred; on an error exactly a stated prefix was. A device error is reported only if the device failed.
//! `push_leaf` and its like print the tokens of a text. `TextWriter` writes a long text while it is printed, and copies
//! short parts of it as blocks (`Front`, `Label`).
//!
//! A `push_` function that appends to a vector leaves open how much it has appended when memory runs out: the caller
//! drops the buffer. A token that is UTF-8 is printed in JSON as `"text"`, and any other as `"bytes"`, a list of
//! numbers, so JSON output is always valid Unicode.
//!
//! Not covered: what a real file or terminal does with the bytes. Its reads and writes are trusted.
#![tactic(auto)]

mod answer_form;
mod byte_form;
mod counted;
mod device;
mod front;
mod json;
mod label;
mod laws;
mod memory;
mod room;
mod text;
mod text_writer;
mod texts;
mod whole;

pub use answer_form::AnswerForm;
pub use counted::Counted;
pub use device::{DeviceFailed, Sink, Source};
pub use front::Front;
pub use json::{is_utf8, push_json_content, push_json_location, push_json_name, push_json_string};
pub use label::Label;
pub use laws::{are_bytes, counting_keeps_what_is_known, memory_is_known};
pub use memory::{MemSink, MemSource};
pub use text::{Terminal, push_escaped, push_leaf, push_name, push_no_rule_line};
pub use text_writer::TextWriter;
pub use texts::Texts;
pub use whole::{ReadFault, WriteFault, read_whole, write_whole};
