//! The lines and the fields of a packet file.
//!
//! What a text is cut into, and what one field says: [`whole_line`] cuts at LF, [`line_text`] tests a line's bytes and its
//! length, [`split_fields`] cuts it at spaces; a field is a [`number`], an [`address`] or hexadecimal digits, [`bytes_read`]
//! and [`payload_read`]. Each answers what `specs/Fields.antt` and `specs/Values.antt` read there, or the [`LineFault`] that
//! comes first; a function that allocates answers a [`ReadFault`], by which memory may have run out too. Bytes are written by
//! [`digits_of_run`] and [`hex_text`], as `specs/Spelling.antt` says.
//!
//! Layers, lowest first: `fault` (what can be wrong), `fields` (lines, fields and numbers), `digits` (hexadecimal digits, side
//! by side), `values` (addresses and bytes), `window` and `window_digits` (the same at a place of a text's first bytes).

mod digits;
mod fault;
mod fields;
mod values;
mod window;
mod window_digits;

pub use digits::{BYTES, digits_of_run};
pub use fault::{BadLine, LineFault, ReadFault, ScriptFault};
pub use fields::{line_text, number, split_fields, whole_line};
pub use values::{address, bytes_read, hex_text, payload_read};
pub(crate) use window::{WINDOW, address_at, ended_at, small_at, spaced_at};
pub(crate) use window_digits::{ROOM, payload_at};
