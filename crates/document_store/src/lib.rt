//! Reads the documents of a volume and checks them, each of their cells once.
//!
//! A document lies in the cells of its slot, before the journal. Its content cells spell its stored bytes:
//! the length of the identifier in one byte, the identifier, and the body. Slot 0 with the document `a`,
//! `hello world`:
//!
//!     cell 4      reserve cell     580, 4 cells
//!     cell 5      commit cell      13 stored bytes, 3 journal cells
//!     cell 580    content cell     01 61 68 65 6c 6c 6f 20 77 6f 72 6c 64
//!
//! A done slot **holds** a document if each of these cells is the right content cell for its place, and if
//! together they spell an identifier of 1 to 200 printing characters and a body of at most 1,048,576 bytes,
//! in exactly the number of bytes that the commit cell states. If it holds none, its commit cell is named,
//! by rule 4. Any cell may be a forgery. What a call found stands when it ends. What it found missing was
//! missing when it began.
//!
//! Call `slot_part` first: it says where the document lies, if the slot is done. The part that it answers is
//! handed to each call after it, and no cell of the slot's state is read again. `same_identifier` compares the
//! identifier, `check` and `read_part` read the document whole, `body_into` puts its body out, checked before,
//! and `put_part` that of a document that was read whole already. `take_part` gives head and body in one
//! pass, and `next_row` reads in pieces, of which `head_of_row` reads the head off the first. `name_commit`
//! names the commit cell of a document that is broken.
//!
//! Stands on `append_file`, which reads bytes from cells, `commit_record`, which reads states of slots, and
//! `host_ports`, whose sink takes a body. Begin with `part.rt`. `specs/Standing.antt` says what it means to
//! hold a document, and `specs/Looks.antt` how each call may end.
#![tactic(auto)]

mod body;
mod checked;
mod head;
mod identifier;
mod laws;
mod part;
mod putting;
mod text;

pub use append_file::{ContentFault, Position, ROW_BYTES, next_row};
pub use body::{BodyFault, body_into, put_part, take_part};
pub use checked::{Stored, check};
pub use head::{Head, head_of_row, identifier_of_head, read_document, read_head};
pub use identifier::{identifier_of, is_identifier, same_identifier};
pub use laws::{held_is_one, held_is_standing, held_stays};
pub use part::{Part, name_commit, part_of_state, read_part, slot_part};
pub use text::Text;
