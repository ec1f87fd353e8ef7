//! The words that a program was started with.
use cell_types::{Refusal, memory};
use std::rt::Env;
use std::{env, io};

/// The words behind the program's name. Words that are no UTF-8 are no command.
pub fn words(rt: &(impl Env + AllocGlobal)) -> Result<Vec<String>, Refusal> {
    let mut all = match env::args(rt) {
        Ok(all) => all,
        Err(error) if error.kind() == io::ErrorKind::OutOfMemory => {
            return Err(Refusal::from(memory::lacked_elsewhere()));
        }
        Err(_) => return Err(Refusal::Usage),
    };
    let _ = all.next();
    all.collect(rt.alloc())
        .map_err(|_| Refusal::from(memory::lacked_elsewhere()))
}
