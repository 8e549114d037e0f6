// Which box lacks which word that another has.
use crate::book;
use chart::{Held, newest};
use journal::Memory;
use std::io;

// Whether a book's box lacks the newest word of the box `about`, with a line for each that does.
fn tell_lacking(rt: &HostRuntime, books: &[Memory], about: u8) -> io::Result<bool> {
    let all: Vec<Held> = books
        .iter()
        .map(|memory| Held::of(memory, about))
        .collect(rt.alloc())?;
    let Some((first, others)) = all.as_slice().split_first() else {
        return Ok(false);
    };
    let best = newest(*first, others);
    let mut lacking = false;
    for held in all.as_slice() {
        if held.lacks(best) {
            lacking = true;
            let word = best.word;
            println!(rt;
                "box {} lacks the word {} {:016x} of {about}, which box {} has",
                held.by, word.count, word.tag, best.by
            )?;
        }
    }
    Ok(lacking)
}

pub(crate) fn compare(rt: &HostRuntime, files: &[String]) -> io::Result<()> {
    let mut books = Vec::new(rt.alloc());
    for file in files {
        let book = book::open(rt, file.as_str(), u32::MAX)?;
        if let Some(wrong) = book::fault_of(&book) {
            println!(rt; "book {file}: {wrong}")?;
        }
        if book.memory.boxes() == 0 {
            println!(rt; "book {file}: names no box")?;
        } else {
            books.push(book.memory)?;
        }
    }
    let mut lacking = false;
    for about in 0..64 {
        lacking |= tell_lacking(rt, books.as_slice(), about)?;
    }
    if lacking {
        return Ok(());
    }
    println!(rt; "all have the same words")
}
