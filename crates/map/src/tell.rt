// The map and the ways of a box, line by line.
use crate::book;
use chart::Way;
use journal::{Memory, Outcome};
use std::io;

fn tell_roads(rt: &HostRuntime, memory: &Memory) -> io::Result<()> {
    book::each_road(memory, |a, e, cost| println!(rt; "road {a} {e} {cost}"))
}

fn tell_ways(rt: &HostRuntime, memory: &Memory) -> io::Result<()> {
    for to in 0..memory.boxes() {
        if to == memory.number() {
            continue;
        }
        match Way::to(memory, to) {
            Some(Way { by, cost }) => println!(rt; "way {to} by {by} cost {cost}")?,
            None => println!(rt; "no way {to}")?,
        }
    }
    Ok(())
}

// What was so, and then what is wrong with the line after it, if anything is.
pub(crate) fn tell(rt: &HostRuntime, book: &Outcome) -> io::Result<()> {
    tell_roads(rt, &book.memory)?;
    tell_ways(rt, &book.memory)?;
    match book::fault_of(book) {
        Some(wrong) => println!(rt; "{wrong}"),
        None => Ok(()),
    }
}
