// The map of a box as a Graphviz digraph.
use crate::book;
use chart::is_taken;
use journal::{Memory, Outcome};
use std::io;

// The box of the journal, and those that it has a word of.
fn draw_boxes(rt: &HostRuntime, memory: &Memory) -> io::Result<()> {
    for a in 0..memory.boxes() {
        if a == memory.number() {
            println!(rt; "  {a} [shape=doublecircle];")?;
        } else if memory.word(a).is_some() {
            println!(rt; "  {a};")?;
        }
    }
    Ok(())
}

fn draw_roads(rt: &HostRuntime, memory: &Memory) -> io::Result<()> {
    book::each_road(memory, |a, e, cost| {
        let mark = if is_taken(memory, a, e) {
            ", color=red, penwidth=2"
        } else {
            ""
        };
        println!(rt; "  {a} -> {e} [label=\"{cost}\"{mark}];")
    })
}

pub(crate) fn draw(rt: &HostRuntime, book: &Outcome) -> io::Result<()> {
    println!(rt; "digraph map {{")?;
    draw_boxes(rt, &book.memory)?;
    draw_roads(rt, &book.memory)?;
    println!(rt; "}}")?;
    match book::fault_of(book) {
        Some(wrong) => println!(rt; "// {wrong}"),
        None => Ok(()),
    }
}
