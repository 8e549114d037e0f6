// Reads the journals of boxes, and prints the map and the ways that a box had, or who lacks which word.
//
// A thin program over what is proved of journals: it reads files and prints.
#![tactic(auto)]

mod book;
mod compare;
mod draw;
mod tell;

use journal::Outcome;
use std::{env, fmt, io};

const HELP: &str = "map BOOK [TICK]: the map and the ways that a box had, by its journal.
map --dot BOOK [TICK]: the same map for Graphviz, as in: map --dot BOOK | dot -Tpng >map.png
map --compare BOOK BOOK ..: which box lacks which word that another has.

BOOK is the journal file of a box. With TICK, a number up to 4294967295, its later lines are left
out; else it is read to its end. What is printed:
  road A E COST              the words of A and E have a road, and from A it costs COST
  way D by NEXT cost C       the least way to box D costs C, and NEXT is the next box on it
  no way D                   no way leads to box D
  fault NUMBER at PLACE      the line at byte PLACE, from 0, cannot be read, and it was read up to
                             there; NUMBER: 1 for a bad form, 2 for a number out of range, 11 for
                             a count that is too large
With --dot the box of the journal has a double circle, and the roads on its least ways are red; a
fault is a comment. With --compare every book is read to its end:
  box B lacks the word COUNT TAG of I, which box C has
                             the newest word of box I that a book has; B has an older or none
  all have the same words    no box lacks a word that another has
  book FILE: fault NUMBER at PLACE
                             the book counts up to there
  book FILE: names no box    the book doesn't begin with a line of its box, and doesn't count
";

// Says on standard error what is wrong with how the program was called.
fn refuse(rt: &HostRuntime, why: impl fmt::Display + Drop) -> io::Result<()> {
    eprintln!(rt; "map: {why}; map --help says how to use it")?;
    Err(io::Error::from(io::ErrorKind::InvalidInput))
}

// The words after the program's own name.
fn words(rt: &HostRuntime) -> io::Result<Vec<String>> {
    let mut args = env::args(rt)?;
    let _program = args.next();
    Ok(args.collect(rt.alloc())?)
}

// Shows a book, up to a tick if there is one.
fn one_book<F: Fn(&HostRuntime, &Outcome) -> io::Result<()> + Drop>(
    rt: &HostRuntime,
    words: &[String],
    show: F,
) -> io::Result<()>
    requires { F.IsAlwaysCallable show }
{
    match words {
        [] => refuse(rt, "no book is given"),
        [file] => show(rt, &book::open(rt, file.as_str(), u32::MAX)?),
        [file, tick] => match book::tick(tick.as_str()) {
            Some(until) => show(rt, &book::open(rt, file.as_str(), until)?),
            None => refuse(
                rt,
                format_args!("'{tick}' is no tick, a number up to 4294967295"),
            ),
        },
        _ => refuse(rt, "at most one book and one tick"),
    }
}

fn main(rt: HostRuntime) -> io::Result<()> {
    let words = words(&rt)?;
    let words = words.as_slice();
    let Some((first, others)) = words.split_first() else {
        return refuse(&rt, "no book is given");
    };
    match first.as_str() {
        "--help" => rt.print(HELP),
        "--dot" => one_book(&rt, others, draw::draw),
        "--compare" => {
            if others.len() < 2 {
                return refuse(&rt, "to compare takes two books at least");
            }
            compare::compare(&rt, others)
        }
        word => {
            if word.starts_with("--") {
                return refuse(&rt, format_args!("there is no option '{word}'"));
            }
            one_book(&rt, words, tell::tell)
        }
    }
}
