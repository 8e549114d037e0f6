// The words of a packet are taken, one after the other.
ghost use Rattle.std.specs.Prelude.{◌≡◌, ℕ, take, None, slice_index_or};
ghost use Rattle.linkmodel.specs.Station.{marks_item, takes_all, takes_item};
ghost use Rattle.messages.specs.Values.{ids_of};
ghost use Rattle.router.specs.State.{box_of, id_refusal};
ghost use Rattle.station.specs.Hearing.{outcome_if, outcomes_in};
ghost use Rattle.station.specs.Packets.{GoodFrom};
ghost use Rattle.station.specs.Ticking.{item_of, words_in};

use crate::seens;
use messages::{Word, Words};
use router::{Outcome, Router};

// One word of a neighbour, whose numbers aren't refused; it isn't taken if the box would have to say a count that it cannot.
fn take_one(router: Router, from: u8, word: Word, tag: u64) -> (Router, Option<Outcome>)
    requires { id_refusal from word.id (box_of router) ≡ None }
    ensures is { box_of result.0 ≡ takes_item from (item_of word) tag (box_of router) }
    ensures outcome { result.1 ≡ outcome_if from word (box_of router) }
{
    match router.takes(from, word, tag) {
        Ok((next, outcome)) => (next, Some(outcome)),
        Err(_) => (router, None),
    }
}

// And it shows that who told it has it, if the packet carries the number last heard of that box: another is of an earlier life.
fn hear_one(router: Router, from: u8, word: Word, tag: u64, fits: bool) -> (Router, Option<Outcome>)
    requires { id_refusal from word.id (box_of router) ≡ None }
    ensures is { box_of result.0 ≡ marks_item fits from (item_of word) (takes_item from (item_of word) tag (box_of router)) }
    ensures outcome { result.1 ≡ outcome_if from word (box_of router) }
{
    let (next, outcome) = take_one(router, from, word, tag);
    if fits {
        (seens::seen_one(next, from, word.id), outcome)
    } else {
        (next, outcome)
    }
}

// All words of a packet, each with a tag of its own for the word that it may make the box say.
// Kept: a zip of the words, the tags and the places of the outcomes gives pairs of pairs, which reads no plainer than one index into the two arrays.
pub(crate) fn hear_all(
    router: Router,
    from: u8,
    words: Words,
    tags: [u64; 4],
    fits: bool,
) -> (Router, [Option<Outcome>; 4])
    requires { GoodFrom from words.count (ids_of words.items) (box_of router) }
    ensures is { box_of result.0 ≡ takes_all fits from (words_in words.count words.items) (take words.count tags) (box_of router) }
    ensures outcomes { (j : ℕ) → slice_index_or result.1 j None ≡ slice_index_or (outcomes_in fits from words.count words.items tags (box_of router)) j None }
{
    let told = words.held();
    let mut next = router;
    let mut outcomes = [None; 4];
    for (k, word) in told.iter().enumerate() {
        let (heard, outcome) = hear_one(next, from, *word, tags[k], fits);
        next = heard;
        outcomes[k] = outcome;
    }
    (next, outcomes)
}
