// The words.
ghost use Rattle.std.specs.Prelude.{◌≡◌, ℕ, ◌-◌, ◌<◌, ◌≤◌};
ghost use Rattle.database.specs.State.{NoWay, map_in, road_in, words_in};
ghost use Rattle.messages.specs.Values.{entry_of};
ghost use Rattle.model.specs.Flood.{row};
ghost use Rattle.model.specs.Words.{unsaid};
ghost use Rattle.ways.specs.Table.{Found};

use crate::table::RoutingTable;
use messages::{Word, WordId};
use ways::Words;

// `counts`, `tags`, `costs`: the newest word of each box, count 0 for none.
// Kept: arrays side by side in place of one of words, since `ways` is lent the counts, the tags and the costs as slices, as its C interface has them.
#[derive(Clone, Copy, Debug, PartialEq, Eq)]
pub struct Database {
    pub(crate) counts: [u64; 64],
    pub(crate) tags: [u64; 64],
    pub(crate) costs: [[u16; 64]; 64],
}

impl Database {
    // No word of any box.
    pub fn new() -> Database
        ensures { (i : ℕ) → words_in result i ≡ unsaid }
    {
        Database {
            counts: [0; 64],
            tags: [0; 64],
            costs: [[0; 64]; 64],
        }
    }

    // From now on it has this word of the box that the word is about.
    pub fn put(&mut self, word: Word)
        ensures has { word.id.about < 64 → (i : ℕ) → words_in self.new i ≡ row word.id.about (entry_of word) (words_in self.old) i }
        ensures beyond { 64 ≤ word.id.about → self.new ≡ self.old }
    {
        let about = usize::from(word.id.about);
        if about < 64 {
            self.counts[about] = word.id.count;
            self.tags[about] = word.id.tag;
            let costs = word.costs;
            self.costs[about] = costs;
        }
    }

    // The numbers of the word that it has of a box, count 0 for none.
    pub fn id_of(&self, about: u8) -> WordId
        ensures { result ≡ record { about = about; count = (words_in self.now about).number; tag = (words_in self.now about).tag } }
    {
        let place = usize::from(about);
        WordId {
            about,
            count: self.counts.get(place).copied().unwrap_or(0),
            tag: self.tags.get(place).copied().unwrap_or(0),
        }
    }

    // The word that it has of a box, count 0 for none.
    pub fn word(&self, about: u8) -> Word
        ensures is { entry_of result ≡ words_in self.now about }
        ensures about { result.id.about ≡ about }
    {
        Word {
            id: self.id_of(about),
            costs: self
                .costs
                .get(usize::from(about))
                .copied()
                .unwrap_or([0; 64]),
        }
    }

    // What the road from a to e costs by the word of a, 0 for no road.
    pub fn cost(&self, a: u8, e: u8) -> u16
        ensures { result ≡ (words_in self.now a).road e }
    {
        self.costs
            .get(usize::from(a))
            .and_then(|row| row.get(usize::from(e)))
            .copied()
            .unwrap_or(0)
    }

    // What it costs where the words of both ends have it, 0 where not.
    pub fn road(&self, a: u8, e: u8) -> u16
        ensures { result ≡ road_in a e self.now }
    {
        if self.cost(e, a) == 0 {
            0
        } else {
            self.cost(a, e)
        }
    }

    // How far each of n boxes is from number `me` by the words, and the next box towards it; no way where there is no such box among n.
    pub fn ways(&self, n: u8, me: u8) -> RoutingTable
        ensures found { n ≤ 64 → me ≤ n - 1 → Found (map_in n self.now) me result.far result.next }
        ensures none { n ≤ me → NoWay result }
        ensures many { 64 < n → NoWay result }
    {
        let mut far = [ways::NEVER; 64];
        let mut next = [ways::NONE; 64];
        let words = Words {
            counts: &self.counts,
            tags: &self.tags,
            costs: &self.costs,
        };
        let _ = ways::least_ways(n, me, words, &mut far, &mut next);
        RoutingTable { far, next }
    }
}
