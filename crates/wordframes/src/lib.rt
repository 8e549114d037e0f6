// The bytes of words and of what was seen: values to bytes and back.
//
// It knows the values and the numbers of several bytes, and nothing of other frames. It promises what is read for every list of bytes, and what is written.
#![tactic(auto)]

mod batch;
mod id_bytes;
mod roads_bytes;
mod seens_bytes;
mod words_bytes;

pub use seens_bytes::{put_seens, read_seens};
pub use words_bytes::{put_word, put_words, read_word, read_words, word_length};
