//! What is printed of a row.

use fund_base::Memory;
use fund_shelf::{Fault, StdSink, put_all};
use itoa::Buffer;
use std::alloc::Global;
use std::io;
use std::io::ErrorKind;

/// The text that is printed of a row. Where there isn't enough memory it remembers so, and has a part of the text.
#[derive(Drop)]
pub struct Answer {
    /// Where what an answer needs is made.
    pub alloc: Global,
    text: Vec<u8>,
    is_short: bool,
}

impl Answer {
    /// An empty one.
    pub fn new(alloc: Global) -> Answer {
        Answer {
            alloc,
            text: Vec::new(alloc),
            is_short: false,
        }
    }

    /// Remembers that there isn't enough memory.
    pub fn lack(&mut self) {
        self.is_short = true;
    }

    /// Remembers that there isn't enough memory where a call says so.
    pub fn end(&mut self, ended: Result<(), Memory>) {
        if ended.is_err() {
            self.lack();
        }
    }

    /// Puts bytes.
    pub fn put(&mut self, bytes: &[u8]) {
        if self.text.extend_from_slice(bytes).is_err() {
            self.lack();
        }
    }

    /// Puts a word.
    pub fn word(&mut self, word: &str) {
        self.put(word.as_bytes());
    }

    /// Puts a word, and another that was made.
    pub fn words(&mut self, word: &str, made: Result<String, Memory>) {
        self.word(word);
        match made {
            Ok(made) => self.word(made.as_str()),
            Err(Memory) => self.lack(),
        }
    }

    /// Puts a word, and bytes that were made.
    pub fn bytes(&mut self, word: &str, made: Result<Vec<u8>, Memory>) {
        self.word(word);
        match made {
            Ok(made) => self.put(&made),
            Err(Memory) => self.lack(),
        }
    }

    /// Puts a word and a number.
    pub fn number(&mut self, word: &str, number: u64) {
        self.word(word);
        self.word(Buffer::new().format(number));
    }

    /// Puts a word and a number of up to 128 bits.
    pub fn large(&mut self, word: &str, number: u128) {
        self.word(word);
        self.word(Buffer::new().format(number));
    }

    /// Puts a word and a number that may be below 0.
    pub fn signed(&mut self, word: &str, number: i128) {
        self.word(word);
        self.word(Buffer::new().format(number));
    }

    /// Puts a word and whether something is so.
    pub fn flag(&mut self, word: &str, is_so: bool) {
        self.word(word);
        self.word(if is_so { "true" } else { "false" });
    }

    /// Puts a word and bytes in hex, `-` where there are none.
    pub fn digits(&mut self, word: &str, bytes: &[u8]) {
        self.word(word);
        match hex::encode(self.alloc, bytes) {
            Ok(digits) => self.word(digits.as_str()),
            Err(_) => self.lack(),
        }
        if bytes.is_empty() {
            self.word("-");
        }
    }

    /// Puts a word, and bytes that were made in hex.
    pub fn written(&mut self, word: &str, bytes: Result<Vec<u8>, Memory>) {
        match bytes {
            Ok(bytes) => self.digits(word, &bytes),
            Err(Memory) => self.lack(),
        }
    }

    /// Puts a text that was written of what was read, where it isn't the text that this was read from.
    pub fn again(&mut self, read: &[u8], written: &[u8]) {
        if written != read {
            self.word("\nwritten ");
            self.put(written);
        }
    }

    /// Puts a word, and places with blanks between them; `-` where there are none.
    pub fn places(&mut self, word: &str, places: &[u32]) {
        self.word(word);
        for number in 0..places.len() {
            self.number(if number > 0 { " " } else { "" }, u64::from(places[number]));
        }
        if places.is_empty() {
            self.word("-");
        }
    }

    /// Puts a word, and such places or `none`.
    pub fn best(&mut self, word: &str, places: Option<&[u32]>) {
        match places {
            Some(places) => self.places(word, places),
            None => {
                self.word(word);
                self.word("none");
            }
        }
    }

    /// Puts a word and the text of another answer.
    pub fn add(&mut self, word: &str, other: &Answer) {
        self.word(word);
        self.put(other.text.as_slice());
        if other.is_short {
            self.lack();
        }
    }

    /// The text so far.
    pub fn text(&self) -> &[u8] {
        self.text.as_slice()
    }

    /// Ends the last line of the text, where it has no end.
    pub fn end_line(&mut self) {
        if self.text.last() != Some(&b'\n') {
            self.word("\n");
        }
    }

    /// The text, in which each line has its end. The error is out of memory.
    pub fn lines(&mut self) -> Result<&[u8], Memory> {
        self.end_line();
        if self.is_short {
            return Err(Memory);
        }
        Ok(self.text.as_slice())
    }

    /// Prints the text. The error is out of memory, or of an output that takes no more.
    pub fn print(&self, rt: &HostRuntime) -> io::Result<()> {
        if self.is_short {
            return Err(io::Error::from(ErrorKind::OutOfMemory));
        }
        match put_all(&mut StdSink::new(rt), &self.text) {
            Ok(()) => Ok(()),
            Err(Fault::Memory) => Err(io::Error::from(ErrorKind::OutOfMemory)),
            Err(Fault::Failed) => Err(io::Error::from(ErrorKind::BrokenPipe)),
        }
    }
}
