//! One run of a case: its lines are taken one after the other.

use crate::compare::{expect_beginning, expect_end, expect_file, expect_text};
use crate::content::{Bases, take_line};
use crate::devices::{Manner, Paper, Store, disk_of};
use crate::stop::Stop;
use enc_outside::NoMeet;
use enc_top::{Status, print_status, run};
use keep_run::run_keep;
use std::alloc::{AllocError, Global};
use std::collections::BTreeMap;
use std::mem;
use std::sync::Wait;
use std::thread::Threads;

/// What the lines of a content are for.
#[derive(Drop)]
enum Open {
    /// There is no content.
    Nothing,
    /// A file of this name, as it is to be.
    File(String),
    /// The journal, as it is to be.
    Journal,
    /// The output of the last call, or its beginning or end.
    Output(Part),
}

/// How much of an output is expected.
#[derive(Clone, Copy, Debug, PartialEq, Eq)]
enum Part {
    Whole,
    Beginning,
    End,
}

impl Part {
    fn of(word: &str) -> Option<Part> {
        match word {
            "" => Some(Part::Whole),
            "begins" => Some(Part::Beginning),
            "ends" => Some(Part::End),
            _ => None,
        }
    }
}

/// A call that has ended.
#[derive(Drop)]
struct Ended {
    words: Vec<String>,
    store: Store,
    paper: Paper,
    /// The bytes of the journal then.
    journal: Vec<u8>,
    /// The words of its status.
    status: String,
    is_status_said: bool,
    is_output_said: bool,
}

/// A run of a case.
#[derive(Drop)]
pub struct Stage<'a> {
    alloc: Global,
    bases: &'a Bases,
    /// The files as they are to be: those that were given, and what calls are to leave.
    files: BTreeMap<String, Vec<u8>>,
    /// The bytes of the journal as they are to be.
    journal: Vec<u8>,
    manner: Manner,
    open: Open,
    content: Vec<u8>,
    ended: Option<Ended>,
    /// The line that was begun last.
    number: usize,
}

impl<'a> Stage<'a> {
    /// A run of which no line was taken.
    pub fn new(alloc: Global, bases: &'a Bases) -> Stage<'a> {
        Stage {
            alloc,
            bases,
            files: BTreeMap::new(alloc),
            journal: Vec::new(alloc),
            manner: Manner::GOOD,
            open: Open::Nothing,
            content: Vec::new(alloc),
            ended: None,
            number: 0,
        }
    }

    /// The number of the line to which a stop belongs.
    pub fn number(&self) -> usize {
        self.number
    }

    /// Takes a line of the case.
    pub fn take<R: Threads + Wait + Sync>(
        &mut self,
        rt: &R,
        number: usize,
        line: &str,
    ) -> Result<(), Stop> {
        let (word, rest) = line.split_once(' ').unwrap_or((line, ""));
        match word {
            "file" | "journal" | "call" | "store" | "sink" | "disk" | "slowly" => {
                self.settle()?;
                self.number = number;
                self.prepare(rt, word, rest)
            }
            "status" | "output" | "left" | "kept" | "made" | "reads" => {
                self.close()?;
                self.number = number;
                self.expect(word, rest)
            }
            _ => self.take_content(line),
        }
    }

    fn take_content(&mut self, line: &str) -> Result<(), Stop> {
        if let Open::Nothing = self.open {
            return Err(Stop::at_line(self.alloc, "no such line", line));
        }
        take_line(self.alloc, self.bases, &mut self.content, line)
    }

    /// Takes a line that comes before a call, or the call.
    fn prepare<R: Threads + Wait + Sync>(
        &mut self,
        rt: &R,
        word: &str,
        rest: &str,
    ) -> Result<(), Stop> {
        match word {
            "file" => self.open_file(rest),
            "journal" => {
                self.open = Open::Journal;
                Ok(())
            }
            "call" => self.call(rt, rest),
            "slowly" => {
                self.manner.is_slow = true;
                Ok(())
            }
            _ => self.fail_at(word, rest),
        }
    }

    fn open_file(&mut self, name: &str) -> Result<(), Stop> {
        self.open = Open::File(String::from_str(self.alloc, name)?);
        Ok(())
    }

    /// Has a call of a device fail: `fails at K`.
    fn fail_at(&mut self, device: &str, rest: &str) -> Result<(), Stop> {
        let number = rest.strip_prefix("fails at ");
        let Some(call) = number.and_then(|number| number.parse::<u64>().ok()) else {
            return Err(Stop::at_line(self.alloc, "no failing call", rest));
        };
        match device {
            "store" => self.manner.failing_store = call,
            "disk" => self.manner.failing_disk = call,
            _ => self.manner.failing_sink = call,
        }
        Ok(())
    }

    /// Calls the program with the words of a text, on the files as they are to be.
    fn call<R: Threads + Wait + Sync>(&mut self, rt: &R, text: &str) -> Result<(), Stop> {
        let words = words_of(self.alloc, text)?;
        let mut store = Store::of(self.alloc, &self.files, self.manner)?;
        let mut paper = Paper::make(self.alloc, self.manner);
        let Ok(mut disk) = disk_of(self.alloc, &self.journal, self.manner) else {
            return Err(Stop::NoMemory);
        };
        let status = match words.as_slice() {
            [first, ..] if first.as_str() == "keep" => {
                run_keep(rt, self.alloc, &words, &mut store, &mut paper, &mut disk)
            }
            _ => run(rt, self.alloc, &words, &mut store, &mut paper, &NoMeet),
        };
        self.manner = Manner::GOOD;
        self.ended = Some(Ended {
            words,
            store,
            paper,
            journal: Vec::from_slice(self.alloc, disk.bytes())?,
            status: words_of_status(self.alloc, &status)?,
            is_status_said: false,
            is_output_said: false,
        });
        Ok(())
    }

    /// Takes a line that says what the last call is to give or leave.
    fn expect(&mut self, word: &str, rest: &str) -> Result<(), Stop> {
        let Some(ended) = &mut self.ended else {
            return Err(Stop::of(self.alloc, "there is no call before this line"));
        };
        match word {
            "status" => {
                ended.is_status_said = true;
                expect_words(self.alloc, "status", ended.status.as_str(), rest)
            }
            "reads" => {
                let reads = format!(in self.alloc; "{}", ended.store.reads())?;
                expect_words(self.alloc, "reads", reads.as_str(), rest)
            }
            "left" => self.open_file(rest),
            "kept" => {
                self.open = Open::Journal;
                Ok(())
            }
            "made" => self.take_file(rest),
            _ => {
                ended.is_output_said = true;
                self.open_output(rest)
            }
        }
    }

    /// Takes in a file that the last call made, whatever its content is: `NAME`, or `NAME of N bytes`.
    fn take_file(&mut self, rest: &str) -> Result<(), Stop> {
        let (name, size) = rest.split_once(" of ").unwrap_or((rest, ""));
        let made = self.ended.as_ref().and_then(|ended| ended.store.file(name));
        let Some(content) = made else {
            return Err(Stop::at_line(self.alloc, "no file", name));
        };
        if !size.is_empty() {
            let found = format!(in self.alloc; "{} bytes", content.len())?;
            expect_words(self.alloc, "size", found.as_str(), size)?;
        }
        let content = Vec::from_slice(self.alloc, content)?;
        let name = String::from_str(self.alloc, name)?;
        self.files.insert(name, content)?;
        Ok(())
    }

    fn open_output(&mut self, part: &str) -> Result<(), Stop> {
        match Part::of(part) {
            Some(part) => {
                self.open = Open::Output(part);
                Ok(())
            }
            None => Err(Stop::at_line(self.alloc, "no such part of an output", part)),
        }
    }

    /// Ends a content: it is a file, or it is compared with the output.
    fn close(&mut self) -> Result<(), Stop> {
        let content = mem::replace(&mut self.content, Vec::new(self.alloc));
        match mem::replace(&mut self.open, Open::Nothing) {
            Open::Nothing => Ok(()),
            Open::File(name) => {
                self.files.insert(name, content)?;
                Ok(())
            }
            Open::Journal => {
                self.journal = content;
                Ok(())
            }
            Open::Output(part) => self.expect_output(part, &content),
        }
    }

    fn expect_output(&self, part: Part, expected: &[u8]) -> Result<(), Stop> {
        let Some(ended) = &self.ended else {
            return Ok(());
        };
        let found = ended.paper.bytes();
        match part {
            Part::Whole => expect_text(self.alloc, found, expected),
            Part::Beginning => expect_beginning(self.alloc, found, expected),
            Part::End => expect_end(self.alloc, found, expected),
        }
    }

    /// Ends what is said of the last call: what wasn't said of it is that nothing came.
    pub fn settle(&mut self) -> Result<(), Stop> {
        self.close()?;
        let Some(ended) = self.ended.take() else {
            return Ok(());
        };
        if !ended.is_status_said {
            return Err(Stop::of(self.alloc, "the call has no status"));
        }
        if !ended.is_output_said {
            expect_text(self.alloc, ended.paper.bytes(), b"")?;
        }
        self.expect_files(&ended)?;
        expect_file(
            self.alloc,
            "the journal",
            Some(ended.journal.as_slice()),
            &self.journal,
        )
    }

    /// The files are as they are to be, and no others were made.
    fn expect_files(&self, ended: &Ended) -> Result<(), Stop> {
        for (name, content) in self.files.iter() {
            let found = ended.store.file(name.as_str());
            expect_file(self.alloc, name.as_str(), found, content)?;
        }
        for word in &ended.words {
            let is_known = self.files.contains_key(word.as_str());
            if !is_known && ended.store.file(word.as_str()).is_some() {
                return Err(Stop::at_line(self.alloc, "a file was made", word.as_str()));
            }
        }
        Ok(())
    }
}

/// The words of a text with spaces between them.
fn words_of(alloc: Global, text: &str) -> Result<Vec<String>, AllocError> {
    let mut words = Vec::new(alloc);
    for word in text.split_whitespace() {
        words.push(String::from_str(alloc, word)?)?;
    }
    Ok(words)
}

/// The line of a status without the program's name, or `done`.
fn words_of_status(alloc: Global, status: &Status) -> Result<String, AllocError> {
    let mut line = Vec::new(alloc);
    print_status(alloc, status, &mut line)?;
    let line = String::from_utf8_lossy(alloc, &line)?;
    let words = line.as_str().trim_end().strip_prefix("enc_cell: ");
    String::from_str(alloc, words.unwrap_or("done"))
}

/// Words are the expected ones.
fn expect_words(alloc: Global, what: &str, found: &str, expected: &str) -> Result<(), Stop> {
    if found == expected {
        return Ok(());
    }
    Err(Stop::Differs(format!(in alloc; "{what} is \"{found}\", expected \"{expected}\"")?))
}
