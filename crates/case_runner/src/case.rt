// A case, and the lines that describe it.
use crate::text::{put_expected, put_line};
use dump_io::{Limits, dec_u64};
use std::alloc::{AllocError, Global};

/// The limits of a run, which a case may lower.
#[derive(Clone, Copy)]
pub struct Bounds {
    pub dump: u64,
    pub header: u16,
    pub sections: u32,
    pub pool: u32,
    pub section: u32,
    pub dense: u32,
}

impl Bounds {
    fn usual() -> Bounds {
        let usual = Limits::usual();
        Bounds {
            dump: usual.dump(),
            header: usual.header(),
            sections: usual.sections(),
            pool: usual.pool(),
            section: usual.section(),
            dense: usual.dense(),
        }
    }

    /// The limits with these numbers, if they are limits.
    pub fn limits(&self) -> Option<Limits> {
        Limits::new(
            self.dump,
            self.header,
            self.sections,
            self.pool,
            self.section,
            self.dense,
        )
    }

    // Lowers the limit with this name. Returns `None` if there
    // is no such limit, or if the number isn't one of its type.
    fn lower(&mut self, name: &str, number: u64) -> Option<()> {
        match name {
            "dump" => self.dump = number,
            "header" => self.header = u16::try_from(number).ok()?,
            "sections" => self.sections = u32::try_from(number).ok()?,
            "pool" => self.pool = u32::try_from(number).ok()?,
            "section" => self.section = u32::try_from(number).ok()?,
            "dense" => self.dense = u32::try_from(number).ok()?,
            _ => return None,
        }
        Some(())
    }
}

/// Words, the dump on which they run, and what they leave.
#[derive(Drop)]
pub struct Case {
    pub name: String,
    pub words: Vec<String>,
    pub dump: Vec<u8>,
    /// Whether the dump is that of the case before.
    is_same_dump: bool,
    /// Whether the case runs only once, as it is.
    pub is_once: bool,
    /// The lengths of the prefixes of the dump on which the case runs, if it doesn't run on the whole dump.
    pub fronts: Option<(usize, usize)>,
    /// The case runs with reads of each size below this one, besides those with which all do.
    pub cuts: usize,
    pub bounds: Bounds,
    pub taken: u64,
    pub status: u64,
    pub out: Vec<u8>,
    pub err: Vec<u8>,
}

impl Case {
    pub fn new(alloc: Global) -> Case {
        Case {
            name: String::new(alloc),
            words: Vec::new(alloc),
            dump: Vec::new(alloc),
            is_same_dump: true,
            is_once: false,
            fronts: None,
            cuts: 0,
            bounds: Bounds::usual(),
            taken: u64::MAX,
            status: 0,
            out: Vec::new(alloc),
            err: Vec::new(alloc),
        }
    }

    /// Whether the command of the case writes while it reads.
    pub fn streams(&self) -> bool {
        match self.words.first() {
            Some(name) => name.as_str() == "redact",
            None => false,
        }
    }

    /// Gives the case the words of `peek` that must leave the same: for `term`, and for all roots of `stack`, `dict`
    /// and `mail`, of a dump that isn't truncated. Returns `false` if there are none. Where the case is refused `peek`
    /// may not be; it may take more, and has the usual limits, since the lines that it gathers end in CR and LF.
    pub fn turn_to_peek(&mut self, alloc: Global) -> Result<bool, AllocError> {
        if self.status != 0 || !has_end(&self.dump) {
            return Ok(false);
        }
        let Some(words) = peek_words(alloc, self.words.as_slice())? else {
            return Ok(false);
        };
        self.words = words;
        self.taken = u64::MAX;
        self.bounds = Bounds::usual();
        Ok(true)
    }

    /// Begins the next case, on the same dump.
    pub fn begin(&mut self, alloc: Global, name: &str) -> Result<(), AllocError> {
        self.name = String::from_str(alloc, name)?;
        self.words.clear();
        self.is_same_dump = true;
        self.is_once = false;
        self.fronts = None;
        self.cuts = 0;
        self.bounds = Bounds::usual();
        self.taken = u64::MAX;
        self.status = 0;
        self.out.clear();
        self.err.clear();
        Ok(())
    }

    /// Takes a line of the case. Returns `false` if the line doesn't belong to a case.
    pub fn take(&mut self, alloc: Global, line: &str) -> Result<bool, AllocError> {
        let (word, rest) = line.split_once(' ').unwrap_or((line, ""));
        if let Some(kind) = word.strip_prefix('|') {
            self.begin_dump();
            return put_line(&mut self.dump, kind, rest);
        }
        if let Some(kind) = word.strip_prefix('>') {
            return put_expected(&mut self.out, kind, rest);
        }
        if let Some(kind) = word.strip_prefix('!') {
            return put_expected(&mut self.err, kind, rest);
        }
        match word {
            "words" => self.take_words(alloc, rest)?,
            "word" => self.words.push(String::from_str(alloc, rest)?)?,
            "heap" => self.take_heap(alloc, rest)?,
            _ => return Ok(self.take_setting(word, rest).is_some()),
        }
        Ok(true)
    }

    // Begins a dump of a version with a process and the header of its heap.
    fn take_heap(&mut self, alloc: Global, version: &str) -> Result<(), AllocError> {
        self.begin_dump();
        let lines = format!(in alloc;
            "=erl_crash_dump:{version}\n=proc:<0.1.0>\n=proc_heap:<0.1.0>\n"
        )?;
        self.dump.extend_from_slice(lines.as_bytes())
    }

    fn take_words(&mut self, alloc: Global, rest: &str) -> Result<(), AllocError> {
        for word in rest.split_whitespace() {
            self.words.push(String::from_str(alloc, word)?)?;
        }
        Ok(())
    }

    // Lowers a limit. Returns `None` if there is no such limit, or if it may not have this number.
    fn take_limit(&mut self, rest: &str) -> Option<()> {
        let (name, number) = rest.split_once(' ')?;
        let mut bounds = self.bounds;
        bounds.lower(name, dec_u64(number.as_bytes())?)?;
        bounds.limits()?;
        self.bounds = bounds;
        Some(())
    }

    // Returns `None` if there is no such setting.
    fn take_setting(&mut self, word: &str, rest: &str) -> Option<()> {
        match word {
            "limit" => self.take_limit(rest)?,
            "taken" => self.taken = dec_u64(rest.as_bytes())?,
            "status" => self.status = dec_u64(rest.as_bytes())?,
            "once" => self.is_once = true,
            "cuts" => self.cuts = length_of(rest)?,
            "fronts" => {
                let (from, upto) = rest.split_once(' ')?;
                self.fronts = Some((length_of(from)?, length_of(upto)?));
            }
            _ => return None,
        }
        Some(())
    }

    // The first line of a dump ends the dump of the case before.
    fn begin_dump(&mut self) {
        if self.is_same_dump {
            self.dump.clear();
            self.is_same_dump = false;
        }
    }
}

// Whether the last line of a dump that begins with `=` is that of its end.
fn has_end(dump: &[u8]) -> bool {
    let mut has_end = false;
    let mut begins = true;
    for i in 0..dump.len() {
        let rest = dump.get(i..).unwrap_or(b"");
        if begins && rest.starts_with(b"=") {
            has_end = rest.starts_with(b"=end");
        }
        begins = rest.starts_with(b"\n");
    }
    has_end
}

// The words of `peek` that show what these words do, if there are any.
fn peek_words(alloc: Global, words: &[String]) -> Result<Option<Vec<String>>, AllocError> {
    let [name, file, pid, rest @ ..] = words else {
        return Ok(None);
    };
    let front = match name.as_str() {
        "term" => format!(in alloc; "peek {file} {pid}")?,
        "stack" | "dict" | "mail" => format!(in alloc; "peek {file} {pid} {name} 0 1000")?,
        _ => return Ok(None),
    };
    Ok(Some(words_of(alloc, front.as_str(), rest)?))
}

// The words of a text, and these behind them.
fn words_of(alloc: Global, front: &str, rest: &[String]) -> Result<Vec<String>, AllocError> {
    let mut words = Vec::new(alloc);
    for word in front.split_whitespace() {
        words.push(String::from_str(alloc, word)?)?;
    }
    for word in rest {
        words.push(String::from_str(alloc, word.as_str())?)?;
    }
    Ok(words)
}

fn length_of(text: &str) -> Option<usize> {
    usize::try_from(dec_u64(text.as_bytes())?).ok()
}
