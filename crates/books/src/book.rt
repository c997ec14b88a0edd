//! A file of scenarios.

use crate::script::Script;
use std::alloc::Global;
use std::io;

/// Scenarios that begin alike and end alike.
///
/// The text of a book has lines of scripts. Those before the first line `scenario NAME` begin each scenario, those after a line
/// `finally` end each, and those between are the scenario's own. Empty lines and lines that begin with `#` are skipped.
#[derive(Drop)]
pub struct Book {
    beginning: String,
    scenarios: Vec<Scenario>,
    end: String,
    is_at_end: bool,
}

/// A scenario: its name, and the lines of its script that are its own.
#[derive(Drop)]
pub struct Scenario {
    name: String,
    lines: String,
}

impl Scenario {
    /// What it shows.
    pub fn name(&self) -> &str {
        self.name.as_str()
    }

    /// The lines that are its own.
    pub fn lines(&self) -> &str {
        self.lines.as_str()
    }
}

impl Book {
    /// The book of a text. It fails only if it is out of memory.
    pub fn read(alloc: Global, text: &str) -> io::Result<Book> {
        let mut book = Book {
            beginning: String::new(alloc),
            scenarios: Vec::new(alloc),
            end: String::new(alloc),
            is_at_end: false,
        };
        for line in text.lines() {
            book.add_line(alloc, line)?;
        }
        Ok(book)
    }

    /// Its scenarios, in their order.
    pub fn scenarios(&self) -> &[Scenario] {
        self.scenarios.as_slice()
    }

    /// The whole script of a scenario of this book. It fails only if it is out of memory.
    pub fn script(&self, alloc: Global, scenario: &Scenario) -> io::Result<Script> {
        self.script_at(alloc, scenario, 0)
    }

    /// The same, for RAM that begins at the address `base`.
    pub fn script_at(&self, alloc: Global, scenario: &Scenario, base: u64) -> io::Result<Script> {
        let mut script = Script::new_at(alloc, base);
        script.add(self.beginning.as_str())?;
        script.add(scenario.lines.as_str())?;
        script.add(self.end.as_str())?;
        Ok(script)
    }

    /// All lines of a scenario of this book. It fails only if it is out of memory.
    pub fn text(&self, alloc: Global, scenario: &Scenario) -> io::Result<String> {
        let mut text = String::new(alloc);
        text.push_str(self.beginning.as_str())?;
        text.push_str(scenario.lines.as_str())?;
        text.push_str(self.end.as_str())?;
        Ok(text)
    }

    fn add_line(&mut self, alloc: Global, line: &str) -> io::Result<()> {
        if line.is_empty() || line.starts_with('#') {
            return Ok(());
        }
        if line == "finally" {
            self.is_at_end = true;
            return Ok(());
        }
        if let Some(name) = line.strip_prefix("scenario ") {
            return self.begin_scenario(alloc, name);
        }
        let part = self.part();
        part.push_str(line)?;
        part.push('\n')?;
        Ok(())
    }

    fn begin_scenario(&mut self, alloc: Global, name: &str) -> io::Result<()> {
        let mut scenario = Scenario {
            name: String::new(alloc),
            lines: String::new(alloc),
        };
        scenario.name.push_str(name)?;
        self.scenarios.push(scenario)?;
        Ok(())
    }

    /// The text to which the next line belongs.
    fn part(&mut self) -> &mut String {
        if self.is_at_end {
            return &mut self.end;
        }
        match self.scenarios.last_mut() {
            Some(scenario) => &mut scenario.lines,
            None => &mut self.beginning,
        }
    }
}
