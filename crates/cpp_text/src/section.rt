//! Conditional inclusion: which group of an `#if` is read (C90 6.8.1).

/// Which groups of an `#if` are read.
#[derive(Clone, Copy, Debug, PartialEq, Eq)]
enum Choice {
    /// None so far; the group here is skipped.
    Open,
    /// The group here.
    Reads,
    /// No further one: one was read, or the whole stands in a group that is skipped.
    Closed,
}

/// An `#if`, `#ifdef` or `#ifndef` that has no `#endif` yet.
#[derive(Clone, Copy, Debug, PartialEq, Eq)]
pub struct Section {
    choice: Choice,
    has_else: bool,
}

impl Section {
    /// In a group that is read, with the value of the condition.
    pub fn new(condition: bool) -> Section {
        Section {
            choice: if condition {
                Choice::Reads
            } else {
                Choice::Open
            },
            has_else: false,
        }
    }

    /// In a group that is skipped.
    pub fn skipped() -> Section {
        Section {
            choice: Choice::Closed,
            has_else: false,
        }
    }

    /// Whether the group here is read.
    pub fn is_read(self) -> bool {
        self.choice == Choice::Reads
    }

    /// Whether an `#elif` here is expanded and computed.
    pub fn is_open(self) -> bool {
        self.choice == Choice::Open
    }

    /// Whether its `#else` stands before, so that neither `#elif` nor `#else` may follow.
    pub fn has_else(self) -> bool {
        self.has_else
    }

    /// Behind an `#elif` with the value of its condition, which counts only where the section is open.
    pub fn after_elif(self, condition: bool) -> Section {
        let choice = match self.choice {
            Choice::Open if condition => Choice::Reads,
            Choice::Open => Choice::Open,
            Choice::Reads | Choice::Closed => Choice::Closed,
        };
        Section {
            choice,
            has_else: self.has_else,
        }
    }

    /// Behind its `#else`.
    pub fn after_else(self) -> Section {
        let choice = match self.choice {
            Choice::Open => Choice::Reads,
            Choice::Reads | Choice::Closed => Choice::Closed,
        };
        Section {
            choice,
            has_else: true,
        }
    }
}
