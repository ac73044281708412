// What a call tells beside its answer: whom it recalled and whom it woke.
ghost use Rattle.std.specs.Prelude.{◌≡◌, ◌+◌, ◌<◌, ◌≤◌, List, [], ◌∷◌, ◌++◌, length, Some};
ghost use Rattle.std.specs.Fmt.{WritesOnOk};
ghost use Rattle.std.specs.Iterator.{YieldsFirst, item_count};
ghost use Rattle.std.specs.List.{flat_map};
ghost use Rattle.model.specs.Report.{report_of, recalls_of, wakes_of};
ghost use Rattle.model.specs.Report.{entry_text, entry_line, report_text};

use crate::limits::DISPATCHES;
use std::fmt;
use std::marker::Model;

/// The dispatch in an unused place of a report.
pub const UNUSED_DISPATCH: u8 = 255;

/// The section in an unused place of a report.
pub const UNUSED_SECTION: u16 = 65535;

/// A dispatch that a report names.
#[derive(Clone, Copy, Debug, PartialEq, Eq)]
pub struct ReportEntry {
    pub dispatch: u8,
    /// The section of its claim that waited.
    pub section: u16,
}

impl fmt::Display for ReportEntry {
    ghost output = { λ entry. Some (entry_text entry) };

    fn fmt<W: fmt::Write>(&self, f: &mut fmt::Formatter<W>) -> fmt::Result {
        write!(f, "{} {}", self.dispatch, self.section)
    }
}

/// A report, in a place that the caller provides: two counts and two arrays of 64 places.
#[derive(Clone, Copy, Debug, PartialEq, Eq)]
pub struct Report {
    /// How many were recalled: the first places.
    pub recalled: u8,
    /// How many were woken: the places after those.
    pub woken: u8,
    /// Their numbers; `UNUSED_DISPATCH` in an unused place.
    pub dispatches: [u8; DISPATCHES],
    /// The section of the claim that waited; `UNUSED_SECTION` in an unused place.
    pub sections: [u16; DISPATCHES],
}

impl Report {
    /// A report that names nobody.
    pub fn empty() -> Report
        ensures { result ≡ report_of [] [] }
    {
        Report {
            recalled: 0,
            woken: 0,
            dispatches: [UNUSED_DISPATCH; DISPATCHES],
            sections: [UNUSED_SECTION; DISPATCHES],
        }
    }

    /// Names one more recalled dispatch, where nobody is named as woken yet.
    pub fn name_recalled(&mut self, entry: ReportEntry)
        requires { self.old.recalled < DISPATCHES }
        ensures recalled { self.new.recalled ≡ self.old.recalled + 1 }
        ensures woken { self.new.woken ≡ self.old.woken }
        ensures named { (recalls : List ReportEntry) → self.old ≡ report_of recalls []
            → self.new ≡ report_of (recalls ++ entry ∷ []) [] }
    {
        let place = self.recalled as usize;
        self.dispatches[place] = entry.dispatch;
        self.sections[place] = entry.section;
        self.recalled += 1;
    }

    /// Names one more woken dispatch.
    pub fn name_woken(&mut self, entry: ReportEntry)
        requires { self.old.recalled + self.old.woken < DISPATCHES }
        ensures recalled { self.new.recalled ≡ self.old.recalled }
        ensures woken { self.new.woken ≡ self.old.woken + 1 }
        ensures named { (recalls wakes : List ReportEntry) → self.old ≡ report_of recalls wakes
            → self.new ≡ report_of recalls (wakes ++ entry ∷ []) }
    {
        let place = self.recalled as usize + self.woken as usize;
        self.dispatches[place] = entry.dispatch;
        self.sections[place] = entry.section;
        self.woken += 1;
    }

    /// The recalled, in order of recall.
    pub fn recalls(&self) -> ReportEntries<'_>
        ensures named { result ≡ recalls_of self.now }

        // A report of some recalled and some woken gives the recalled back.
        ensures given { (recalls wakes : List ReportEntry)
            → length recalls + length wakes ≤ DISPATCHES
            → self.now ≡ report_of recalls wakes → result ≡ recalls }
    {
        let recalled = (self.recalled as usize).min(DISPATCHES);
        ReportEntries {
            dispatches: &self.dispatches[..recalled],
            sections: &self.sections[..recalled],
        }
    }

    /// The woken, in order of opening.
    pub fn wakes(&self) -> ReportEntries<'_>
        ensures named { result ≡ wakes_of self.now }

        // A report of some recalled and some woken gives the woken back.
        ensures given { (recalls wakes : List ReportEntry)
            → length recalls + length wakes ≤ DISPATCHES
            → self.now ≡ report_of recalls wakes → result ≡ wakes }
    {
        let recalled = (self.recalled as usize).min(DISPATCHES);
        let named = (recalled + self.woken as usize).min(DISPATCHES);
        ReportEntries {
            dispatches: &self.dispatches[recalled..named],
            sections: &self.sections[recalled..named],
        }
    }
}

impl fmt::Display for Report {
    ghost output = { λ report. Some (report_text report) };

    fn fmt<W: fmt::Write>(&self, f: &mut fmt::Formatter<W>) -> fmt::Result {
        write_lines("recall", self.recalls(), f)?;
        write_lines("wake", self.wakes(), f)
    }
}

// Writes a line for each entry: the word, a space and the entry.
fn write_lines<W: fmt::Write>(
    word: &str,
    entries: ReportEntries<'_>,
    f: &mut fmt::Formatter<W>,
) -> fmt::Result
    ensures { let text = flat_map (entry_line word.now) entries.entry in
        WritesOnOk W.write_str_gives f.old result text f.new }
{
    for entry in entries {
        writeln!(f, "{word} {entry}")?;
    }
    Ok(())
}

/// The recalled or the woken of a report, one after another.
#[derive(Drop)]
pub struct ReportEntries<'a> {
    dispatches: &'a [u8],
    sections: &'a [u16],
}

impl<'a> Model for ReportEntries<'a> {
    ghost use Rattle.std.specs.Prelude.{List};
    ghost use Rattle.model.specs.Report.{entries};
    ghost use Rattle.model.specs.declared.report.ReportEntry.{ReportEntry};

    ghost Value = { List ReportEntry };

    ghost view = { λ s. entries s.dispatches.now s.sections.now };
}

impl<'a> Iterator for ReportEntries<'a> {
    type Item = ReportEntry;

    ghost next_gives = { YieldsFirst (λ s. s) };

    ghost remaining = { item_count (λ s. s) };

    fn next(&mut self) -> Option<ReportEntry> {
        let (dispatch, dispatches) = self.dispatches.split_first()?;
        let (section, sections) = self.sections.split_first()?;
        self.dispatches = dispatches;
        self.sections = sections;
        Some(ReportEntry {
            dispatch: *dispatch,
            section: *section,
        })
    }
}
