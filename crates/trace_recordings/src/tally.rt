//! Counts of what was compared.

ghost use Rattle.std.specs.Prelude.{◌≡◌, ◌<◌, ◌↔◌, ◌⊎◌, position, IsTrue, OnOk};
ghost use Rattle.trace_recordings.specs.Tallies.{counted_up, counts_of, is_named, nothing_seen, seen_in, one_more_of};
ghost use Rattle.trace_recordings.specs.Tallies.{with_outcome, with_readings};

use crate::findings::{Findings, PartFinding};
use std::alloc::{AllocError, Global};
use std::fmt;

/// What was compared of a set of recordings, and what was left out.
#[derive(Drop)]
pub struct SetTally {
    recordings: u64,
    scripts: Parts,
    dumps: Parts,
    // What the borrowed reader and a sink made.
    readings: Parts,
    // What was given in pieces.
    pieces: Parts,
}

// How many parts of one kind were compared, and how many were left out, by the name of what the library has not.
#[derive(Drop)]
struct Parts {
    compared: u64,
    differences: u64,
    left_out: Vec<LeftOut>,
}

#[derive(Clone, Copy)]
struct LeftOut {
    name: &'static str,
    count: u64,
}

impl SetTally {
    /// Nothing was compared yet.
    pub fn new(alloc: Global) -> SetTally
        ensures recordings { result.recordings ≡ 0 }
        ensures scripts { seen_in result.scripts ≡ nothing_seen }
        ensures dumps { seen_in result.dumps ≡ nothing_seen }
        ensures readings { seen_in result.readings ≡ nothing_seen }
        ensures pieces { seen_in result.pieces ≡ nothing_seen }
    {
        SetTally {
            recordings: 0,
            scripts: Parts::new(alloc),
            dumps: Parts::new(alloc),
            readings: Parts::new(alloc),
            pieces: Parts::new(alloc),
        }
    }

    /// Counts a recording. `AllocError` where a growth was refused: parts of it may be counted then.
    pub fn add(&mut self, findings: &Findings) -> Result<(), AllocError>
        ensures recordings { OnOk result (self.new.recordings ≡ counted_up self.old.recordings 1) }
        ensures scripts { OnOk result
            (seen_in self.new.scripts
            ≡ with_outcome findings.now.script (seen_in self.old.scripts)) }
        ensures dumps { OnOk result
            (seen_in self.new.dumps ≡ with_outcome findings.now.dump (seen_in self.old.dumps)) }
        ensures readings { OnOk result
            (seen_in self.new.readings ≡ with_readings findings.now (seen_in self.old.readings)) }
        ensures pieces { OnOk result
            (seen_in self.new.pieces
            ≡ with_outcome findings.now.pieces (seen_in self.old.pieces)) }
    {
        self.scripts.add(&findings.script)?;
        self.dumps.add(&findings.dump)?;
        self.readings.add(&findings.borrowed)?;
        self.readings.add(&findings.resolved)?;
        self.readings.add(&findings.sink)?;
        self.pieces.add(&findings.pieces)?;
        self.recordings = self.recordings.saturating_add(1);
        Ok(())
    }

    /// Whether a recording differs.
    pub fn differs(&self) -> bool
        ensures { IsTrue result
            ↔ ((0 < self.now.scripts.differences) ⊎ (0 < self.now.dumps.differences)
            ⊎ (0 < self.now.readings.differences) ⊎ (0 < self.now.pieces.differences)) }
    {
        self.scripts.differences > 0
            || self.dumps.differences > 0
            || self.readings.differences > 0
            || self.pieces.differences > 0
    }
}

impl Parts {
    fn new(alloc: Global) -> Parts
        ensures { seen_in result ≡ nothing_seen }
    {
        Parts {
            compared: 0,
            differences: 0,
            left_out: Vec::new(alloc),
        }
    }

    fn add(&mut self, outcome: &PartFinding) -> Result<(), AllocError>
        ensures { OnOk result (seen_in self.new ≡ with_outcome outcome.now (seen_in self.old)) }
    {
        match outcome {
            PartFinding::Absent => {}
            PartFinding::LeftOut(name) => leave_out(&mut self.left_out, name)?,
            PartFinding::Compared(differences) => {
                self.compared = self.compared.saturating_add(1);
                self.differences = self.differences.saturating_add(differences.len() as u64);
            }
        }
        Ok(())
    }
}

// Counts one more that was left out.
fn leave_out(left_out: &mut Vec<LeftOut>, name: &'static str) -> Result<(), AllocError>
    ensures { OnOk result
        (counts_of left_out.new.items ≡ one_more_of name.now (counts_of left_out.old.items)) }
{
    match left_out_index(left_out, name) {
        Some(index) => {
            let known = &mut left_out[index];
            known.count = known.count.saturating_add(1);
        }
        None => left_out.push(LeftOut { name, count: 1 })?,
    }
    Ok(())
}

// The first index of a name.
fn left_out_index(left_out: &[LeftOut], name: &str) -> Option<usize>
    ensures { result ≡ position (is_named name.now) left_out.now }
{
    left_out.iter().position(|known| known.name == name)
}

impl fmt::Display for Parts {
    fn fmt<W: fmt::Write>(&self, f: &mut fmt::Formatter<W>) -> fmt::Result {
        let compared = self.compared;
        write!(f, "{compared} compared")?;
        let mut mark = ", left out:";
        for left_out in &self.left_out {
            let LeftOut { name, count } = *left_out;
            write!(f, "{mark} {count} {name}")?;
            mark = ",";
        }
        Ok(())
    }
}

impl fmt::Display for SetTally {
    fn fmt<W: fmt::Write>(&self, f: &mut fmt::Formatter<W>) -> fmt::Result {
        let recordings = self.recordings;
        let scripts = &self.scripts;
        let dumps = &self.dumps;
        let readings = &self.readings;
        let pieces = &self.pieces;
        let differences = scripts
            .differences
            .saturating_add(dumps.differences)
            .saturating_add(readings.differences)
            .saturating_add(pieces.differences);
        write!(
            f,
            "{recordings} recordings; scripts: {scripts}; dumps: {dumps}; "
        )?;
        write!(
            f,
            "readings: {readings}; pieces: {pieces}; {differences} differ"
        )
    }
}
